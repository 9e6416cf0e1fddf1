//! What holds in every run of every graph, however its events interleave and whoever wakes. Each law is a function that does
//! nothing.
ghost use Rattle.gather_protocol.specs.Bound.{bound_of};
ghost use Rattle.gather_protocol.specs.Laws.{BranchesAreTree, EventsHaveRules, HaltedMarkTrees, MessagesHaveKinds, NodesKeepPorts, NodesStayAwake, NoneIsDeferred, OneSends, OneSendsJust, OthersMarkNone, RunsAreShort, SendsWithinBound, SendsWithinPieces, SendsWithinWakers, SilenceEnds, SilenceHalts, SilenceWakes};
ghost use Rattle.peer_machine.specs.Protocol.{FitsGraphs};

/// Each node keeps its number and the keys of its ports.
pub fn law_nodes()
    ensures { NodesKeepPorts }
{}

/// Each message is of one of the kinds, and none is ever deferred.
pub fn law_kinds()
    ensures kinds { MessagesHaveKinds }
    ensures deferred { NoneIsDeferred }
{}

/// Each lawful event has a rule: no event meets a case that the rules don't have.
pub fn law_rules()
    ensures { EventsHaveRules }
{}

/// No node falls asleep: each event leaves its node awake.
pub fn law_awake()
    ensures { NodesStayAwake }
{}

/// Where W nodes may wake by themselves, a run sends at most 2E·W + N - 1 messages.
pub fn law_wakers()
    ensures { SendsWithinWakers }
{}

/// Where the graph is in C pieces, at most 2E·W + N - C.
pub fn law_pieces()
    ensures { SendsWithinPieces }
{}

/// Where one node may, at most 2E + N - 1, and at the end just so many.
pub fn law_one_waker()
    ensures most { OneSends }
    ensures just { OneSendsJust }
{}

/// No run sends more messages than the bound, 2E·N + N - 1.
///
/// ```text
/// law_sends();
/// // in a body: from here on its contract may be used by the proof, and the compiler leaves the call out
/// ```
pub fn law_sends()
    ensures { SendsWithinBound }
{}

/// The bound on messages is below 2^64 for each graph, so that counts of what is sent fit.
pub fn law_bound_fits()
    ensures { FitsGraphs bound_of }
{}

/// No run has more events than the bound and the nodes together, whatever the order.
pub fn law_short_runs()
    ensures { RunsAreShort }
{}

/// Silence is the end: where no message waits, each node that is awake has halted, and nobody sleeps in its component.
pub fn law_silence()
    ensures halts { SilenceHalts }
    ensures wakes { SilenceWakes }
{}

/// At every moment: who has halted has marked those of its links that are of the minimum spanning forest, and no others; who
/// has not has marked none.
pub fn law_marks()
    ensures halted { HaltedMarkTrees }
    ensures others { OthersMarkNone }
{}

/// A run has ended, where no message waits and each node has halted, just in silence with all awake. Then the Branch links are
/// the minimum spanning forest.
pub fn law_end()
    ensures silence { SilenceEnds }
    ensures tree { BranchesAreTree }
{}
