//! What holds in every run of every graph, however its events interleave. Each law is a function that does nothing.
ghost use Rattle.boruvka_protocol.specs.Laws.{NodesKeepPorts, SleepersAreUntouched, SleepersAreSilent, NodesStayAwake, LevelsStay, EventsAreFew, EventsHaveRules, BranchLinksInTree, InsideLinksAside, FloorsAreGreatest, SendsWithinBound, RunsAreShort, HaltIsEnd, SilenceIsEnd};
ghost use Rattle.boruvka_protocol.specs.Bound.{bound_of};
ghost use Rattle.peer_machine.specs.Protocol.{FitsGraphs};

/// Each node keeps its number, the keys of its ports, and how many they are.
pub fn law_nodes()
    ensures { NodesKeepPorts }
{}

/// Who sleeps is as at the opening, and has sent nothing.
pub fn law_sleepers()
    ensures untouched { SleepersAreUntouched }
    ensures silent { SleepersAreSilent }
{}

/// No node falls asleep.
pub fn law_awake()
    ensures { NodesStayAwake }
{}

/// No node loses level.
pub fn law_levels()
    ensures { LevelsStay }
{}

/// A run has at most as many events as messages sent and nodes together.
pub fn law_events()
    ensures { EventsAreFew }
{}

/// The floor of log2 of n, by which the bound counts levels, is the greatest k with 2^k at most n, for n from 1 on.
pub fn law_floors()
    ensures { FloorsAreGreatest }
{}

/// The bound on messages is below 2^64 for each graph, so that counts of what is sent fit.
pub fn law_bound_fits()
    ensures { FitsGraphs bound_of }
{}

/// Each lawful event has a rule: no event meets a case that the table doesn't have.
pub fn law_rules()
    ensures { EventsHaveRules }
{}

/// Each Branch link is one of the minimum spanning forest.
pub fn law_branches()
    ensures { BranchLinksInTree }
{}

/// No Inside link is.
pub fn law_inside()
    ensures { InsideLinksAside }
{}

/// No run sends more messages than the bound.
pub fn law_sends()
    ensures { SendsWithinBound }
{}

/// No run has more events than the bound and the nodes together, whatever the order.
pub fn law_short_runs()
    ensures { RunsAreShort }
{}

/// A halt is the end: where a node has halted, the links of the forest in its component are Branch at both ends, no other link
/// there is Branch, and no message waits there.
pub fn law_halt()
    ensures { HaltIsEnd }
{}

/// Silence is the end: where no message waits in the component of a node that is awake, one node of it has halted, and no other,
/// and its links of the forest are Branch at both ends, and no other link there is Branch.
pub fn law_silence()
    ensures { SilenceIsEnd }
{}
