//! What holds in every run of every graph, however its events interleave. Each law is a function that does nothing.
ghost use Rattle.ghs_protocol.specs.Interleavings.{FragmentsAreLarge, RejectedLinksInside, RejectedMarksStay, EventsHaveRules, WorkHasReaction, BranchLinksInTree, RejectedLinksAside, HaltIsExact, EndIsTree, SendsWithinBound, SendsWithinSharpBound, LevelsPayOnce, PortsPayOnce, SendsArePaid};
ghost use Rattle.ghs_protocol.specs.Living.{NodesAwait, RequeuesAreWaits, WaitingTakesTurn, SilenceIsEnd, NoRunIsStuck, OneWaits, EveryRunCanEnd, SilentNetsHaveEnded, SilentNetsAreExact, RunsAreShort, FairRunsEnd};
ghost use Rattle.ghs_protocol.specs.Time.{SomethingGoesAtLeast, TreeMessagesAreFew};
ghost use Rattle.ghs_protocol.specs.Schedules.{OthersLeaveAlone, StillnessIsEnd, EveryRunCanEndWhole, PatientRunsAreShort, PatienceGoesOn, PatienceLasts, RealEventsAreFew};
ghost use Rattle.ghs_protocol.specs.Fairness.{NoMessageIsStuck, AllTakenIsLap, LapsAre, TwoLapsGetOn, FullLapGetsOn, LapsAreFew, FullLapsAreFew, ServedRunsAreShort, PromptRunsAreShort, SingleRoundsEnd, AllTakenIsFair, NoFairRunIsEndless, FairCoursesEnd, FairCoursesAre};

/// The fragment of a node of level L has at least 2^L nodes.
pub fn law_fragment_sizes()
    ensures { FragmentsAreLarge }
{}

/// The ends of each Rejected link lie in one fragment.
pub fn law_rejected_links()
    ensures { RejectedLinksInside }
{}

/// A Rejected mark is never changed.
pub fn law_rejected_marks()
    ensures { RejectedMarksStay }
{}

/// Each lawful event has a rule.
pub fn law_rules()
    ensures { EventsHaveRules }
{}

/// A node's reaction to what a lawful event gives it to do is never missing.
pub fn law_reactions()
    ensures { WorkHasReaction }
{}

/// Who searches waits for a Report or an answer; who is awake without ports has halted.
pub fn law_awaits()
    ensures { NodesAwait }
{}

/// Each Branch link lies in the minimum spanning forest.
pub fn law_branch_links()
    ensures { BranchLinksInTree }
{}

/// No Rejected link lies in the minimum spanning forest.
pub fn law_rejected_not_tree()
    ensures { RejectedLinksAside }
{}

/// Where a node has halted, the Branch links of its component are the tree's, and are Branch at both ends.
pub fn law_halt()
    ensures { HaltIsExact }
{}

/// Where a run has ended, the Branch links are those of the minimum spanning forest, and are Branch at both ends.
pub fn law_tree()
    ensures { EndIsTree }
{}

/// In a set of nodes that no link leaves, one of them awake, either a message waits or one has halted.
pub fn law_silence()
    ensures { SilenceIsEnd }
{}

/// In such a set where none has halted a message can be taken that isn't put back, behind one that is at most.
pub fn law_progress()
    ensures { NoRunIsStuck }
{}

/// Where a message waits in a set of nodes that no link leaves, one can be taken there that isn't put back, behind one that
/// is at most; also after the end.
pub fn law_no_message_is_stuck()
    ensures { NoMessageIsStuck }
{}

/// Of the first two messages of a queue one at least isn't put back.
pub fn law_one_waits()
    ensures { OneWaits }
{}

/// A node that is awake puts a message back just where it waits.
pub fn law_requeues()
    ensures { RequeuesAreWaits }
{}

/// Taking a message that waits turns its queue, and does nothing else.
pub fn law_turns()
    ensures { WaitingTakesTurn }
{}

/// Each run can be brought to its end, by at most twice as many Takes as the bound on messages and the nodes together.
pub fn law_finish()
    ensures { EveryRunCanEnd }
{}

/// Where no message waits, links lead from each node that is awake to one that has halted.
pub fn law_silent()
    ensures { SilentNetsHaveEnded }
{}

/// There the Branch links of such a node's component are the tree's, and are Branch at both ends.
pub fn law_silent_exact()
    ensures { SilentNetsAreExact }
{}

/// A run has at most as many events as messages sent, requeues and nodes together.
pub fn law_lengths()
    ensures { RunsAreShort }
{}

/// As many rounds as the bound on messages and the nodes together end each run; in a round each queue has two turns, and
/// anything else may happen.
pub fn law_rounds()
    ensures { FairRunsEnd }
{}

/// No run sends more messages than twice the links and five times the nodes times their floor of log2.
pub fn law_bound()
    ensures { SendsWithinBound }
{}

/// Where there is more than one node, the bound is met with twice the nodes to spare.
pub fn law_sharp_bound()
    ensures { SendsWithinSharpBound }
{}

/// Each level of a node pays at most once for a Connect or ChangeRoot, a Report, an Initiate and an Accept; level 0 for a
/// Connect alone, the highest for a Report and an Initiate alone.
pub fn law_levels_pay()
    ensures { LevelsPayOnce }
{}

/// Each direction of a link pays at most once, for a Reject or for a Test that ended without an Accept, and not while it
/// is being tested.
pub fn law_ports_pay()
    ensures { PortsPayOnce }
{}

/// All that was sent is what levels and ports have paid, what waits, and the Tests that have no end yet.
pub fn law_all_paid()
    ensures { SendsArePaid }
{}

/// What other nodes do leaves a node as it was, appends to its queues at most, and leaves its events lawful, with the
/// same reactions.
pub fn law_others()
    ensures { OthersLeaveAlone }
{}

/// Where no event can happen, the run has ended, or the part of it that wakes by itself has.
///
/// ```text
/// law_stillness();
/// // in a body: from here on its contract may be used by the proof, and the compiler leaves the call out
/// ```
pub fn law_stillness()
    ensures { StillnessIsEnd }
{}

/// From every moment at most twice as many events as the bound on messages and the nodes together lead to the end of the
/// run, wakes of all who may wake among them.
pub fn law_finish_whole()
    ensures { EveryRunCanEndWhole }
{}

/// The events that put nothing back are at most as many as the bound on messages and the nodes together.
pub fn law_real_events()
    ensures { RealEventsAreFew }
{}

/// Whoever wakes a node or takes what doesn't wait where there is such, and else uncovers such, makes at most twice as
/// many events as the bound on messages and the nodes together.
pub fn law_patience()
    ensures { PatientRunsAreShort }
{}

/// There is such an event until each woken component has ended.
pub fn law_patience_goes_on()
    ensures { PatienceGoesOn }
{}

/// There is such an event under the wake set until the run has ended.
pub fn law_patience_lasts()
    ensures { PatienceLasts }
{}

/// Two laps in a row consume a message or wake a node, if anything happens in them. In a lap each queue that holds a
/// message that doesn't wait is taken from.
pub fn law_two_laps()
    ensures { TwoLapsGetOn }
{}

/// One in which each such message that stands first or second is taken does so alone.
pub fn law_full_lap()
    ensures { FullLapGetsOn }
{}

/// Whoever takes from each queue in which a message waits makes a lap.
pub fn law_all_taken_is_lap()
    ensures { AllTakenIsLap }
{}

/// From each net of a run such a lap can be made, by at most two Takes for each link.
pub fn law_laps_are()
    ensures { LapsAre }
{}

/// In whatever way a run is cut into laps, there are at most twice as many as the bound on messages and the nodes together.
pub fn law_laps()
    ensures { LapsAreFew }
{}

/// And at most half as many full ones.
pub fn law_full_laps()
    ensures { FullLapsAreFew }
{}

/// A run in which no queue that holds a message that doesn't wait is passed over for f events in a row has at most 2f events
/// for each of the bound on messages and the nodes together.
pub fn law_served()
    ensures { ServedRunsAreShort }
{}

/// One in which no such message, first or second in its queue, isn't taken for f events has at most f.
pub fn law_prompt()
    ensures { PromptRunsAreShort }
{}

/// Rounds in which each queue has one turn end each run too, if there are twice as many.
pub fn law_single_rounds()
    ensures { SingleRoundsEnd }
{}

/// No run goes on for ever in which no queue that holds a message that doesn't wait is passed over for ever.
pub fn law_no_fair_run_is_endless()
    ensures { NoFairRunIsEndless }
{}

/// Each fair course comes to a moment at which the run has ended and from which on nothing happens, if each component has a
/// node that wakes by itself.
pub fn law_fair_courses_end()
    ensures { FairCoursesEnd }
{}

/// Whoever takes then or later from each queue in which a message waits is fair.
pub fn law_all_taken_is_fair()
    ensures { AllTakenIsFair }
{}

/// From each net of a run a fair course leads on in which all wake who may.
pub fn law_fair_courses()
    ensures { FairCoursesAre }
{}

/// At most three Connects, Initiates, Reports and ChangeRoots are consumed for each node and level.
pub fn law_tree_messages()
    ensures { TreeMessagesAreFew }
{}

/// Where all nodes are awake that links join, and none has halted, a tree message goes, or a node of the least level probes.
pub fn law_goes_at_least()
    ensures { SomethingGoesAtLeast }
{}
