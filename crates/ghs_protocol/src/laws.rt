//! What holds in every run of every graph. Each law is a function that does nothing.
ghost use Rattle.ghs_protocol.specs.Laws.{BranchMarksStay, MarkedPortsStay, NodesStayAwake, LevelsStay, HaltsStay, HaltedByReaction, NodesAreNodes, MessagesHaveLevels, NothingElsewhere, KindsBalance, LedgerBalances, ConnectsAreOne, TakesAreCounted, SendsAreBounded, EventsHappenSo, SleepersWakeFirst, FragmentsAreJoined};

/// A Branch mark is never changed.
pub fn law_branch_marks()
    ensures { BranchMarksStay }
{}

/// A mark that isn't Basic never becomes Basic.
pub fn law_marked_ports()
    ensures { MarkedPortsStay }
{}

/// No node falls asleep.
pub fn law_awake()
    ensures { NodesStayAwake }
{}

/// No node loses level.
pub fn law_levels()
    ensures { LevelsStay }
{}

/// A node that has halted stays so.
pub fn law_halts()
    ensures { HaltsStay }
{}

/// A node has halted exactly where one of its reactions has halted it.
pub fn law_halted()
    ensures { HaltedByReaction }
{}

/// Each node keeps its number, the keys of its ports, and what every node keeps.
pub fn law_nodes()
    ensures { NodesAreNodes }
{}

/// The levels in the messages that wait are levels.
pub fn law_message_levels()
    ensures { MessagesHaveLevels }
{}

/// Nothing waits where no port is.
pub fn law_elsewhere()
    ensures { NothingElsewhere }
{}

/// Of each kind, what was sent was consumed or waits.
pub fn law_kinds()
    ensures { KindsBalance }
{}

/// Over all kinds, what was sent was consumed or waits.
pub fn law_ledger()
    ensures { LedgerBalances }
{}

/// A port sends no Connect before it is Branch; of a Branch port one Connect waits while the far port is
/// Basic, and never more than one.
pub fn law_connects()
    ensures { ConnectsAreOne }
{}

/// A message that is taken is counted once, as consumed or as requeued; a wake is not counted.
pub fn law_takes()
    ensures { TakesAreCounted }
{}

/// What was sent is at most the events times 8,388,609, one more than a node may have ports.
pub fn law_sends()
    ensures { SendsAreBounded }
{}

/// The machine's step as a relation: a sleeping node wakes, or a node takes a message, and reacts.
pub fn law_events()
    ensures { EventsHappenSo }
{}

/// A message that comes to a sleeping node finds it as if it had woken by itself just before.
pub fn law_sleepers()
    ensures { SleepersWakeFirst }
{}

/// A fragment is what joined links join.
pub fn law_fragments()
    ensures { FragmentsAreJoined }
{}
