//! What all orders have in common: fragments of the graph merge in any order to one end, and so do those of the net. Each
//! law is a function that does nothing.
ghost use Rattle.ghs_protocol.specs.Merging.{OrdersAgree, EndsAreWhole, MergingEnds};
ghost use Rattle.ghs_protocol.specs.Cores.{HaltedAreCoreEnds, CoreIsOfGraph, OneCore, QuietNames, QuietNodes, QuietBranches, QuietHalts, OneEnd, HaltedAreHighest, ConnectsOfGraph, ConnectsAgree};

/// All orders of merging the graph end in one state, after as many steps, and as much is paid, whatever fragments pay for
/// going out.
pub fn law_orders_agree()
    ensures { OrdersAgree }
{}

/// Where no step can be made each component is one fragment.
pub fn law_ends_are_whole()
    ensures { EndsAreWhole }
{}

/// In each graph merging comes to an end.
pub fn law_merging_ends()
    ensures { MergingEnds }
{}

/// A node that has halted is an end of the core: its name is the key of a link of its own that is Branch at both ends.
pub fn law_core_ends()
    ensures { HaltedAreCoreEnds }
{}

/// Level and name of a node that has halted are those to which merging the graph alone leads.
pub fn law_core_of_graph()
    ensures { CoreIsOfGraph }
{}

/// In any two runs the nodes of a component that have halted have one level and one name.
pub fn law_one_core()
    ensures { OneCore }
{}

/// Where nothing waits, each node of a component that woke has the level and the name to which merging leads.
pub fn law_quiet_names()
    ensures { QuietNames }
{}

/// It has found what it searched for, and waits for nothing.
pub fn law_quiet_nodes()
    ensures { QuietNodes }
{}

/// Its Branch ports are those of links of the minimum spanning forest.
pub fn law_quiet_branches()
    ensures { QuietBranches }
{}

/// It has halted exactly where it is an end of the core.
pub fn law_quiet_halts()
    ensures { QuietHalts }
{}

/// Any two nets in which nothing waits are the same, node by node, in each component that has woken in both.
pub fn law_one_end()
    ensures { OneEnd }
{}

/// No node of a component has a higher level than one of it that has halted.
pub fn law_halted_highest()
    ensures { HaltedAreHighest }
{}

/// Once a run has ended, as where nothing waits and nobody sleeps, as many Connects have been sent as merging the graph
/// alone takes: two for a merge, one for an absorb.
pub fn law_connects_of_graph()
    ensures { ConnectsOfGraph }
{}

/// In any two runs that have ended as many Connects have been sent.
pub fn law_connects_agree()
    ensures { ConnectsAgree }
{}
