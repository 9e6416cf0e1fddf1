//! What holds of the levels of every graph. Each law is a function that does nothing.
ghost use Rattle.boruvka_protocol.specs.LevelLaws.{TakenInTree, WaysOutLiftClasses, FirstPortIsLeast, NoPortNoWayOut, ClassesAreLarge, LevelsAreFew, ClassesHaveOneCore, PartsLeadToCore, LevelIsOfClass, CoreIsOfClass, TopIsOfClass, InsideIsTree, WholeIsTree, WholeIsComponent, WholeIsTreeThere, NodesHaveOneLast, LastLevelIsWhole, LastLevelIsTree, ClassesHaveOneTop, OthersHaveOneWayUp, TopsHaveNoWayUp, LinksAreWaysUp, WaysUpLeadToTop, NodesHaveOneSub, SubsAreOfChildren, SubOfTopIsLeast};

/// What is taken up to a level lies in the minimum spanning forest.
pub fn law_taken()
    ensures { TakenInTree }
{}

/// A class with a way out is of its level, and the class that it becomes part of is of the next one.
pub fn law_ways_out()
    ensures { WaysOutLiftClasses }
{}

/// At level 0 the least way out of a node is the link of its first port; a node without ports has none at any level.
pub fn law_first_way_out()
    ensures least { FirstPortIsLeast }
    ensures none { NoPortNoWayOut }
{}

/// A class of level l has at least 2^l nodes.
pub fn law_class_sizes()
    ensures { ClassesAreLarge }
{}

/// No class is of a level above the floor of log2 of the nodes.
pub fn law_top_level()
    ensures { LevelsAreFew }
{}

/// A class of a level above 0 has one core.
pub fn law_one_core()
    ensures { ClassesHaveOneCore }
{}

/// From each part of a class the least ways out fall to its core.
pub fn law_ways_to_core()
    ensures { PartsLeadToCore }
{}

/// Level, core and top are the class's: what they are of one of its nodes they are of each.
pub fn law_class_alike()
    ensures level { LevelIsOfClass }
    ensures core { CoreIsOfClass }
    ensures top { TopIsOfClass }
{}

/// Of the links inside a class those of the minimum spanning forest are taken, and no other.
pub fn law_inside()
    ensures { InsideIsTree }
{}

/// Where no class has a way out, what is taken is the minimum spanning forest.
pub fn law_whole()
    ensures { WholeIsTree }
{}

/// A class without a way out is a component, and what is taken in it is the minimum spanning forest's there, whatever others have.
pub fn law_whole_class()
    ensures component { WholeIsComponent }
    ensures tree { WholeIsTreeThere }
{}

/// Each node has one last level: its class is of that level, and has no way out.
pub fn law_one_last()
    ensures { NodesHaveOneLast }
{}

/// At the floor of log2 of the nodes, and from there on, no class has a way out, and what is taken is the minimum spanning
/// forest.
pub fn law_last_level()
    ensures whole { LastLevelIsWhole }
    ensures tree { LastLevelIsTree }
{}

/// A class of a level has one top, the smaller end of its core; at level 0 it is the node by itself.
pub fn law_one_top()
    ensures { ClassesHaveOneTop }
{}

/// Each node but the top has one way up, and the top has none. Each link that is taken is the way up from one of its ends.
pub fn law_one_way_up()
    ensures others { OthersHaveOneWayUp }
    ensures top { TopsHaveNoWayUp }
    ensures links { LinksAreWaysUp }
{}

/// The ways up lead from each node of a class to its top.
pub fn law_ways_up()
    ensures { WaysUpLeadToTop }
{}

/// One link is the least that leaves a class from a node or from below it, or none leaves there. It is the least of the node's own
/// and its children's; at the top it is the least way out of the class.
pub fn law_subs()
    ensures one { NodesHaveOneSub }
    ensures children { SubsAreOfChildren }
    ensures top { SubOfTopIsLeast }
{}
