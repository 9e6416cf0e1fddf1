//! What holds of the figures of every run. Each law is a function that does nothing.
ghost use Rattle.ghs_parts.specs.Laws.{GreatestIsOfNodes, LevelsAddUp, NodesAddUp, PlacesAreRules, RulesAddUp};

/// What all nodes have sent of a kind is what was sent of it.
pub fn law_nodes()
    ensures { NodesAddUp }
{}

/// What was sent of a kind at all levels is what was sent of it.
pub fn law_levels()
    ensures { LevelsAddUp }
{}

/// The greatest level of which there are figures is the greatest of a node at the end.
pub fn law_greatest()
    ensures { GreatestIsOfNodes }
{}

/// All rows together applied as often as events happened.
pub fn law_rules()
    ensures { RulesAddUp }
{}

/// Each row of the table has a place of its own: the row at its place is itself.
pub fn law_places()
    ensures { PlacesAreRules }
{}
