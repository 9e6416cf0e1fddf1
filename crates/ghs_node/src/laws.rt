//! What holds of the table of reactions, at every node and every work. Each law is a function that does nothing.
ghost use Rattle.ghs_node.specs.Laws.{TableIsWhole, RowIsOne, ListHasNoRow, RowIsReaction, MarksChangeSo, BranchStays, SendsHavePorts, SendsHaveLevels, LevelStays, NodeIsAwake, NodeHalts, NodeStays};

/// Work of a port that is there has a row in the table, or is on the list of what has none.
pub fn law_table_is_whole()
    ensures { TableIsWhole }
{}

/// A state and a work have one row at most.
pub fn law_row_is_one()
    ensures { RowIsOne }
{}

/// What is on the list has no row.
pub fn law_list_has_no_row()
    ensures { ListHasNoRow }
{}

/// The row is what the reaction computes.
pub fn law_row_is_reaction()
    ensures { RowIsReaction }
{}

/// A reaction changes one mark at most, of a port of the node: to Branch, or from Basic to Rejected.
pub fn law_marks()
    ensures { MarksChangeSo }
{}

/// A Branch mark stays.
pub fn law_branch_stays()
    ensures { BranchStays }
{}

/// What a node sends goes out on ports of its own.
pub fn law_send_ports()
    ensures { SendsHavePorts }
{}

/// The levels in what a node sends are at most `TOP_LEVEL`, where the level that it was sent was.
pub fn law_send_levels()
    ensures { SendsHaveLevels }
{}

/// A node loses no level.
pub fn law_level_stays()
    ensures { LevelStays }
{}

/// A node that did something is awake.
pub fn law_awake()
    ensures { NodeIsAwake }
{}

/// A node has halted where one of its reactions halted.
pub fn law_halt()
    ensures { NodeHalts }
{}

/// A reaction keeps what every node keeps.
pub fn law_node_stays()
    ensures { NodeStays }
{}
