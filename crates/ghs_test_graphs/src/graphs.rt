//! Texts of graphs, one for each graph. Some end with a line feed and some without one, some say a link from both ends, and
//! some from its greater end, as files do.

pub const LONE_NODE: &str = "p sp 1 0";

pub const TWO_LONE_NODES: &str = "p sp 2 0";

/// Two nodes and their link.
pub const PAIR: &str = "p sp 2 2\na 1 2 5\na 2 1 5";

/// Two nodes with two links.
pub const PARALLEL_PAIR: &str = "p sp 2 2\na 1 2 5\na 2 1 6";

/// Two nodes with their link, and node 3.
pub const PAIR_AND_NODE: &str = "p sp 3 1\na 1 2 5";

/// Node 1, and two nodes with their link.
pub const NODE_AND_PAIR: &str = "p sp 3 1\na 3 2 5";

/// Three nodes in a row.
pub const PATH_OF_THREE: &str = "p sp 3 2\na 1 2 5\na 2 3 7";

/// The same with a heavier first link.
pub const HEAVIER_PATH_OF_THREE: &str = "p sp 3 2\na 1 2 6\na 2 3 7";

/// Three nodes in a row, the second link lighter than the first.
pub const FALLING_PATH_OF_THREE: &str = "p sp 3 2\na 1 2 5\na 2 3 4";

/// Three nodes in a row, node 1 between the others.
pub const STAR_OF_THREE: &str = "p sp 3 2\na 1 2 5\na 1 3 7";

pub const TRIANGLE: &str = "p sp 3 3\na 1 2 1\na 2 3 2\na 1 3 3\n";

/// All weights are equal: the smaller ends decide.
pub const EQUAL_TRIANGLE: &str = "p sp 3 3\na 1 2 4\na 2 3 4\na 1 3 4\n";

pub const TWO_PAIRS: &str = "p sp 4 2\na 1 2 5\na 3 4 6";

/// Four nodes in a row, the heaviest link in the middle: two fragments of two nodes merge.
pub const PATH_OF_FOUR: &str = "p sp 4 3\na 1 2 1\na 3 4 2\na 2 3 3";

/// Two pairs, and node 5.
pub const TWO_PAIRS_AND_NODE: &str = "p sp 5 2\na 1 2 5\na 3 4 6\n";

/// Five nodes in a row: a fragment of three nodes and one of two, and the link that joins them.
pub const PATH_OF_FIVE: &str = "p sp 5 4\na 1 2 1\na 2 3 2\na 4 5 3\na 3 4 4";

/// Four nodes in a row, and a leaf at the second.
pub const FORKED_PATH: &str = "p sp 5 4\na 1 2 1\na 3 4 2\na 2 3 5\na 2 5 9";

/// Nodes 2, 4, 6 and 5 in a row, and nodes 1 and 3.
pub const PATH_AND_PAIR: &str = "p sp 6 4\na 5 6 1\na 4 6 2\na 2 4 3\na 1 3 9";

/// A star of eight links, the leaf of the lightest being node 1.
pub const STAR_OF_NINE: &str =
    "p sp 9 8\na 1 9 1\na 2 9 2\na 3 9 3\na 4 9 4\na 5 9 5\na 6 9 6\na 7 9 7\na 8 9 8";

/// A hub with five leaves, and a pair that its heaviest link leads to. When the two merge, the hub passes an Initiate on to
/// each of its leaves: five messages at once.
pub const HUB_AND_PAIR: &str =
    "p sp 8 7\na 1 2 1\na 1 3 2\na 1 4 3\na 1 5 4\na 1 6 5\na 7 8 6\na 1 7 7\n";

/// A star of seventeen links, whose hub is node 18.
pub const STAR_OF_EIGHTEEN: &str =
    "p sp 18 17\na 1 18 1\na 2 18 2\na 3 18 3\na 4 18 4\na 5 18 5\na 6 18 6\na 7 18 7\na 8 18 8\na 9 18 9\na 10 18 10\na 11 18 11\na 12 18 12\na 13 18 13\na 14 18 14\na 15 18 15\na 16 18 16\na 17 18 17";

pub const PATH_OF_THIRTEEN: &str =
    "p sp 13 12\na 1 2 1\na 2 3 1\na 3 4 1\na 4 5 1\na 5 6 1\na 6 7 1\na 7 8 1\na 8 9 1\na 9 10 1\na 10 11 1\na 11 12 1\na 12 13 1";
