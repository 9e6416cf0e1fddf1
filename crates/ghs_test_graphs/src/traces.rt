//! Texts of runs of some of the graphs.

/// A run of the pair.
pub const PAIR_TRACE: &str =
    "trace 7\nwake 1\nwake 2\ntake 1 0\ntake 2 0\ntake 1 0\ntake 2 0\ntake 1 0\n";

/// In this run of the triangle fragments merge, one is absorbed, messages wait, Tests cross, and a link is rejected at
/// one end alone.
pub const TRIANGLE_TRACE: &str =
    "trace 15\nwake 2\ntake 1 0\ntake 2 0\ntake 1 0\ntake 2 0\ntake 3 1\ntake 2 1\ntake 3 0\ntake 3 0\ntake 3 1\ntake 3 0\ntake 1 1\ntake 2 1\ntake 2 1\ntake 1 0";

/// A run of the path of five.
pub const PATH_OF_FIVE_TRACE: &str =
    "trace 66\nwake 3\nwake 1\nwake 5\nwake 2\ntake 1 0\ntake 2 1\ntake 4 0\ntake 5 0\ntake 2 0\ntake 2 1\ntake 2 0\ntake 3 0\ntake 2 1\ntake 3 0\ntake 4 0\ntake 5 0\ntake 3 1\ntake 4 0\ntake 3 1\ntake 3 1\ntake 4 0\ntake 3 1\ntake 4 0\ntake 1 0\ntake 4 0\ntake 2 0\ntake 3 1\ntake 3 1\ntake 2 0\ntake 3 1\ntake 4 0\ntake 4 0\ntake 3 1\ntake 3 0\ntake 4 1\ntake 3 0\ntake 2 1\ntake 3 1\ntake 2 0\ntake 4 1\ntake 2 0\ntake 5 0\ntake 3 1\ntake 2 0\ntake 2 1\ntake 2 0\ntake 1 0\ntake 3 0\ntake 4 1\ntake 4 0\ntake 4 1\ntake 3 1\ntake 3 1\ntake 4 1\ntake 5 0\ntake 2 1\ntake 4 0\ntake 3 1\ntake 3 1\ntake 1 0\ntake 3 1\ntake 3 1\ntake 3 1\ntake 2 0\ntake 3 0\ntake 3 1";
