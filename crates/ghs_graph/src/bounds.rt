//! How many messages a run may send.
ghost use Rattle.std.specs.Prelude.{◌≤◌};
ghost use Rattle.ghs_graph.specs.Bound.{IsFloorLog2, IsBound};

use ghs_gr::raw_graph::{ARC_LIMIT, NODE_LIMIT};

/// The greatest `k` such that 2 to the `k` is at most `n`.
pub fn floor_log2(n: u32) -> u8
    requires { 1 ≤ n }
    ensures { IsFloorLog2 n result }
{
    n.ilog2() as u8
}

/// The greatest number of messages for `n` nodes and `e` links: `2e + 5nk`, where `k` is `floor_log2(n)`.
///
/// ```text
/// let most = bound(graph.nodes(), graph.links());
/// // 58 where there are five nodes and four links: 2 · 4 + 5 · 5 · 2
/// ```
pub fn bound(n: u32, e: u64) -> u64
    requires some { 1 ≤ n }
    requires nodes { n ≤ NODE_LIMIT }
    requires links { e ≤ ARC_LIMIT }
    ensures { IsBound n e result }
{
    2 * e + 5 * (n as u64 * floor_log2(n) as u64)
}
