//! How many messages a run may send.
ghost use Rattle.std.specs.Prelude.{◌≡◌};
ghost use Rattle.boruvka_protocol.specs.Bound.{bound_of};

use ghs_graph::bounds::floor_log2;
use ghs_graph::graph::Graph;

/// The greatest number of messages: `2ek + 3nk + n` for `n` nodes and `e` links, where `k` is `floor_log2(n)`.
///
/// ```text
/// let most = message_bound(&graph);
/// // 40 on a path of four nodes: 2 · 3 · 2 + 3 · 4 · 2 + 4
/// ```
pub(crate) fn message_bound(graph: &Graph) -> u64
    ensures { result ≡ bound_of graph.now }
{
    let n = graph.nodes();
    let k = floor_log2(n) as u64;
    2 * (graph.links() * k) + 3 * (n as u64 * k) + n as u64
}
