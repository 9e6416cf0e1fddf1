//! How many rounds a run may have that has ended.
ghost use Rattle.ghs_graph.specs.Graph.{ARC_LIMIT};
ghost use Rattle.ghs_picking.specs.RoundBound.{IsRoundBound, most_ports as most_ports_of};
ghost use Rattle.std.specs.Prelude.{◌≡◌, ◌≤◌};

use ghs_graph::bounds::{bound, floor_log2};
use ghs_graph::graph::Graph;
use peer_network::wake_set::WakeSet;

/// A number that no run by rounds of this graph under the wake set has more rounds than, once it has ended. With N nodes, E
/// links, K the greatest number with 2^K at most N, and D the most ports of a node: 3N·K + 2(D - 1)·K where all nodes wake,
/// and else 2E + 5N·K - 2N; 0 for a lone node. Each node is looked at once.
///
/// ```text
/// let most = round_bound(world.graph(), WakeSet::All);
/// // 11 for the triangle: three nodes of two ports each, and one level
/// ```
pub fn round_bound(graph: &Graph, wake: WakeSet) -> u64
    ensures { IsRoundBound wake graph.now result }
{
    let nodes = graph.nodes();
    match wake {
        WakeSet::All => {
            let levels = u64::from(floor_log2(nodes));
            3 * (u64::from(nodes) * levels) + 2 * (most_ports(graph).saturating_sub(1) * levels)
        }
        WakeSet::First | WakeSet::Listed(_) => {
            bound(nodes, graph.links()).saturating_sub(2 * u64::from(nodes))
        }
    }
}

/// How many ports the node has that has most.
fn most_ports(graph: &Graph) -> u64
    ensures most { result ≡ most_ports_of graph.now }
    ensures few { result ≤ ARC_LIMIT }
{
    let mut most = 0;
    for before in 0..graph.nodes() {
        most = most.max(graph.ports(before + 1).len());
    }
    most as u64
}
