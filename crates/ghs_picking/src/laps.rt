//! The laps of a run by round robin, and the bound on them.
ghost use Rattle.ghs_picking.specs.Laps.{AreLaps};
ghost use Rattle.ghs_protocol.specs.Run.{IsRun};
ghost use Rattle.peer_network.specs.Network.{network_of};
ghost use Rattle.std.specs.Prelude.{◌≤◌, ◌^◌, length};

use ghs_choices::schedule_kind::ScheduleKind;
use ghs_graph::bounds::bound;
use ghs_graph::graph::Graph;
use ghs_orders::laps::laps_of;
use peer_network::event::Event;

/// In how many laps a run goes, and in how many it goes at most.
#[derive(Clone, Copy, Debug, PartialEq, Eq)]
pub struct LapCount {
    pub laps: u64,
    /// 2(B + N), B the bound on messages and N the nodes.
    pub bound: u64,
}

/// The laps of a run of a graph, where it went by round robin. O(1) an event.
///
/// ```text
/// let laps = lap_count(world.graph(), world.trace(), ScheduleKind::RoundRobin);
/// // 5 laps of at most 48 on the triangle, if all nodes wake
/// ```
pub fn lap_count(graph: &Graph, events: &[Event], schedule_kind: ScheduleKind) -> Option<LapCount>
    requires run { IsRun (network_of graph.now) events.now }
    requires few { length events.now ≤ 2 ^ 40 }
    ensures { AreLaps schedule_kind graph.now events.now result }
{
    match schedule_kind {
        ScheduleKind::RoundRobin => {
            let nodes = graph.nodes();
            Some(LapCount {
                laps: laps_of(graph, events),
                bound: 2 * (bound(nodes, graph.links()) + u64::from(nodes)),
            })
        }
        _ => None,
    }
}
