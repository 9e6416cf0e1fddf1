//! How many laps a run has.
ghost use Rattle.ghs_protocol.specs.Run.{IsRun};
ghost use Rattle.ghs_orders.specs.Laps.{HasPlaceIf, behind_last, laps_in};
ghost use Rattle.peer_index.specs.Places.{HasPlace, place};
ghost use Rattle.peer_network.specs.Network.{Network, network_of};
ghost use Rattle.std.specs.Prelude.{◌≡◌, ◌≤◌, ◌^◌, length, nat_lt};

use crate::order::is_before;
use ghs_core::event::Event;
use ghs_graph::graph::Graph;

/// How many laps a run of a graph has, of whatever schedule: in a lap the places of the events rise, and the next one begins
/// with each event that doesn't stand behind the one before it. O(1) an event.
///
/// ```text
/// let end = run_round_robin(alloc, &mut world)?;
/// let laps = laps_of(world.graph(), world.trace());
/// // laps == 5 on the triangle, if all nodes wake: its 18 events come in 5 laps
/// ```
pub fn laps_of(graph: &Graph, events: &[Event]) -> u64
    requires run { IsRun (network_of graph.now) events.now }
    requires few { length events.now ≤ 2 ^ 40 }
    ensures { result ≡ laps_in (network_of graph.now) events.now }
{
    let _ = graph.nodes();
    let mut laps = 1;
    let mut last = None;
    for event in events {
        if begins_lap(last, *event) {
            laps += 1;
        }
        last = Some(*event);
    }
    laps
}

/// Whether a lap begins with an event behind a last one.
fn begins_lap(last: Option<Event>, event: Event) -> bool
    ensures { (g : Network) → HasPlaceIf g last → HasPlace g event → result ≡ nat_lt (place g event) (behind_last g last) }
{
    match last {
        Some(last) => !is_before(last, event),
        None => false,
    }
}
