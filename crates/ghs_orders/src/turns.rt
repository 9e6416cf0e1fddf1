//! The event that is next in turn.
ghost use Rattle.ghs_core.specs.NetState.{event_node, network};
ghost use Rattle.ghs_node.specs.declared.message.Phase.TheVariants.{Sleeping};
ghost use Rattle.ghs_orders.specs.Worlds.{IsNext, IsNextFrom, NoneIsNext};
ghost use Rattle.ghs_world.specs.WorldState.{home};
ghost use Rattle.peer_index.specs.Places.{HasPlace, place};
ghost use Rattle.peer_network.specs.declared.event.Event.TheVariants.{Wake};
ghost use Rattle.std.specs.Prelude.{[], suc, ◌≡◌, ◌≢◌, ◌≤◌, MatchOption};

use crate::order::{is_before, ports_done};
use ghs_core::event::{Event, node_of};
use ghs_world::world::World;

/// The event that is next in turn, if anything may happen: the first behind the last event of the trace, and else the first
/// of all. O(log N).
pub fn next_in_turn(world: &World) -> Option<Event>
    requires { world.now.outs ≡ [] }
    ensures { MatchOption result (NoneIsNext world.now) (IsNext world.now) }
{
    let _ = world.graph().nodes();
    match world.trace().last() {
        Some(last) => next_behind(world, *last),
        None => next_from(world, 1),
    }
}

/// The same behind an event, after which its node is awake.
fn next_behind(world: &World, last: Event) -> Option<Event>
    requires home { world.now.outs ≡ [] }
    requires place { HasPlace (network world.now.net) last }
    requires awake { ((home world.now).node (event_node last)).head.phase ≢ Sleeping }
    ensures { MatchOption result (NoneIsNext world.now) (IsNextFrom world.now (suc (place (network world.now.net) last))) }
{
    let _ = world.graph().nodes();
    let v = node_of(last);
    let low = ports_done(last) as u32;
    match world.next_event(v, low) {
        Some(event) => {
            if is_before(last, event) {
                Some(event)
            } else {
                next_from(world, v + 1)
            }
        }
        None => next_from(world, v + 1),
    }
}

/// The same from the events of a node on.
fn next_from(world: &World, v: u32) -> Option<Event>
    requires home { world.now.outs ≡ [] }
    requires low { 1 ≤ v }
    ensures { MatchOption result (NoneIsNext world.now) (IsNextFrom world.now (place (network world.now.net) (Wake v))) }
{
    match world.next_node(v) {
        Some(u) => world.next_event(u, 0),
        None => None,
    }
}
