//! The order of events: by node, Wake before ports, ports rising.
ghost use Rattle.ghs_orders.specs.Turns.{ports_done};
ghost use Rattle.peer_index.specs.Places.{HasPlace, place};
ghost use Rattle.peer_network.specs.Network.{Network};
ghost use Rattle.std.specs.Prelude.{◌≡◌, nat_lt};

use ghs_core::event::{Event, node_of};

/// How many of its node's ports stand at an event's place or before it.
pub fn ports_done(event: Event) -> u64
    ensures { result ≡ ports_done event }
{
    match event {
        Event::Wake(_) => 0,
        Event::Take(_, port) => u64::from(port) + 1,
    }
}

/// Whether an event stands before another.
pub fn is_before(left: Event, right: Event) -> bool
    ensures { (g : Network) → HasPlace g left → HasPlace g right → result ≡ nat_lt (place g left) (place g right) }
{
    let (u, v) = (node_of(left), node_of(right));
    if u == v {
        ports_done(left) < ports_done(right)
    } else {
        u < v
    }
}
