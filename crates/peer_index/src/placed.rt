//! Events beside the places of their nodes.
ghost use Rattle.std.specs.Prelude.{◌≡◌};
ghost use Rattle.peer_network.specs.declared.event.Event.TheVariants.{Take, Wake};
ghost use Rattle.peer_network.specs.Events.{event_node};
ghost use Rattle.peer_network.specs.Network.{At, Network};
ghost use Rattle.peer_index.specs.Places.{IsPlaced};

use peer_network::event::{Event, node_of};

/// An event, and where those of its node begin among all events: so nobody who has one looks that up.
#[derive(Clone, Copy, Debug)]
pub struct Placed {
    pub event: Event,
    /// The place of the Wake of the event's node.
    pub base: u32,
}

impl Placed {
    /// The Wake of the event's node. Nothing is looked up.
    pub fn wake(self) -> Placed
        ensures event { result.event ≡ Wake (event_node self.event) }
        ensures placed { (g : Network) → IsPlaced g self → IsPlaced g result }
    {
        Placed {
            event: Event::Wake(self.node()),
            base: self.base,
        }
    }

    /// The Take of the event's node at a port. Nothing is looked up.
    pub fn take(self, port: u32) -> Placed
        ensures event { result.event ≡ Take (event_node self.event) port }
        ensures placed { (g : Network) → IsPlaced g self → At g (event_node self.event) port → IsPlaced g result }
    {
        Placed {
            event: Event::Take(self.node(), port),
            base: self.base,
        }
    }

    /// The event's node.
    pub fn node(self) -> u32
        ensures { result ≡ event_node self.event }
    {
        node_of(self.event)
    }
}
