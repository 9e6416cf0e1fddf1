//! What may happen in a network.
ghost use Rattle.std.specs.Prelude.{◌≡◌};
ghost use Rattle.peer_network.specs.Events.{event_node};

/// An event of the network: a sleeping node wakes by itself, or a node takes the first message that waits at
/// one of its ports. Nodes are numbered from 1, ports from 0.
///
/// ```text
/// let events = [Event::Wake(2), Event::Take(1, 0)];
/// // node 2 wakes by itself, and then node 1 takes what waits at the first of its ports
/// ```
#[derive(Clone, Copy, Debug, PartialEq, Eq)]
pub enum Event {
    Wake(u32),
    Take(u32, u32),
}

/// The node at which an event happens.
pub fn node_of(event: Event) -> u32
    ensures { result ≡ event_node event }
{
    match event {
        Event::Wake(v) => v,
        Event::Take(v, _) => v,
    }
}
