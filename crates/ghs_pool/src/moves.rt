//! Which events are worth a ticket, and which are made at once.
ghost use Rattle.peer_network.specs.Network.{At};
ghost use Rattle.ghs_core.specs.NetState.{network};

use ghs_core::net::Net;
use ghs_core::waits::waits;
use ghs_world::world::World;
use peer_network::event::Event;

/// For so many ports of its node an event may pay. A ticket copies the marks of all ports of its node, and a commit compares
/// marks and keys, both under the lock, and the reaction looks over them only where a level begins: so a node of more ports
/// goes out in one of so many events as pay for a ticket, and makes the others at once.
const MANY_PORTS: u32 = 1024;

/// How many events a node makes at once for each that goes out on a ticket: none, unless it has many ports.
pub fn at_once_per_ticket(world: &World, v: u32) -> u32 {
    if !world.has_place(Event::Wake(v)) {
        return 0;
    }
    world.net().node(v).degree().saturating_sub(1) / MANY_PORTS
}

/// Whether an event moves the run on, or turns a queue in which a second message stands. Any other would only put its
/// message back, and leave all as it was.
pub fn is_worth_it(world: &World, event: Event) -> bool {
    match event {
        Event::Wake(_) => true,
        Event::Take(v, port) => world.has_place(event) && is_worth_taking(world.net(), v, port),
    }
}

fn is_worth_taking(net: &Net, v: u32, port: u32) -> bool
    requires { At (network net.now) v port }
{
    let node = net.node(v);
    match net.front(v, port) {
        Some(message) => {
            port >= node.degree() || !waits(node, port, &message) || net.waiting_at(v, port) >= 2
        }
        None => false,
    }
}
