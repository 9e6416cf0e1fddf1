//! The index of the events that may happen, and its upkeep.
ghost use Rattle.std.specs.Prelude.{◌≡◌, List, [], ◌∷◌, IfOk};
ghost use Rattle.peer_network.specs.declared.event.Event.{Event as Happening};
ghost use Rattle.peer_index.specs.Places.{IsPlaced};
ghost use Rattle.peer_index.specs.Index.{IsFor, IsIndexOf, IsIndexBut};
ghost use Rattle.peer_machine.specs.Net.{event_node};
ghost use Rattle.peer_net.specs.NetState.{network};
ghost use Rattle.peer_runs.specs.Upkeep.{IsStale};
ghost use Rattle.peer_runs.specs.WorldState.{lawful_in};

use peer_index::index::Index;
use peer_index::placed::Placed;
use peer_machine::protocol::Protocol;
use peer_net::event::Event;
use peer_net::net::Net;
use peer_network::wake_set::WakeSet;
use std::alloc::{AllocError, Global};

/// The index of an opening net: the wakes of the nodes that sleep and may wake by themselves. O(N + E).
pub fn open_index<P: Protocol>(
    alloc: Global,
    net: &Net<P>,
    wake: WakeSet,
) -> Result<Index, AllocError>
    requires opening { net.now.trace ≡ [] }
    ensures { IfOk result (IsIndexOf (network net.now) (lawful_in P.rules net.now wake)) }
{
    let graph = net.graph();
    let mut index = Index::none(alloc, graph)?;
    for v in 1..graph.nodes() + 1 {
        let placed = index.placed(graph, Event::Wake(v));
        mark(&mut index, net, wake, placed);
    }
    Ok(index)
}

/// Whether an event is lawful in a net, under a wake set.
pub fn may_happen<P: Protocol>(net: &Net<P>, wake: WakeSet, event: Event) -> bool
    ensures { result ≡ lawful_in P.rules net.now wake event }
{
    match event {
        Event::Wake(v) => net.lawful(event) && wake.has(net.graph(), v),
        Event::Take(..) => net.lawful(event),
    }
}

/// The same of a placed event.
fn may_happen_placed<P: Protocol>(net: &Net<P>, wake: WakeSet, placed: Placed) -> bool
    requires { IsPlaced (network net.now) placed }
    ensures { result ≡ lawful_in P.rules net.now wake placed.event }
{
    match placed.event {
        Event::Wake(v) => net.lawful_placed(placed) && wake.has(net.graph(), v),
        Event::Take(..) => net.lawful_placed(placed),
    }
}

/// Marks anew what a placed event has changed in a net: its node's wake, itself, and the Takes at the far ends of what its node
/// sent. O(1) for each, and takes no memory.
pub fn mark_changed<P: Protocol>(
    index: &mut Index,
    net: &Net<P>,
    wake: WakeSet,
    placed: Placed,
    sends: &[(u32, P::Message)],
)
    requires placed { IsPlaced (network net.now) placed }
    requires stale { IsStale P.rules net.now wake placed.event sends.now index.old }
    ensures { IsIndexOf (network net.now) (lawful_in P.rules net.now wake) index.new }
{
    let _ = net.trace();
    mark(index, net, wake, placed.wake());
    mark(index, net, wake, placed);
    for (port, _) in sends {
        // What was sent waits there, so neither the node nor the queue is looked at.
        index.mark_far_take_placed(net.graph(), placed, *port);
    }
}

/// Marks one event anew.
fn mark<P: Protocol>(index: &mut Index, net: &Net<P>, wake: WakeSet, placed: Placed)
    requires placed { IsPlaced (network net.now) placed }
    requires index { IsFor (network net.now) index.old }
    ensures { (others : List Happening) → IsIndexBut (network net.now) (lawful_in P.rules net.now wake) (placed.event ∷ others) index.old →
        IsIndexBut (network net.now) (lawful_in P.rules net.now wake) others index.new }
{
    index.set_placed(net.graph(), placed, may_happen_placed(net, wake, placed));
}
