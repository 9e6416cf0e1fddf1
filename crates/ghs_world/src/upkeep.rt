//! The index of the events that may happen, and its upkeep.
ghost use Rattle.std.specs.Prelude.{◌≡◌, ℕ, ◌<◌, List, length, ◌∷◌, IfOk, true};
ghost use Rattle.std.specs.List.{All};
ghost use Rattle.ghs_graph.specs.Ports.{ports_of};
ghost use Rattle.ghs_node.specs.declared.message.Message.{Message as Letter};
ghost use Rattle.peer_network.specs.declared.event.Event.{Event as Happening};
ghost use Rattle.peer_network.specs.Network.{network_of};
ghost use Rattle.ghs_core.specs.NetState.{network, net_of, event_node};
ghost use Rattle.peer_index.specs.Index.{IsFor, IsIndexOf, IsIndexBut};
ghost use Rattle.peer_index.specs.Places.{has_place, IsPlaced};
ghost use Rattle.ghs_world.specs.Upkeep.{HaveArrived, lawful_in, lawful_first, changed};

use ghs_core::event::Event;
use ghs_core::net::Net;
use ghs_graph::graph::Graph;
use ghs_node::message::Message;
use peer_index::index::Index;
use peer_index::placed::Placed;
use peer_network::wake_set::WakeSet;
use std::alloc::{AllocError, Global};

/// The index of a graph's opening net: the nodes that may wake by themselves. O(N + E).
pub fn open_index(alloc: Global, graph: &Graph, wake: WakeSet) -> Result<Index, AllocError>
    ensures { IfOk result (IsIndexOf (network_of graph.now) (lawful_first graph.now wake)) }
{
    let mut index = Index::none(alloc, graph)?;
    for v in 1..graph.nodes() + 1 {
        index.set(graph, Event::Wake(v), wake.has(graph, v));
    }
    Ok(index)
}

/// Whether an event is lawful in a net, under a wake set.
pub fn may_happen(net: &Net, wake: WakeSet, event: Event) -> bool
    requires { has_place (network net.now) event ≡ true }
    ensures { result ≡ lawful_in net.now wake event }
{
    match event {
        Event::Wake(v) => wake.has(net.graph(), v) && net.lawful(event),
        Event::Take(..) => net.lawful(event),
    }
}

/// The same of a placed event.
fn may_happen_placed(net: &Net, wake: WakeSet, placed: Placed) -> bool
    requires { IsPlaced (network net.now) placed }
    ensures { result ≡ lawful_in net.now wake placed.event }
{
    let start = net.start_of(placed);
    match placed.event {
        Event::Wake(v) => wake.has(net.graph(), v) && net.lawful_from(start, placed.event),
        Event::Take(..) => net.lawful_from(start, placed.event),
    }
}

/// Marks anew what a placed event has changed in a net: its node's wake, itself, and the Takes at the far ends of what its
/// node sent. O(1) for each, and takes no memory.
pub fn mark_changed(
    index: &mut Index,
    net: &Net,
    wake: WakeSet,
    placed: Placed,
    sends: &[(u32, Message)],
)
    requires placed { IsPlaced (network net.now) placed }
    requires ports { All (λ (s : ℕ × Letter). s.0 < length (ports_of net.now.graph.keys (event_node placed.event))) sends.now }
    requires arrived { HaveArrived (network net.now) (net_of net.now) (event_node placed.event) sends.now }
    requires index { IsIndexBut (network net.now) (lawful_in net.now wake) (changed (network net.now) placed.event sends.now) index.old }
    ensures { IsIndexOf (network net.now) (lawful_in net.now wake) index.new }
{
    let _ = net.trace();
    mark(index, net, wake, placed.wake());
    mark(index, net, wake, placed);
    for (port, _) in sends {
        // What was sent waits there, so neither the node nor the queue is looked at.
        index.mark_far_take_placed(net.graph(), placed, *port);
    }
}

/// Marks one event anew.
fn mark(index: &mut Index, net: &Net, wake: WakeSet, placed: Placed)
    requires placed { IsPlaced (network net.now) placed }
    requires index { IsFor (network net.now) index.old }
    ensures { (others : List Happening) → IsIndexBut (network net.now) (lawful_in net.now wake) (placed.event ∷ others) index.old →
        IsIndexBut (network net.now) (lawful_in net.now wake) others index.new }
{
    index.set_placed(net.graph(), placed, may_happen_placed(net, wake, placed));
}
