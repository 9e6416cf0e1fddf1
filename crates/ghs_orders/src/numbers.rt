//! The messages of a run, numbered 1, 2, .. as they are sent.
ghost use Rattle.std.specs.Prelude.{◌≡◌, ℕ, ◌+◌, ◌<◌, ◌≤◌, ◌^◌, length, slice_index, IfOk};
ghost use Rattle.std.specs.List.{All};
ghost use Rattle.ghs_graph.specs.Ports.{ports_of};
ghost use Rattle.ghs_node.specs.declared.message.Message.{Message as Letter};
ghost use Rattle.peer_network.specs.Network.{At, network_of};
ghost use Rattle.peer_index.specs.Places.{HasPlace, place};
ghost use Rattle.ghs_orders.specs.Kept.{AreFor, AreNumbers, with_all, with_one};
ghost use Rattle.ghs_orders.specs.Newest.{none_sent};

use ghs_graph::graph::Graph;
use ghs_node::message::Message;
use peer_index::places::Places;
use peer_network::event::Event;
use std::alloc::{AllocError, Global};
use std::marker::Model;

/// How many messages were sent, and which was sent last to each port.
#[derive(Debug, Drop)]
pub struct Numbers {
    places: Places,
    count: u64,
    /// At the place of each Take the number of the last message that was sent to its port, 0 where none was.
    newest: Vec<u64>,
}

impl Model for Numbers {
    ghost use Rattle.ghs_orders.specs.Kept.{NumbersState};

    ghost Value = { NumbersState };

    ghost view = { λ n. record { bases = n.places; count = n.count; newest = n.newest.items } };
}

impl Numbers {
    /// No message was sent on a graph. O(N + E).
    pub fn none(alloc: Global, graph: &Graph) -> Result<Numbers, AllocError>
        ensures { IfOk result (AreNumbers (network_of graph.now) none_sent) }
    {
        let places = Places::of(alloc, graph)?;
        let newest = vec![in alloc; 0u64; places.count(graph)]?;
        Ok(Numbers {
            places,
            count: 0,
            newest,
        })
    }

    /// Where the graph's events stand.
    pub fn places(&self) -> &Places
        ensures { result.now ≡ self.now.bases }
    {
        &self.places
    }

    /// The number of the last message that was sent to the port of a Take. O(1).
    pub fn last(&self, graph: &Graph, event: Event) -> u64
        requires kept { AreFor (network_of graph.now) self.now }
        requires place { HasPlace (network_of graph.now) event }
        ensures last { result ≡ slice_index self.now.newest (place (network_of graph.now) event) }
        ensures most { result ≤ self.now.count }
    {
        self.newest[self.places.place_of(graph, event)]
    }

    /// Node `v` sends messages on its ports. O(1) for each, and takes no memory.
    pub fn send(&mut self, graph: &Graph, v: u32, sends: &[(u32, Message)])
        requires low { 1 ≤ v }
        requires high { v ≤ graph.now.nodes }
        requires ports { All (λ (s : ℕ × Letter). s.0 < length (ports_of graph.now.keys v)) sends.now }
        requires few { self.old.count + length sends.now < 2 ^ 64 }
        requires kept { AreFor (network_of graph.now) self.old }
        ensures { self.new ≡ with_all (network_of graph.now) v sends.now self.old }
    {
        for (port, _) in sends {
            self.send_on(graph, v, *port);
        }
    }

    /// It sends one on a port.
    fn send_on(&mut self, graph: &Graph, v: u32, port: u32)
        requires port { At (network_of graph.now) v port }
        requires few { self.old.count + 1 < 2 ^ 64 }
        requires kept { AreFor (network_of graph.now) self.old }
        ensures { self.new ≡ with_one (network_of graph.now) v port self.old }
    {
        let _ = graph.nodes();
        let end = &graph.ports(v)[port as usize];
        let at = self
            .places
            .place_of(graph, Event::Take(end.far, end.far_port));
        self.count += 1;
        self.newest[at] = self.count;
    }
}
