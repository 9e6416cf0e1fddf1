//! Where the events of a graph stand among all of them.
ghost use Rattle.std.specs.Prelude.{◌≡◌, ◌<◌, ◌≤◌, ◌^◌, Some, length, slice_get, IfOk};
ghost use Rattle.peer_network.specs.Network.{network_of};
ghost use Rattle.peer_index.specs.Places.{all_events, place, HasPlace};
ghost use Rattle.peer_index.specs.Index.{AreBases};

use crate::bases::{event_at, lay_bases, lay_owners, place_of};
use ghs_graph::graph::Graph;
use peer_network::event::Event;
use std::alloc::{AllocError, Global};
use std::marker::Model;

/// The places of a graph's events, as an index has them, for rows that have more than a mark for each event. They take 4
/// bytes a node, and 4 an event.
#[derive(Debug, Drop)]
pub struct Places {
    /// The place of the first event of each node, and behind them how many events there are; 0 is no node.
    bases: Vec<u32>,
    /// The node whose event stands at each place.
    owners: Vec<u32>,
}

impl Model for Places {
    ghost use Rattle.std.specs.Prelude.{List, ℕ};
    ghost use Rattle.peer_index.specs.Index.{AreOwners};

    ghost Value = { List ℕ };

    ghost view = { λ x. x.bases.items };

    ghost invariant = { λ x. AreOwners x.bases.items x.owners.items };
}

impl Places {
    /// Those of a graph. O(N + E).
    ///
    /// ```text
    /// let places = Places::of(alloc, &graph)?;
    /// let at = places.place_of(&graph, Event::Take(2, 1));
    /// // places.event_at(&graph, at) is Event::Take(2, 1), and at is below places.count(&graph)
    /// ```
    pub fn of(alloc: Global, graph: &Graph) -> Result<Places, AllocError>
        ensures bases { IfOk result (λ x. AreBases (network_of graph.now) graph.now.nodes x) }
        ensures few { IfOk result (λ _. length (all_events (network_of graph.now)) ≤ 2 ^ 25) }
    {
        let bases = lay_bases(alloc, graph)?;
        let owners = lay_owners(alloc, &bases, graph)?;
        Ok(Places { bases, owners })
    }

    /// How many events there are. O(1).
    pub fn count(&self, graph: &Graph) -> usize
        requires { AreBases (network_of graph.now) graph.now.nodes self.now }
        ensures { result ≡ length (all_events (network_of graph.now)) }
    {
        let _ = graph.nodes();
        self.bases[self.bases.len() - 1] as usize
    }

    /// The place of an event. O(1).
    pub fn place_of(&self, graph: &Graph, event: Event) -> usize
        requires bases { AreBases (network_of graph.now) graph.now.nodes self.now }
        requires place { HasPlace (network_of graph.now) event }
        ensures { result ≡ place (network_of graph.now) event }
    {
        place_of(&self.bases, graph, event)
    }

    /// The event at a place. O(1).
    pub fn event_at(&self, graph: &Graph, at: usize) -> Event
        requires bases { AreBases (network_of graph.now) graph.now.nodes self.now }
        requires within { at < length (all_events (network_of graph.now)) }
        ensures { slice_get (all_events (network_of graph.now)) at ≡ Some result }
    {
        event_at(&self.bases, &self.owners, graph, at)
    }
}
