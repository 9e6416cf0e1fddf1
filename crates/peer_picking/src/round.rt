//! The events of one round.
ghost use Rattle.std.specs.Prelude.{◌≡◌, false, IfOk};
ghost use Rattle.peer_network.specs.declared.event.Event.{Event as Happening};
ghost use Rattle.peer_network.specs.Network.{network_of};
ghost use Rattle.peer_index.specs.Index.{IsIndexOf};
ghost use Rattle.peer_index.specs.Places.{HasPlace, IsPlaced, place};
ghost use Rattle.peer_picking.specs.Kept.{IsRound, count_of, with_count};

use ghs_graph::graph::Graph;
use peer_index::index::Index;
use peer_index::placed::Placed;
use peer_network::event::Event;
use std::alloc::{AllocError, Global};
use std::marker::Model;

/// How many times each event may happen within a round: a wake once, and a Take once for each message of the round at its
/// port. 8 bytes an event, and an index.
#[derive(Debug, Drop)]
pub struct Round {
    /// By the places of the events.
    counts: Vec<u64>,
    /// The events that are counted at all.
    index: Index,
}

impl Model for Round {
    ghost use Rattle.peer_picking.specs.Kept.{RoundState};

    ghost Value = { RoundState };

    ghost view = { λ x. record { counts = x.counts.items; index = x.index } };
}

impl Round {
    /// None of the events of a graph, by an unmarked index. O(N + E).
    pub fn none(alloc: Global, graph: &Graph, index: Index) -> Result<Round, AllocError>
        requires { IsIndexOf (network_of graph.now) (λ _. false) index }
        ensures round { IfOk result (IsRound (network_of graph.now)) }
        ensures none { IfOk result (λ x. (e : Happening) → HasPlace (network_of graph.now) e → count_of (network_of graph.now) x e ≡ 0) }
    {
        let events = graph.nodes() as usize + 2 * graph.links() as usize;
        let counts = vec![in alloc; 0u64; events]?;
        Ok(Round { counts, index })
    }

    /// The events that may happen at all.
    pub fn index(&self) -> &Index
        ensures { result.now ≡ self.now.index }
    {
        &self.index
    }

    /// How many times an event may happen. O(1).
    pub fn get(&self, graph: &Graph, placed: Placed) -> u64
        requires round { IsRound (network_of graph.now) self.now }
        requires placed { IsPlaced (network_of graph.now) placed }
        ensures { result ≡ count_of (network_of graph.now) self.now placed.event }
    {
        self.counts[place_of(graph, placed)]
    }

    /// An event may happen so many times. O(1).
    pub fn put(&mut self, graph: &Graph, placed: Placed, count: u64)
        requires round { IsRound (network_of graph.now) self.old }
        requires placed { IsPlaced (network_of graph.now) placed }
        ensures { self.new ≡ with_count (network_of graph.now) placed.event count self.old }
    {
        self.counts[place_of(graph, placed)] = count;
        self.index.set_placed(graph, placed, count > 0);
    }
}

/// The place of an event among all events.
fn place_of(graph: &Graph, placed: Placed) -> usize
    requires { IsPlaced (network_of graph.now) placed }
    ensures { result ≡ place (network_of graph.now) placed.event }
{
    match placed.event {
        Event::Wake(_) => placed.base as usize,
        Event::Take(_, port) => placed.base as usize + 1 + port as usize,
    }
}
