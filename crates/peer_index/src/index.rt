//! The index.
ghost use Rattle.std.specs.Prelude.{◌≡◌, ℕ, Bool, ◌+◌, ◌-◌, ◌<◌, ◌≤◌, false, true, length, filter, slice_get, slice_set, Some, IfOk};
ghost use Rattle.std.specs.List.{find, list_any, range_with_len};
ghost use Rattle.ghs_graph.specs.Ports.{ports_of};
ghost use Rattle.peer_network.specs.declared.event.Event.{Event as Happening};
ghost use Rattle.peer_network.specs.Events.{event_node};
ghost use Rattle.peer_network.specs.Network.{At, Network, network_of};
ghost use Rattle.ghs_flags.specs.Flags.{count};
ghost use Rattle.peer_index.specs.Places.{all_events, far_take, node_events, takes, place, HasPlace, IsPlaced};
ghost use Rattle.peer_index.specs.Index.{IsFor, IsIndexOf};

use crate::bases::{base_of, event_behind, lay_bases, place_behind, span_of, wake_place_of};
use crate::ends::{Ends, ends_at, far_at, lay_ends, owner_at};
use crate::placed::Placed;
use ghs_flags::flags::Flags;
use ghs_graph::graph::Graph;
use peer_network::event::Event;
use std::alloc::{AllocError, Global};
use std::marker::Model;
use std::sync::ArcSlice;

/// Of the events that name a node or port of a graph some are marked. They stand by node, Wake before ports, ports
/// rising. The index takes 4 bytes a node, and 12 bytes, a bit and a sixteenth of a bit an event; of these only the bits
/// where it shares the rest with another index of the graph (`unmarked`).
#[derive(Debug, Drop)]
pub struct Index {
    /// The place of the first event of each node, and behind them how many events there are; 0 is no node.
    bases: ArcSlice<u32>,
    /// Of each place the node whose event stands there, the place at the far end, and where the node's events begin. They
    /// lie side by side: a run looks up the node of the event that it picks and where its events begin, and then the far
    /// places of the ports of that node, which are near.
    ends: ArcSlice<Ends>,
    marks: Flags,
}

impl Model for Index {
    ghost use Rattle.std.specs.Arc.{arc_slice_items};
    ghost use Rattle.peer_index.specs.Index.{IndexState, AreOwnBases, AreOwners, fars_in, own_bases_in, owners_in};

    ghost Value = { IndexState };

    ghost view = { λ x. record { bases = arc_slice_items x.bases; fars = fars_in (arc_slice_items x.ends); marks = x.marks } };

    ghost invariant = { λ x. let bases = arc_slice_items x.bases in let ends = arc_slice_items x.ends in
        AreOwners bases (owners_in ends) × AreOwnBases bases (owners_in ends) (own_bases_in ends) };
}

impl Index {
    /// No event of the graph is marked. O(N + E).
    ///
    /// ```text
    /// let mut index = Index::none(alloc, &graph)?;
    /// index.set(&graph, Event::Wake(3), true);
    /// index.set(&graph, Event::Take(2, 1), true);
    /// // index.count() is 2, and index.kth(&graph, 0) is Event::Take(2, 1): it stands before the events of node 3
    /// ```
    pub fn none(alloc: Global, graph: &Graph) -> Result<Index, AllocError>
        ensures { IfOk result (IsIndexOf (network_of graph.now) (λ _. false)) }
    {
        let bases = lay_bases(alloc, graph)?;
        let events = bases[bases.len() - 1] as usize;
        let ends = lay_ends(alloc, &bases, graph)?;
        let marks = Flags::lowered(alloc, events)?;
        Ok(Index {
            bases: ArcSlice::from_vec(bases)?,
            ends: ArcSlice::from_vec(ends)?,
            marks,
        })
    }

    /// Another index of the same graph, in which no event is marked. The two share all but the marks, so it takes a bit and
    /// a sixteenth of a bit an event, and O(E / 64).
    pub fn unmarked(&self, alloc: Global, graph: &Graph) -> Result<Index, AllocError>
        requires { IsFor (network_of graph.now) self.now }
        ensures { IfOk result (IsIndexOf (network_of graph.now) (λ _. false)) }
    {
        let _ = graph.nodes();
        Ok(Index {
            bases: self.bases.clone()?,
            ends: self.ends.clone()?,
            marks: Flags::lowered(alloc, self.marks.len())?,
        })
    }

    /// Marks an event of the index's graph, or takes its mark away. O(1), and takes no memory.
    pub fn set(&mut self, graph: &Graph, event: Event, marked: bool)
        requires index { IsFor (network_of graph.now) self.old }
        requires place { HasPlace (network_of graph.now) event }
        ensures { self.new ≡ record self.old { marks = slice_set self.old.marks (place (network_of graph.now) event) marked } }
    {
        let placed = self.placed(graph, event);
        self.set_placed(graph, placed, marked);
    }

    /// Marks a placed event, or takes its mark away. O(1), and takes no memory.
    pub fn set_placed(&mut self, graph: &Graph, placed: Placed, marked: bool)
        requires index { IsFor (network_of graph.now) self.old }
        requires placed { IsPlaced (network_of graph.now) placed }
        ensures { self.new ≡ record self.old { marks = slice_set self.old.marks (place (network_of graph.now) placed.event) marked } }
    {
        self.marks.set(place_behind(graph, placed), marked);
    }

    /// Marks the Take at the far end of a port. O(1), and takes no memory.
    pub fn mark_far_take(&mut self, graph: &Graph, v: u32, port: u32)
        requires index { IsFor (network_of graph.now) self.old }
        requires port { At (network_of graph.now) v port }
        ensures { self.new ≡ record self.old { marks = slice_set self.old.marks (place (network_of graph.now) (far_take (network_of graph.now) v port)) true } }
    {
        let placed = self.placed(graph, Event::Wake(v));
        self.mark_far_take_placed(graph, placed, port);
    }

    /// Marks the Take at the far end of a port of a placed event's node. O(1), and takes no memory.
    pub fn mark_far_take_placed(&mut self, graph: &Graph, placed: Placed, port: u32)
        requires index { IsFor (network_of graph.now) self.old }
        requires placed { IsPlaced (network_of graph.now) placed }
        requires port { At (network_of graph.now) (event_node placed.event) port }
        ensures { let g = network_of graph.now in self.new ≡ record self.old { marks = slice_set self.old.marks (place g (far_take g (event_node placed.event) port)) true } }
    {
        let _ = graph.nodes();
        let at = placed.base as usize + 1 + port as usize;
        let far = far_at(&self.ends, at);
        self.marks.set(far, true);
    }

    /// An event with where those of its node begin. O(1).
    pub fn placed(&self, graph: &Graph, event: Event) -> Placed
        requires index { IsFor (network_of graph.now) self.now }
        requires place { HasPlace (network_of graph.now) event }
        ensures event { result.event ≡ event }
        ensures placed { IsPlaced (network_of graph.now) result }
    {
        let base = wake_place_of(&self.bases, graph, event);
        Placed { event, base }
    }

    /// How many events are marked. O(1).
    pub fn count(&self) -> u32
        ensures count { result ≡ count self.now.marks }
        ensures pass { (g : Network) (p : Happening → Bool) → IsIndexOf g p self.now → result ≡ length (filter p (all_events g)) }
    {
        self.marks.count()
    }

    /// Of the marked events the one at place `k`, counted from 0. O(log N).
    pub fn kth(&self, graph: &Graph, k: u32) -> Event
        requires index { IsFor (network_of graph.now) self.now }
        requires within { k < count self.now.marks }
        ensures { (p : Happening → Bool) → IsIndexOf (network_of graph.now) p self.now → slice_get (filter p (all_events (network_of graph.now))) k ≡ Some result }
    {
        self.kth_placed(graph, k).event
    }

    /// Of the marked events the one at place `k`, counted from 0, and where the events of its node begin. O(log N).
    pub fn kth_placed(&self, graph: &Graph, k: u32) -> Placed
        requires index { IsFor (network_of graph.now) self.now }
        requires within { k < count self.now.marks }
        ensures event { (p : Happening → Bool) → IsIndexOf (network_of graph.now) p self.now → slice_get (filter p (all_events (network_of graph.now))) k ≡ Some result.event }
        ensures placed { IsPlaced (network_of graph.now) result }
    {
        let at = self.marks.kth(k);
        self.placed_at(graph, at)
    }

    /// The Take at the far end of a port of a placed event's node, and where the events of its own node begin. O(1).
    pub fn far_take_placed(&self, graph: &Graph, placed: Placed, port: u32) -> Placed
        requires index { IsFor (network_of graph.now) self.now }
        requires placed { IsPlaced (network_of graph.now) placed }
        requires port { At (network_of graph.now) (event_node placed.event) port }
        ensures event { result.event ≡ far_take (network_of graph.now) (event_node placed.event) port }
        ensures placed { IsPlaced (network_of graph.now) result }
    {
        let _ = graph.nodes();
        let at = placed.base as usize + 1 + port as usize;
        let far = far_at(&self.ends, at);
        self.placed_at(graph, far)
    }

    /// The event at a place, and where the events of its node begin. O(1).
    fn placed_at(&self, graph: &Graph, at: usize) -> Placed
        requires index { IsFor (network_of graph.now) self.now }
        requires within { at < length (all_events (network_of graph.now)) }
        ensures event { slice_get (all_events (network_of graph.now)) at ≡ Some result.event }
        ensures placed { IsPlaced (network_of graph.now) result }
    {
        let here = ends_at(&self.bases, &self.ends, at);
        let event = event_behind(&self.bases, graph, here.owner, here.base, at);
        Placed {
            event,
            base: here.base,
        }
    }

    /// Whether an event of a node is marked. O(1).
    pub fn has_any(&self, graph: &Graph, v: u32) -> bool
        requires index { IsFor (network_of graph.now) self.now }
        requires low { 1 ≤ v }
        requires high { v ≤ graph.now.nodes }
        ensures { (p : Happening → Bool) → IsIndexOf (network_of graph.now) p self.now → result ≡ list_any p (node_events (network_of graph.now) v) }
    {
        let (base, end) = span_of(&self.bases, graph, v);
        self.marks.first_from_to(base, end).is_some()
    }

    /// The first marked Take of a node at a port or later. O(1).
    pub fn first_take(&self, graph: &Graph, v: u32, low: u32) -> Option<Event>
        requires index { IsFor (network_of graph.now) self.now }
        requires low { 1 ≤ v }
        requires high { v ≤ graph.now.nodes }
        ensures { (p : Happening → Bool) → IsIndexOf (network_of graph.now) p self.now →
            result ≡ find p (takes v low (length (ports_of graph.now.keys v) - low)) }
    {
        let (wake, end) = span_of(&self.bases, graph, v);
        let start = wake + 1 + low as usize;
        if end < start {
            return None;
        }
        match self.marks.first_from_to(start, end) {
            Some(at) => Some(Event::Take(v, (at - wake - 1) as u32)),
            None => None,
        }
    }

    /// The first node from `low` on that has a marked event. O(log N).
    pub fn node_from(&self, graph: &Graph, low: u32) -> Option<u32>
        requires index { IsFor (network_of graph.now) self.now }
        requires low { 1 ≤ low }
        requires high { low ≤ graph.now.nodes + 1 }
        ensures { (p : Happening → Bool) → IsIndexOf (network_of graph.now) p self.now →
            result ≡ find (λ (v : ℕ). list_any p (node_events (network_of graph.now) v)) (range_with_len low (graph.now.nodes + 1 - low)) }
    {
        let _ = graph.nodes();
        let base = base_of(&self.bases, graph, low);
        match self.marks.first_from(base) {
            Some(at) => Some(owner_at(&self.bases, &self.ends, at)),
            None => None,
        }
    }
}
