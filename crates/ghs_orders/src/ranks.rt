//! Which Take is next, by the numbers of messages.
ghost use Rattle.std.specs.Prelude.{◌≡◌, ℕ, ◌-◌, ◌<◌, ◌≤◌, ◌^◌, [], length, replicate, IfOk, MatchOption};
ghost use Rattle.std.specs.List.{All};
ghost use Rattle.ghs_graph.specs.Ports.{ports_of};
ghost use Rattle.ghs_node.specs.declared.message.Message.{Message as Letter};
ghost use Rattle.ghs_core.specs.NetState.{network, event_node};
ghost use Rattle.peer_index.specs.Places.{HasPlace, all_events};
ghost use Rattle.ghs_patient.specs.Choices.{IsMarked, far_takes};
ghost use Rattle.ghs_orders.specs.Kept.{AreFor, AreNumbers, AreRanks, AreRanksBut, IsUnranked, rank_in, ranked, ranked_all, ranked_to};
ghost use Rattle.ghs_orders.specs.LifoRuns.{IsLatestIn, NoTakeMovesIn, newest_in};

use crate::numbers::Numbers;
use ghs_core::event::{Event, node_of};
use ghs_maxima::maxima::Maxima;
use ghs_node::delta::Delta;
use ghs_node::head::Head;
use ghs_node::message::Message;
use ghs_patient::choices::{are_alike, moves_on};
use ghs_world::world::World;
use std::alloc::{AllocError, Global};
use std::marker::Model;

/// At the place of each event its rank: of a Take that moves the run on one more than the number of the last message that
/// was sent to its port, and else 0.
#[derive(Debug, Drop)]
pub struct Ranks {
    maxima: Maxima,
}

impl Model for Ranks {
    ghost use Rattle.std.specs.Prelude.{List, ℕ};

    ghost Value = { List ℕ };

    ghost view = { λ r. r.maxima };
}

impl Ranks {
    /// So many events, each of rank 0. O(events).
    pub fn zeros(alloc: Global, events: usize) -> Result<Ranks, AllocError>
        ensures { IfOk result (λ r. r ≡ replicate events 0) }
    {
        Ok(Ranks {
            maxima: Maxima::zeros(alloc, events)?,
        })
    }

    /// The Take at the port to which a message was sent last, of those whose first message would be consumed, where there is
    /// one. O(log N).
    pub fn latest(&self, world: &World, numbers: &Numbers) -> Option<Event>
        requires numbers { AreNumbers (network world.now.net) (newest_in world.now) numbers.now }
        requires ranks { AreRanks world.now numbers.now.newest self.now }
        ensures { MatchOption result (NoTakeMovesIn world.now) (IsLatestIn world.now) }
    {
        match self.maxima.greatest() {
            Some(at) => Some(numbers.places().event_at(world.graph(), at)),
            None => None,
        }
    }

    /// Keeps up with an event that has happened, by the head of its node before it and what the node did. Takes O(log N)
    /// for each message sent; where phase, level or in_branch of the node have changed, for each of its ports too.
    pub fn follow(
        &mut self,
        world: &World,
        numbers: &Numbers,
        event: Event,
        before: &Head,
        delta: &Delta,
    )
        requires home { world.now.outs ≡ [] }
        requires place { HasPlace (network world.now.net) event }
        requires ports { All (λ (s : ℕ × Letter). s.0 < length (ports_of world.now.net.graph.keys (event_node event))) delta.now.sends }
        requires own { (q : ℕ) → IsMarked delta.now.mark q → q < length (ports_of world.now.net.graph.keys (event_node event)) }
        requires few { numbers.now.count < 2 ^ 64 - 1 }
        requires kept { AreFor (network world.now.net) numbers.now }
        requires ranks { AreRanksBut world.now numbers.now.newest (IsUnranked (network world.now.net) event before.now delta.now) self.old }
        ensures { AreRanks world.now numbers.now.newest self.new }
    {
        let _ = world.net().trace();
        let v = node_of(event);
        self.rank(world, numbers, event);
        self.rank_far(world, numbers, v, delta.sends.as_slice());
        if !are_alike(before, &delta.head) {
            self.rank_ports(world, numbers, v);
            return;
        }
        match delta.mark {
            Some((port, _)) => self.rank(world, numbers, Event::Take(v, port)),
            None => {}
        }
    }

    /// Ranks the Takes at the far ends of what node `v` has sent.
    fn rank_far(&mut self, world: &World, numbers: &Numbers, v: u32, sends: &[(u32, Message)])
        requires home { world.now.outs ≡ [] }
        requires low { 1 ≤ v }
        requires high { v ≤ world.now.net.graph.nodes }
        requires ports { All (λ (s : ℕ × Letter). s.0 < length (ports_of world.now.net.graph.keys v)) sends.now }
        requires few { numbers.now.count < 2 ^ 64 - 1 }
        requires kept { AreFor (network world.now.net) numbers.now }
        requires many { length self.old ≡ length (all_events (network world.now.net)) }
        ensures { self.new ≡ ranked_all world.now numbers.now.newest (far_takes (network world.now.net) v sends.now) self.old }
    {
        let ports = world.graph().ports(v);
        let _ = world.net().trace();
        for (port, _) in sends {
            let end = &ports[*port as usize];
            self.rank(world, numbers, Event::Take(end.far, end.far_port));
        }
    }

    /// Ranks the Takes of a node.
    fn rank_ports(&mut self, world: &World, numbers: &Numbers, v: u32)
        requires home { world.now.outs ≡ [] }
        requires low { 1 ≤ v }
        requires high { v ≤ world.now.net.graph.nodes }
        requires few { numbers.now.count < 2 ^ 64 - 1 }
        requires kept { AreFor (network world.now.net) numbers.now }
        requires many { length self.old ≡ length (all_events (network world.now.net)) }
        ensures { self.new ≡ ranked_to world.now numbers.now.newest v (length (ports_of world.now.net.graph.keys v)) self.old }
    {
        let graph = world.graph();
        let _ = graph.nodes();
        for port in 0..graph.ports(v).len() as u32 {
            self.rank(world, numbers, Event::Take(v, port));
        }
    }

    /// Ranks one event.
    fn rank(&mut self, world: &World, numbers: &Numbers, event: Event)
        requires home { world.now.outs ≡ [] }
        requires place { HasPlace (network world.now.net) event }
        requires few { numbers.now.count < 2 ^ 64 - 1 }
        requires kept { AreFor (network world.now.net) numbers.now }
        requires many { length self.old ≡ length (all_events (network world.now.net)) }
        ensures { self.new ≡ ranked world.now numbers.now.newest event self.old }
    {
        let at = numbers.places().place_of(world.graph(), event);
        self.maxima.set(at, rank_of(world, numbers, event));
    }
}

/// The rank of an event.
fn rank_of(world: &World, numbers: &Numbers, event: Event) -> u64
    requires home { world.now.outs ≡ [] }
    requires place { HasPlace (network world.now.net) event }
    requires few { numbers.now.count < 2 ^ 64 - 1 }
    requires kept { AreFor (network world.now.net) numbers.now }
    ensures { result ≡ rank_in world.now numbers.now.newest event }
{
    match event {
        Event::Wake(_) => 0,
        Event::Take(_, _) => {
            if moves_on(world, event) {
                numbers.last(world.graph(), event) + 1
            } else {
                0
            }
        }
    }
}
