//! What a schedule picks from that prefers what waits, kept from event to event.
ghost use Rattle.std.specs.Prelude.{◌≡◌, ◌<◌, ◌≤◌, ℕ, [], length, IfOk};
ghost use Rattle.std.specs.List.{All};
ghost use Rattle.ghs_graph.specs.Ports.{ports_of};
ghost use Rattle.ghs_node.specs.declared.message.Message.{Message as Letter};
ghost use Rattle.ghs_core.specs.NetState.{network, event_node};
ghost use Rattle.peer_index.specs.Index.{IsFor};
ghost use Rattle.peer_index.specs.Places.{HasPlace, IsPlaced};
ghost use Rattle.ghs_patient.specs.Choices.{IsMarked, IsStirred, far_takes};
ghost use Rattle.peer_schedule.specs.Picks.{IsPick};
ghost use Rattle.peer_schedule.specs.Schedule.{next_of};
ghost use Rattle.ghs_world.specs.Ready.{ready_events};
ghost use Rattle.ghs_orders.specs.Marks.{AreMarks, AreMarksBut, marked, marked_all, marked_to};
ghost use Rattle.ghs_orders.specs.Waiting.{waiting_in};

use ghs_core::event::{Event, node_of};
use ghs_node::delta::Delta;
use ghs_node::head::Head;
use ghs_node::message::Message;
use ghs_patient::choices::{are_alike, puts_back};
use ghs_world::world::World;
use peer_index::index::Index;
use peer_index::placed::Placed;
use peer_schedule::schedule::Schedule;
use std::alloc::{AllocError, Global};
use std::marker::Model;

/// The events of a world that only put their message back: a bit an event. The world itself keeps those that are lawful.
#[derive(Debug, Drop)]
pub struct Waiting {
    index: Index,
}

impl Model for Waiting {
    ghost use Rattle.peer_index.specs.Index.{IndexState};

    ghost Value = { IndexState };

    ghost view = { λ w. w.index };
}

impl Waiting {
    /// Those of a world from which nothing is out. O(N + E).
    pub fn of(alloc: Global, world: &World) -> Result<Waiting, AllocError>
        requires { world.now.outs ≡ [] }
        ensures { IfOk result (λ w. AreMarks world.now w) }
    {
        let graph = world.graph();
        let mut waiting = Waiting {
            index: world.unmarked_index(alloc)?,
        };
        for v in 1..graph.nodes() + 1 {
            waiting.mark(world, Event::Wake(v));
            waiting.mark_ports(world, v);
        }
        Ok(waiting)
    }

    /// The event that the next word of a schedule picks, with where the events of its node begin. O(log N).
    pub fn pick(&self, world: &World, schedule: &mut Schedule) -> Placed
        requires home { world.now.outs ≡ [] }
        requires marks { AreMarks world.now self.now }
        requires some { ready_events world.now ≡ [] → ⊥ }
        ensures pick { IsPick (waiting_in world.now) schedule.old result.event }
        ensures placed { IsPlaced (network world.now.net) result }
        ensures next { schedule.new ≡ next_of schedule.old }
    {
        let waiting = self.index.count();
        if waiting > 0 {
            let k = schedule.pick(waiting as usize);
            return self.index.kth_placed(world.graph(), k as u32);
        }
        let k = schedule.pick(world.ready_count());
        world.ready_placed(k)
    }

    /// Keeps up with an event that has happened, by the head of its node before it and what the node did. Takes O(1)
    /// for each message sent; where phase, level or in_branch of the node have changed, for each of its ports too.
    pub fn follow(&mut self, world: &World, event: Event, before: &Head, delta: &Delta)
        requires home { world.now.outs ≡ [] }
        requires place { HasPlace (network world.now.net) event }
        requires ports { All (λ (s : ℕ × Letter). s.0 < length (ports_of world.now.net.graph.keys (event_node event))) delta.now.sends }
        requires own { (q : ℕ) → IsMarked delta.now.mark q → q < length (ports_of world.now.net.graph.keys (event_node event)) }
        requires marks { AreMarksBut world.now (IsStirred (network world.now.net) event before.now delta.now) self.old }
        ensures { AreMarks world.now self.new }
    {
        let _ = world.net().trace();
        let v = node_of(event);
        self.mark(world, Event::Wake(v));
        self.mark(world, event);
        self.mark_far(world, v, delta.sends.as_slice());
        if !are_alike(before, &delta.head) {
            self.mark_ports(world, v);
            return;
        }
        match delta.mark {
            Some((port, _)) => self.mark(world, Event::Take(v, port)),
            None => {}
        }
    }

    /// Marks the Takes at the far ends of what node `v` has sent.
    fn mark_far(&mut self, world: &World, v: u32, sends: &[(u32, Message)])
        requires low { 1 ≤ v }
        requires high { v ≤ world.now.net.graph.nodes }
        requires ports { All (λ (s : ℕ × Letter). s.0 < length (ports_of world.now.net.graph.keys v)) sends.now }
        requires index { IsFor (network world.now.net) self.old }
        ensures { self.new ≡ marked_all world.now (far_takes (network world.now.net) v sends.now) self.old }
    {
        let ports = world.graph().ports(v);
        let _ = world.net().trace();
        for (port, _) in sends {
            let end = &ports[*port as usize];
            self.mark(world, Event::Take(end.far, end.far_port));
        }
    }

    /// Marks the Takes of a node.
    fn mark_ports(&mut self, world: &World, v: u32)
        requires low { 1 ≤ v }
        requires high { v ≤ world.now.net.graph.nodes }
        requires index { IsFor (network world.now.net) self.old }
        ensures { self.new ≡ marked_to world.now v (length (ports_of world.now.net.graph.keys v)) self.old }
    {
        let graph = world.graph();
        let _ = graph.nodes();
        for port in 0..graph.ports(v).len() as u32 {
            self.mark(world, Event::Take(v, port));
        }
    }

    /// Marks one event.
    fn mark(&mut self, world: &World, event: Event)
        requires place { HasPlace (network world.now.net) event }
        requires index { IsFor (network world.now.net) self.old }
        ensures { self.new ≡ marked world.now event self.old }
    {
        self.index
            .set(world.graph(), event, puts_back(world.net(), event));
    }
}
