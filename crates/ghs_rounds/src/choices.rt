//! What the schedule of a round picks from.
ghost use Rattle.std.specs.Prelude.{◌≡◌, ℕ, ◌<◌, ◌≤◌, [], true, false, length, IfOk};
ghost use Rattle.std.specs.List.{All, Contains};
ghost use Rattle.ghs_graph.specs.Ports.{ports_of};
ghost use Rattle.ghs_node.specs.declared.message.Message.{Message as Letter};
ghost use Rattle.peer_network.specs.declared.event.Event.{Event as Happening};
ghost use Rattle.ghs_core.specs.NetState.{network, event_node};
ghost use Rattle.peer_index.specs.Places.{HasPlace, IsPlaced};
ghost use Rattle.peer_schedule.specs.Picks.{IsPick};
ghost use Rattle.peer_schedule.specs.Schedule.{next_of};
ghost use Rattle.peer_chains.specs.Kept.{Fits};
ghost use Rattle.ghs_patient.specs.Choices.{IsMarked, IsStirred, far_takes};
ghost use Rattle.ghs_rounds.specs.Choices.{AreChoices, AreChoicesBut, AreFor, events_of, hides_in, marked, marked_all, marked_to, moves_in};

use crate::clock::Clock;
use ghs_core::event::{Event, node_of};
use ghs_node::delta::Delta;
use ghs_node::head::Head;
use ghs_node::message::Message;
use ghs_patient::choices::{are_alike, puts_back};
use ghs_world::world::World;
use peer_index::index::Index;
use peer_index::placed::Placed;
use peer_schedule::schedule::Schedule;
use std::alloc::{AllocError, Global};
use std::marker::Model;

/// The events of a world that are due and move its run on, and those that put a message back before one that is due: two
/// bits an event.
#[derive(Debug, Drop)]
pub struct Choices {
    moving: Index,
    hidden: Index,
}

impl Model for Choices {
    ghost use Rattle.ghs_rounds.specs.Choices.{ChoicesState};

    ghost Value = { ChoicesState };

    ghost view = { λ c. record { moving = c.moving; hidden = c.hidden } };
}

impl Choices {
    /// The choices of a world from which nothing is out. O(N + E).
    pub fn of(alloc: Global, world: &World, clock: &Clock) -> Result<Choices, AllocError>
        requires home { world.now.outs ≡ [] }
        requires fits { Fits world.now.net.graph clock.now.kept }
        ensures { IfOk result (AreChoices world.now clock.now) }
    {
        let graph = world.graph();
        let mut choices = Choices {
            moving: world.unmarked_index(alloc)?,
            hidden: world.unmarked_index(alloc)?,
        };
        for v in 1..graph.nodes() + 1 {
            choices.mark(world, clock, Event::Wake(v));
            choices.mark_ports(world, clock, v);
        }
        Ok(choices)
    }

    /// Whether there is none: the round is over.
    pub fn are_none(&self, world: &World, clock: &Clock) -> bool
        requires { AreChoices world.now clock.now self.now }
        ensures none { result ≡ true → events_of world.now clock.now ≡ [] }
        ensures some { result ≡ false → 0 < length (events_of world.now clock.now) }
    {
        self.moving.count() == 0 && self.hidden.count() == 0
    }

    /// The event that the next word of a schedule picks, with where the events of its node begin. O(log N).
    pub fn pick(&self, world: &World, clock: &Clock, schedule: &mut Schedule) -> Placed
        requires choices { AreChoices world.now clock.now self.now }
        requires some { 0 < length (events_of world.now clock.now) }
        ensures pick { IsPick (events_of world.now clock.now) schedule.old result.event }
        ensures placed { IsPlaced (network world.now.net) result }
        ensures next { schedule.new ≡ next_of schedule.old }
    {
        let moving = self.moving.count();
        if moving > 0 {
            let k = schedule.pick(moving as usize);
            return self.moving.kth_placed(world.graph(), k as u32);
        }
        let hidden = self.hidden.count();
        let k = schedule.pick(hidden as usize);
        self.hidden.kth_placed(world.graph(), k as u32)
    }

    /// Keeps up with an event that has happened, by the head of its node before it and what the node did. Takes O(1)
    /// for each message sent; where phase, level or in_branch of the node have changed, for each of its ports too.
    pub fn follow(
        &mut self,
        world: &World,
        clock: &Clock,
        event: Event,
        before: &Head,
        delta: &Delta,
    )
        requires home { world.now.outs ≡ [] }
        requires fits { Fits world.now.net.graph clock.now.kept }
        requires place { HasPlace (network world.now.net) event }
        requires ports { All (λ (s : ℕ × Letter). s.0 < length (ports_of world.now.net.graph.keys (event_node event))) delta.now.sends }
        requires own { (q : ℕ) → IsMarked delta.now.mark q → q < length (ports_of world.now.net.graph.keys (event_node event)) }
        requires choices { AreChoicesBut world.now clock.now (IsStirred (network world.now.net) event before.now delta.now) self.old }
        ensures { AreChoices world.now clock.now self.new }
    {
        let _ = world.net().trace();
        let v = node_of(event);
        self.mark(world, clock, Event::Wake(v));
        self.mark(world, clock, event);
        self.mark_far(world, clock, v, delta.sends.as_slice());
        if !are_alike(before, &delta.head) {
            self.mark_ports(world, clock, v);
            return;
        }
        match delta.mark {
            Some((port, _)) => self.mark(world, clock, Event::Take(v, port)),
            None => {}
        }
    }

    /// Marks some events. O(1) each.
    pub fn mark_all(&mut self, world: &World, clock: &Clock, events: &[Event])
        requires home { world.now.outs ≡ [] }
        requires fits { Fits world.now.net.graph clock.now.kept }
        requires places { (e : Happening) → Contains events.now e → HasPlace (network world.now.net) e }
        requires index { AreFor (network world.now.net) self.old }
        ensures { self.new ≡ marked_all world.now clock.now events.now self.old }
    {
        for event in events {
            self.mark(world, clock, *event);
        }
    }

    /// Marks the Takes at the far ends of what node `v` has sent.
    fn mark_far(&mut self, world: &World, clock: &Clock, v: u32, sends: &[(u32, Message)])
        requires home { world.now.outs ≡ [] }
        requires fits { Fits world.now.net.graph clock.now.kept }
        requires low { 1 ≤ v }
        requires high { v ≤ world.now.net.graph.nodes }
        requires ports { All (λ (s : ℕ × Letter). s.0 < length (ports_of world.now.net.graph.keys v)) sends.now }
        requires index { AreFor (network world.now.net) self.old }
        ensures { self.new ≡ marked_all world.now clock.now (far_takes (network world.now.net) v sends.now) self.old }
    {
        let ports = world.graph().ports(v);
        let _ = world.net().trace();
        for (port, _) in sends {
            let end = &ports[*port as usize];
            self.mark(world, clock, Event::Take(end.far, end.far_port));
        }
    }

    /// Marks the Takes of a node.
    fn mark_ports(&mut self, world: &World, clock: &Clock, v: u32)
        requires home { world.now.outs ≡ [] }
        requires fits { Fits world.now.net.graph clock.now.kept }
        requires low { 1 ≤ v }
        requires high { v ≤ world.now.net.graph.nodes }
        requires index { AreFor (network world.now.net) self.old }
        ensures { self.new ≡ marked_to world.now clock.now v (length (ports_of world.now.net.graph.keys v)) self.old }
    {
        let graph = world.graph();
        let _ = graph.nodes();
        for port in 0..graph.ports(v).len() as u32 {
            self.mark(world, clock, Event::Take(v, port));
        }
    }

    /// Marks one event.
    fn mark(&mut self, world: &World, clock: &Clock, event: Event)
        requires home { world.now.outs ≡ [] }
        requires fits { Fits world.now.net.graph clock.now.kept }
        requires place { HasPlace (network world.now.net) event }
        requires index { AreFor (network world.now.net) self.old }
        ensures { self.new ≡ marked world.now clock.now event self.old }
    {
        let graph = world.graph();
        let placed = world.placed(event);
        self.moving
            .set_placed(graph, placed, moves_on(world, clock, event));
        self.hidden
            .set_placed(graph, placed, hides(world, clock, event));
    }
}

/// Whether an event is lawful under the wake set, moves the run on, and is due.
fn moves_on(world: &World, clock: &Clock, event: Event) -> bool
    requires home { world.now.outs ≡ [] }
    requires fits { Fits world.now.net.graph clock.now.kept }
    requires place { HasPlace (network world.now.net) event }
    ensures { result ≡ moves_in world.now clock.now event }
{
    world.is_ready(event) && !puts_back(world.net(), event) && clock.is_due(event)
}

/// Whether an event only puts its message back, before one that is due.
fn hides(world: &World, clock: &Clock, event: Event) -> bool
    requires home { world.now.outs ≡ [] }
    requires fits { Fits world.now.net.graph clock.now.kept }
    requires place { HasPlace (network world.now.net) event }
    ensures { result ≡ hides_in world.now clock.now event }
{
    puts_back(world.net(), event) && clock.has_due_second(event)
}
