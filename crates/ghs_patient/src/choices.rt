//! What a patient schedule picks from, kept from event to event.
ghost use Rattle.std.specs.Prelude.{◌≡◌, ◌<◌, ◌≤◌, ◌↔◌, ℕ, Bool, [], length, filter, slice_get, Some, IfOk, true};
ghost use Rattle.std.specs.List.{All};
ghost use Rattle.ghs_graph.specs.Graph.{IsGraph};
ghost use Rattle.ghs_graph.specs.Ports.{ports_of};
ghost use Rattle.ghs_node.specs.declared.message.Message.{Message as Letter};
ghost use Rattle.peer_network.specs.Network.{network_of, At};
ghost use Rattle.ghs_core.specs.NetState.{network, net_of, event_node};
ghost use Rattle.peer_index.specs.Index.{IsFor, IsIndexOf};
ghost use Rattle.peer_index.specs.Places.{HasPlace, IsPlaced, place, all_events, has_place};
ghost use Rattle.peer_schedule.specs.Picks.{IsPick};
ghost use Rattle.peer_schedule.specs.Schedule.{next_of};
ghost use Rattle.ghs_world.specs.WorldState.{home};
ghost use Rattle.peer_network.specs.declared.event.Event.TheVariants.{Take};
ghost use Rattle.ghs_patient.specs.Patience.{moves_on, puts_back};
ghost use Rattle.ghs_patient.specs.Choices.{AreChoices, AreChoicesBut, AreFor, IsMarked, IsStirred, SecondsGo, are_alike, far_takes, has_second, is_double, marked, marked_all, marked_to, moves_in, patient_in, same_place};

use ghs_core::event::Event;
use ghs_core::net::Net;
use ghs_core::waits::waits;
use ghs_node::delta::Delta;
use ghs_node::head::Head;
use ghs_node::message::Message;
use ghs_world::world::World;
use peer_index::index::Index;
use peer_index::placed::Placed;
use peer_schedule::schedule::Schedule;
use std::alloc::{AllocError, Global};
use std::marker::Model;

/// The events of a world that move its run on, and the Takes from queues with a second message: two bits an event, since
/// the world's own index has what is known of places. Where nothing moves the run on, each second message would.
#[derive(Debug, Drop)]
pub struct Choices {
    moving: Index,
    double: Index,
}

impl Model for Choices {
    ghost use Rattle.ghs_patient.specs.Choices.{ChoicesState};

    ghost Value = { ChoicesState };

    ghost view = { λ c. record { moving = c.moving; double = c.double } };
}

impl Choices {
    /// The choices of a world from which nothing is out. O(N + E).
    pub fn of(alloc: Global, world: &World) -> Result<Choices, AllocError>
        requires { world.now.outs ≡ [] }
        ensures { IfOk result (AreChoices world.now) }
    {
        let graph = world.graph();
        let mut choices = Choices {
            moving: world.unmarked_index(alloc)?,
            double: world.unmarked_index(alloc)?,
        };
        for v in 1..graph.nodes() + 1 {
            let wake = world.placed(Event::Wake(v));
            choices.mark(world, wake);
            choices.mark_ports(world, wake);
        }
        Ok(choices)
    }

    /// The event that the next word of a schedule picks, with where the events of its node begin. O(log N).
    pub fn pick(&self, world: &World, schedule: &mut Schedule) -> Placed
        requires choices { AreChoices world.now self.now }
        requires seconds { SecondsGo world.now }
        requires some { 0 < length (patient_in world.now) }
        ensures pick { IsPick (patient_in world.now) schedule.old result.event }
        ensures placed { IsPlaced (network world.now.net) result }
        ensures next { schedule.new ≡ next_of schedule.old }
    {
        let moving = self.moving.count();
        if moving > 0 {
            let k = schedule.pick(moving as usize);
            return self.moving.kth_placed(world.graph(), k as u32);
        }
        let double = self.double.count();
        let k = schedule.pick(double as usize);
        self.double.kth_placed(world.graph(), k as u32)
    }

    /// Keeps up with an event that has happened, by the head of its node before it and what the node did. Takes O(1)
    /// for each message sent; where phase, level or in_branch of the node have changed, for each of its ports too.
    pub fn follow(&mut self, world: &World, placed: Placed, before: &Head, delta: &Delta)
        requires home { world.now.outs ≡ [] }
        requires placed { IsPlaced (network world.now.net) placed }
        requires ports { All (λ (s : ℕ × Letter). s.0 < length (ports_of world.now.net.graph.keys (event_node placed.event))) delta.now.sends }
        requires own { (q : ℕ) → IsMarked delta.now.mark q → q < length (ports_of world.now.net.graph.keys (event_node placed.event)) }
        requires choices { AreChoicesBut world.now (IsStirred (network world.now.net) placed.event before.now delta.now) self.old }
        ensures { AreChoices world.now self.new }
    {
        let _ = world.net().trace();
        self.mark(world, placed.wake());
        self.mark(world, placed);
        self.mark_far(world, placed, delta.sends.as_slice());
        if !are_alike(before, &delta.head) {
            self.mark_ports(world, placed);
            return;
        }
        match delta.mark {
            Some((port, _)) => self.mark(world, placed.take(port)),
            None => {}
        }
    }

    /// Marks the Takes at the far ends of what a placed event's node has sent.
    fn mark_far(&mut self, world: &World, placed: Placed, sends: &[(u32, Message)])
        requires home { world.now.outs ≡ [] }
        requires placed { IsPlaced (network world.now.net) placed }
        requires ports { All (λ (s : ℕ × Letter). s.0 < length (ports_of world.now.net.graph.keys (event_node placed.event))) sends.now }
        requires index { AreFor (network world.now.net) self.old }
        ensures { self.new ≡ marked_all world.now (far_takes (network world.now.net) (event_node placed.event) sends.now) self.old }
    {
        for (port, _) in sends {
            self.mark(world, world.far_take_placed(placed, *port));
        }
    }

    /// Marks the Takes of a placed event's node.
    fn mark_ports(&mut self, world: &World, placed: Placed)
        requires home { world.now.outs ≡ [] }
        requires placed { IsPlaced (network world.now.net) placed }
        requires index { AreFor (network world.now.net) self.old }
        ensures { let v = event_node placed.event in self.new ≡ marked_to world.now v (length (ports_of world.now.net.graph.keys v)) self.old }
    {
        let graph = world.graph();
        let _ = graph.nodes();
        for port in 0..graph.ports(placed.node()).len() as u32 {
            self.mark(world, placed.take(port));
        }
    }

    /// Marks one event.
    fn mark(&mut self, world: &World, placed: Placed)
        requires home { world.now.outs ≡ [] }
        requires placed { IsPlaced (network world.now.net) placed }
        requires index { AreFor (network world.now.net) self.old }
        ensures { self.new ≡ marked world.now placed.event self.old }
    {
        let graph = world.graph();
        self.moving
            .set_placed(graph, placed, moves_on_placed(world, placed));
        self.double
            .set_placed(graph, placed, is_double(world.net(), placed));
    }
}

/// Whether an event is lawful under the wake set, and moves the run on.
pub fn moves_on(world: &World, event: Event) -> bool
    requires home { world.now.outs ≡ [] }
    requires place { HasPlace (network world.now.net) event }
    ensures { result ≡ moves_in world.now event }
{
    moves_on_placed(world, world.placed(event))
}

/// The same of a placed event: nothing is looked up to come to its queue.
pub fn moves_on_placed(world: &World, placed: Placed) -> bool
    requires home { world.now.outs ≡ [] }
    requires placed { IsPlaced (network world.now.net) placed }
    ensures { result ≡ moves_in world.now placed.event }
{
    match placed.event {
        Event::Wake(_) => world.is_ready(placed.event),
        Event::Take(v, port) => goes(world.net(), placed, v, port),
    }
}

/// Whether a message stands first at the port of a placed Take, and wouldn't be put back.
fn goes(net: &Net, placed: Placed, v: u32, port: u32) -> bool
    requires placed { IsPlaced (network net.now) placed }
    requires take { placed.event ≡ Take v port }
    ensures { (may : ℕ → Bool) → result ≡ moves_on may (network net.now) (net_of net.now) (Take v port) }
{
    let _ = net.trace();
    match net.front_from(net.start_of(placed), v, port) {
        Some(message) => !waits(net.node(v), port, &message),
        None => false,
    }
}

/// Whether an event would only put its message back.
pub fn puts_back(net: &Net, event: Event) -> bool
    requires { HasPlace (network net.now) event }
    ensures { result ≡ puts_back (net_of net.now) event }
{
    let _ = net.trace();
    match event {
        Event::Wake(_) => false,
        Event::Take(v, port) => match net.front(v, port) {
            Some(message) => waits(net.node(v), port, &message),
            None => false,
        },
    }
}

/// Whether a placed event takes from a queue with a second message.
fn is_double(net: &Net, placed: Placed) -> bool
    requires { IsPlaced (network net.now) placed }
    ensures { result ≡ is_double (net_of net.now) placed.event }
{
    match placed.event {
        Event::Wake(_) => false,
        Event::Take(v, port) => net.waiting_from(net.start_of(placed), v, port) >= 2,
    }
}

/// Whether the same messages wait by both heads, at ports whose marks are the same.
pub fn are_alike(left: &Head, right: &Head) -> bool
    ensures { result ≡ are_alike left.now right.now }
{
    left.phase == right.phase
        && left.level.get() == right.level.get()
        && is_same_place(left.in_branch, right.in_branch)
}

/// Whether both are the same port, or none. (`==` of two options says this by another definition.)
fn is_same_place(left: Option<u32>, right: Option<u32>) -> bool
    ensures { result ≡ same_place left right }
{
    match (left, right) {
        (None, None) => true,
        (Some(left), Some(right)) => right == left,
        _ => false,
    }
}
