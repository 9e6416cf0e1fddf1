//! What is kept of a run that takes first what was sent last.
ghost use Rattle.std.specs.Prelude.{◌≡◌, ℕ, ◌<◌, ◌≤◌, ◌^◌, [], length, IfOk};
ghost use Rattle.std.specs.List.{All};
ghost use Rattle.ghs_graph.specs.Ports.{ports_of};
ghost use Rattle.ghs_node.specs.declared.message.Message.{Message as Letter};
ghost use Rattle.ghs_core.specs.NetState.{network, event_node};
ghost use Rattle.peer_index.specs.Places.{IsPlaced};
ghost use Rattle.ghs_patient.specs.Choices.{IsMarked, SecondsGo, patient_in};
ghost use Rattle.ghs_orders.specs.Kept.{AreLatest, AreLatestBefore};
ghost use Rattle.ghs_orders.specs.LifoRuns.{IsNext};

use crate::numbers::Numbers;
use crate::ranks::Ranks;
use ghs_node::delta::Delta;
use ghs_node::head::Head;
use ghs_patient::choices::Choices;
use ghs_protocol::laws::law_sends;
use ghs_world::world::World;
use peer_index::placed::Placed;
use peer_schedule::schedule::Schedule;
use std::alloc::{AllocError, Global};
use std::marker::Model;

/// The events that a patient schedule picks from, the numbers of messages, and the ranks of the Takes by them: some 28 bytes
/// an event, and 4 a node.
#[derive(Debug, Drop)]
pub struct Latest {
    choices: Choices,
    numbers: Numbers,
    ranks: Ranks,
}

impl Model for Latest {
    ghost use Rattle.ghs_orders.specs.Kept.{LatestState};

    ghost Value = { LatestState };

    ghost view = { λ l. record { choices = l.choices; numbers = l.numbers; ranks = l.ranks } };
}

impl Latest {
    /// That of a world that stands at its opening, and from which nothing is out. O(N + E).
    pub fn of(alloc: Global, world: &World) -> Result<Latest, AllocError>
        requires home { world.now.outs ≡ [] }
        requires trace { world.now.net.trace ≡ [] }
        ensures { IfOk result (AreLatest world.now) }
    {
        let choices = Choices::of(alloc, world)?;
        let numbers = Numbers::none(alloc, world.graph())?;
        let ranks = Ranks::zeros(alloc, numbers.places().count(world.graph()))?;
        Ok(Latest {
            choices,
            numbers,
            ranks,
        })
    }

    /// The next event: the Take at the port to which a message was sent last, of those whose first message would be
    /// consumed; where there is none what the next word of a schedule picks. It comes with where the events of its node
    /// begin. O(log N).
    pub fn pick(&self, world: &World, schedule: &mut Schedule) -> Placed
        requires latest { AreLatest world.now self.now }
        requires seconds { SecondsGo world.now }
        requires some { 0 < length (patient_in world.now) }
        ensures next { IsNext world.now schedule.old result.event schedule.new }
        ensures placed { IsPlaced (network world.now.net) result }
    {
        match self.ranks.latest(world, &self.numbers) {
            Some(event) => world.placed(event),
            None => self.choices.pick(world, schedule),
        }
    }

    /// Keeps up with an event that has happened, by the head of its node before it and what the node did. Takes O(log N)
    /// for each message sent; where phase, level or in_branch of the node have changed, for each of its ports too.
    pub fn follow(&mut self, world: &World, placed: Placed, before: &Head, delta: &Delta)
        requires home { world.now.outs ≡ [] }
        requires placed { IsPlaced (network world.now.net) placed }
        requires ports { All (λ (s : ℕ × Letter). s.0 < length (ports_of world.now.net.graph.keys (event_node placed.event))) delta.now.sends }
        requires own { (q : ℕ) → IsMarked delta.now.mark q → q < length (ports_of world.now.net.graph.keys (event_node placed.event)) }
        requires few { length world.now.net.trace ≤ 2 ^ 40 }
        requires latest { AreLatestBefore world.now placed.event before.now delta.now self.old }
        ensures { AreLatest world.now self.new }
    {
        law_sends();
        let _ = world.net().trace();
        self.choices.follow(world, placed, before, delta);
        self.numbers
            .send(world.graph(), placed.node(), delta.sends.as_slice());
        self.ranks
            .follow(world, &self.numbers, placed.event, before, delta);
    }
}
