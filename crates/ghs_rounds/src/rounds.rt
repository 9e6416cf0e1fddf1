//! A round, and the events of a world that belong to it.
ghost use Rattle.std.specs.Prelude.{◌≡◌, ℕ, ◌++◌, ◌^◌, ◌-◌, ◌<◌, ◌≤◌, [], true, length, IfOk, OnErr, OnOk};
ghost use Rattle.std.specs.List.{All};
ghost use Rattle.ghs_core.specs.NetState.{IsAnswer, IsLawful, event_node, network};
ghost use Rattle.ghs_graph.specs.Ports.{ports_of};
ghost use Rattle.ghs_node.specs.declared.message.Message.{Message as Letter};
ghost use Rattle.ghs_node.specs.Words.{is_sleeping};
ghost use Rattle.ghs_patient.specs.Choices.{far_takes};
ghost use Rattle.ghs_protocol.specs.Marks.{HasEnded};
ghost use Rattle.peer_network.specs.Network.{network_of};
ghost use Rattle.ghs_rounds.specs.Choices.{AreRounds, HasHeard, HasSettled, events_of};
ghost use Rattle.ghs_rounds.specs.Runs.{HasMadeNext};
ghost use Rattle.ghs_world.specs.Steps.{IsSameWorld};
ghost use Rattle.ghs_world.specs.WorldState.{has_turn, home};

use crate::choices::Choices;
use crate::clock::Clock;
use ghs_core::net::is_asleep;
use ghs_graph::graph::Graph;
use ghs_node::delta::Delta;
use ghs_node::message::Message;
use ghs_protocol::interleavings::law_patience_lasts;
use ghs_world::world::World;
use peer_network::event::{Event, node_of};
use peer_schedule::schedule::Schedule;
use std::alloc::{AllocError, Global};
use std::marker::Model;

/// Which round it is, the events of a world that belong to it, and where messages were sent within it.
#[derive(Debug, Drop)]
pub struct Rounds {
    clock: Clock,
    choices: Choices,
    /// The Takes of what was sent within the round; one may stand here more than once.
    fresh: Vec<Event>,
}

impl Model for Rounds {
    ghost use Rattle.ghs_rounds.specs.Choices.{RoundsState};

    ghost Value = { RoundsState };

    ghost view = { λ r. record { clock = r.clock; choices = r.choices; fresh = r.fresh.items } };
}

impl Rounds {
    /// Round 0 of a world that stands at its opening, and from which nothing is out. O(N + E).
    pub fn of(alloc: Global, world: &World) -> Result<Rounds, AllocError>
        requires home { world.now.outs ≡ [] }
        requires trace { world.now.net.trace ≡ [] }
        ensures rounds { IfOk result (λ x. AreRounds world.now x) }
        ensures first { IfOk result (λ x. x.clock.round ≡ 0) }
    {
        let clock = Clock::of(alloc, world.graph())?;
        let choices = Choices::of(alloc, world, &clock)?;
        let fresh = Vec::new(alloc);
        Ok(Rounds {
            clock,
            choices,
            fresh,
        })
    }

    /// Which round it is.
    pub fn count(&self) -> u64
        ensures { result ≡ self.now.clock.round }
    {
        self.clock.round()
    }

    /// Begins the next round where this one is over. Takes O(1) for each message that was sent within it.
    pub fn settle(&mut self, world: &World)
        requires home { world.now.outs ≡ [] }
        requires going { HasEnded world.now.net.graph (home world.now) → ⊥ }
        requires rounds { AreRounds world.now self.old }
        requires few { self.old.clock.round < 2 ^ 64 - 1 }
        ensures { HasSettled world.now self.old self.new }
    {
        law_patience_lasts();
        let _ = world.net().trace();
        if !self.choices.are_none(world, &self.clock) {
            return;
        }
        self.clock.advance();
        self.choices
            .mark_all(world, &self.clock, self.fresh.as_slice());
        self.fresh.clear();
    }

    /// The next word picks an event of the round, and it happens. A refusal leaves the world and the word; the round is then
    /// of no use.
    pub fn make_next(
        &mut self,
        alloc: Global,
        world: &mut World,
        schedule: &mut Schedule,
    ) -> Result<(), AllocError>
        requires home { world.old.outs ≡ [] }
        requires turn { has_turn world.old ≡ true }
        requires rounds { AreRounds world.old self.old }
        requires some { 0 < length (events_of world.old self.old.clock) }
        ensures ok { OnOk result (HasMadeNext world.old world.new self.old schedule.old schedule.new) }
        ensures round { OnOk result (self.new.clock.round ≡ self.old.clock.round) }
        ensures rounds { OnOk result (AreRounds world.new self.new) }
        ensures err { OnErr result (IsSameWorld world.old world.new) }
        ensures word { OnErr result (schedule.new ≡ schedule.old) }
    {
        let _ = world.net().trace();
        let _ = world.turns();
        let mut rest = schedule.copy()?;
        let placed = self.choices.pick(world, &self.clock, &mut rest);
        let before = *world.net().node(placed.node()).head();
        let delta = world.answer_placed(alloc, placed)?;
        self.hear(world, placed.event, is_asleep(&before), &delta)?;
        world.make_answered_placed(placed, &delta)?;
        self.choices
            .follow(world, &self.clock, placed.event, &before, &delta);
        *schedule = rest;
        Ok(())
    }

    /// The clock hears of an event before it happens, by what its node, asleep or not, will do, and what will be sent is
    /// noted. Refusal: out of memory; the round is then of no use.
    fn hear(
        &mut self,
        world: &World,
        event: Event,
        asleep: bool,
        delta: &Delta,
    ) -> Result<(), AllocError>
        requires lawful { IsLawful world.now.net event }
        requires asleep { asleep ≡ is_sleeping ((home world.now).node (event_node event)).head.phase }
        requires answer { IsAnswer world.now.net event delta.now }
        requires few { length world.now.net.trace < 2 ^ 41 }
        requires rounds { AreRounds world.now self.old }
        ensures { OnOk result (HasHeard world.now event delta.now self.old self.new) }
    {
        let _ = world.net().trace();
        self.clock.follow(world.graph(), event, asleep, delta)?;
        note(
            &mut self.fresh,
            world.graph(),
            node_of(event),
            delta.sends.as_slice(),
        )
    }
}

/// The Takes at the far ends of what node `v` sends are noted as those of messages sent within the round.
fn note(
    fresh: &mut Vec<Event>,
    graph: &Graph,
    v: u32,
    sends: &[(u32, Message)],
) -> Result<(), AllocError>
    requires low { 1 ≤ v }
    requires high { v ≤ graph.now.nodes }
    requires ports { All (λ (s : ℕ × Letter). s.0 < length (ports_of graph.now.keys v)) sends.now }
    ensures { OnOk result (fresh.new.items ≡ fresh.old.items ++ far_takes (network_of graph.now) v sends.now) }
{
    let ports = graph.ports(v);
    for (port, _) in sends {
        let end = &ports[*port as usize];
        fresh.push(Event::Take(end.far, end.far_port))?;
    }
    Ok(())
}
