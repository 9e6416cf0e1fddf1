//! Which round it is, and what is due in it.
ghost use Rattle.peer_chains.specs.Chains.{hears, no_chains, sent};
ghost use Rattle.ghs_following.specs.Chains.{is_deferred};
ghost use Rattle.peer_chains.specs.Kept.{Fits, HasPlace, HasPlaceOf, SamePlaces, seen};
ghost use Rattle.ghs_graph.specs.Ports.{ports_of};
ghost use Rattle.peer_network.specs.Events.{event_node};
ghost use Rattle.peer_network.specs.Network.{far, far_port, network_of};
ghost use Rattle.ghs_rounds.specs.Rounds.{has_due_second, is_by, is_due};
ghost use Rattle.std.specs.List.{All};
ghost use Rattle.std.specs.Prelude.{◌≡◌, ℕ, ◌-◌, ◌<◌, ◌≤◌, ◌^◌, suc, IfOk, length, OnOk};

use ghs_following::fate::is_deferred;
use ghs_graph::graph::Graph;
use ghs_node::delta::Delta;
use peer_chains::chains::Chains;
use peer_network::event::{Event, node_of};
use std::alloc::{AllocError, Global};
use std::marker::Model;

/// The round, and for each message that waits how long the chain is that it ends: in that round it arrives.
#[derive(Debug, Drop)]
pub struct Clock {
    chains: Chains,
    round: u64,
}

impl Model for Clock {
    ghost use Rattle.ghs_rounds.specs.Clock.{ClockState};

    ghost Value = { ClockState };

    ghost view = { λ c. record { kept = c.chains; round = c.round } };
}

impl Clock {
    /// Round 0, and no message was sent.
    pub fn of(alloc: Global, graph: &Graph) -> Result<Clock, AllocError>
        ensures fits { IfOk result (λ c. Fits graph.now c.kept) }
        ensures none { IfOk result (λ c. seen c.kept ≡ no_chains) }
        ensures round { IfOk result (λ c. c.round ≡ 0) }
    {
        let chains = Chains::none(alloc, graph)?;
        Ok(Clock { chains, round: 0 })
    }

    /// Which round it is.
    pub fn round(&self) -> u64
        ensures { result ≡ self.now.round }
    {
        self.round
    }

    /// The next round begins.
    pub fn advance(&mut self)
        requires { self.old.round < 2 ^ 64 - 1 }
        ensures { self.new ≡ record self.old { round = suc self.old.round } }
    {
        self.round += 1;
    }

    /// Whether an event takes no message, or one that has arrived by the round.
    pub fn is_due(&self, event: Event) -> bool
        requires { HasPlaceOf self.now.kept event }
        ensures { result ≡ is_due (seen self.now.kept) self.now.round event }
    {
        match event {
            Event::Wake(_) => true,
            Event::Take(v, port) => self.is_by(self.chains.waiting(v, port, 0)),
        }
    }

    /// Whether behind the event's message stands one that has arrived by the round.
    pub fn has_due_second(&self, event: Event) -> bool
        requires { HasPlaceOf self.now.kept event }
        ensures { result ≡ has_due_second (seen self.now.kept) self.now.round event }
    {
        match event {
            Event::Wake(_) => false,
            Event::Take(v, port) => self.is_by(self.chains.waiting(v, port, 1)),
        }
    }

    /// Whether there is a number, and no greater than the round.
    fn is_by(&self, number: Option<u64>) -> bool
        ensures { result ≡ is_by self.now.round number }
    {
        match number {
            Some(number) => number <= self.round,
            None => false,
        }
    }

    /// The node of an event, asleep or not, hears of what the event takes, and sends. Refusal: out of memory; the clock is
    /// then of no use.
    pub fn follow(
        &mut self,
        graph: &Graph,
        event: Event,
        asleep: bool,
        delta: &Delta,
    ) -> Result<(), AllocError>
        requires place { HasPlaceOf self.old.kept event }
        requires low { 1 ≤ event_node event }
        requires high { event_node event ≤ graph.now.nodes }
        requires node { event_node event < length self.old.kept.numbers }
        requires small { (v : ℕ) → (hears event asleep (is_deferred delta.now.fate) (seen self.old.kept)).node v < 2 ^ 64 - 1 }
        requires ports { All (λ s. s.0 < length (ports_of graph.now.keys (event_node event))) delta.now.sends }
        requires far { All (λ s. HasPlace self.old.kept (far (network_of graph.now) (event_node event) s.0) (far_port (network_of graph.now) (event_node event) s.0)) delta.now.sends }
        ensures round { OnOk result (self.new.round ≡ self.old.round) }
        ensures places { OnOk result (SamePlaces self.old.kept self.new.kept) }
        ensures chains { OnOk result (seen self.new.kept ≡ sent (network_of graph.now) (event_node event) delta.now.sends (hears event asleep (is_deferred delta.now.fate) (seen self.old.kept))) }
    {
        self.chains.hear(event, asleep, is_deferred(delta.fate))?;
        self.chains
            .send(graph, node_of(event), delta.sends.as_slice())?;
        Ok(())
    }
}
