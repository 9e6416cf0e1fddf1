//! The shop as it is lent: the calls of the world, and each commit published.
ghost use Rattle.std.specs.Prelude.{◌≡◌, ◌≤◌, ◌↔◌, None, length, IfOk, IfErr, OnOk, OnErr, IsTrue};
ghost use Rattle.ghs_protocol.specs.Marks.{HasEnded};
ghost use Rattle.ghs_core.specs.NetState.{network, event_node, IsLeastHalted};
ghost use Rattle.ghs_world.specs.Ready.{next_of, next_node_of};
ghost use Rattle.ghs_world.specs.Steps.{Commits, LeavesOthers, AreReadyOf, HasAllRoused, RefusesStep, IsSameWorld, touched};
ghost use Rattle.ghs_world.specs.Outs.{without};
ghost use Rattle.ghs_world.specs.WorldState.{home, refusal, Refuses, ticket_of, gone_out, IsOut, RefusesTicket};
ghost use Rattle.ghs_pool.specs.Shop.{Publishes};

use crate::shop::{Shop, pair_of};
use ghs_world::fault::{BackFault, CommitFault, OutFault};
use ghs_world::ticket::{Step, Ticket};
use ghs_world::woken::Committed;
use peer_network::event::Event;
use std::alloc::Global;

/// A lent shop. Each call answers and refuses as the world's call of that name.
pub trait Desk {
    ghost use Rattle.ghs_shared.specs.Board.{Published};
    ghost use Rattle.ghs_world.specs.WorldState.{WorldState};

    ghost world: { Self → WorldState };

    ghost told: { Self → Published };

    /// An event's node goes out. Nothing is published.
    fn check_out(&mut self, alloc: Global, event: Event) -> Result<Ticket, OutFault>
        ensures ok { OnOk result (refusal (world self.old) event ≡ None) }
        ensures ticket { IfOk result (λ t. t ≡ ticket_of (world self.old) event) }
        ensures out { OnOk result (world self.new ≡ gone_out (world self.old) event) }
        ensures fault { IfErr result (λ f. Refuses (world self.old) event f) }
        ensures err { OnErr result (world self.new ≡ world self.old) }
        ensures told { told self.new ≡ told self.old };

    /// A step's event happens, and then the new pair is published. At a refusal nothing is.
    fn commit(&mut self, alloc: Global, step: Step) -> Result<Committed, (Step, CommitFault)>
        ensures ok { OnOk result (IsOut (world self.old) step.ticket) }
        ensures commits { OnOk result (Commits (world self.old) step.ticket.number step.ticket.event (world self.new)) }
        ensures others { OnOk result (LeavesOthers (world self.old) step.ticket.number (world self.new)) }
        ensures woken { IfOk result (λ c. AreReadyOf (world self.new) (touched (network (world self.old).net) (event_node step.ticket.event) step.delta.sends) c.woken) }
        ensures roused { IfOk result (λ c. HasAllRoused (world self.old) (world self.new) c.woken) }
        ensures halted { IfOk result (λ c. c.halted ≡ step.delta.halts) }
        ensures published { OnOk result (Publishes (told self.old) (told self.new) (world self.new)) }
        ensures fault { IfErr result (λ e. RefusesStep (world self.old) step.ticket e.1) }
        ensures back { IfErr result (λ e. e.0 ≡ step) }
        ensures err { OnErr result (IsSameWorld (world self.old) (world self.new)) }
        ensures unpublished { OnErr result (told self.new ≡ told self.old) };

    /// A ticket comes back. Nothing is published.
    fn give_back(&mut self, ticket: Ticket) -> Result<(), (Ticket, BackFault)>
        ensures ok { OnOk result (IsOut (world self.old) ticket) }
        ensures home { OnOk result (world self.new ≡ record (world self.old) { outs = without ticket.number (world self.old).outs }) }
        ensures fault { IfErr result (λ e. RefusesTicket (world self.old) ticket e.1) }
        ensures back { IfErr result (λ e. e.0 ≡ ticket) }
        ensures err { OnErr result (world self.new ≡ world self.old) }
        ensures told { told self.new ≡ told self.old };

    /// The next event of a node, from a port on.
    fn next_event(&self, v: u32, from: u32) -> Option<Event>
        requires low { 1 ≤ v }
        requires high { v ≤ (world self.now).net.graph.nodes }
        ensures { result ≡ next_of (world self.now) v from };

    /// The next node that has an event, from a node on.
    fn next_node(&self, from: u32) -> Option<u32>
        ensures { result ≡ next_node_of (world self.now) from };

    /// How many tickets are out.
    fn out_count(&self) -> u64
        ensures { result ≡ length (world self.now).outs };

    /// The least node that has halted as a core node.
    fn core_halted(&self) -> Option<u32>
        ensures { IsLeastHalted (network (world self.now).net) (home (world self.now)) result };

    /// Whether the run has ended.
    fn ended(&self) -> bool
        ensures { IsTrue result ↔ HasEnded (world self.now).net.graph (home (world self.now)) };
}

impl Desk for Shop {
    ghost world = { λ s. s.world };

    ghost told = { λ s. s.told };

    fn check_out(&mut self, alloc: Global, event: Event) -> Result<Ticket, OutFault> {
        self.world.check_out(alloc, event)
    }

    fn commit(&mut self, alloc: Global, step: Step) -> Result<Committed, (Step, CommitFault)> {
        let _ = pair_of(&self.world);
        match self.world.commit(alloc, step) {
            Ok(committed) => {
                // A node that has halted stays so, and an ended run ended: the new pair is no less.
                let pair = pair_of(&self.world);
                self.publisher.publish(pair.commits, pair.halted);
                Ok(committed)
            }
            Err(refused) => Err(refused),
        }
    }

    fn give_back(&mut self, ticket: Ticket) -> Result<(), (Ticket, BackFault)> {
        self.world.give_back(ticket)
    }

    fn next_event(&self, v: u32, from: u32) -> Option<Event> {
        self.world.next_event(v, from)
    }

    fn next_node(&self, from: u32) -> Option<u32> {
        self.world.next_node(from)
    }

    fn out_count(&self) -> u64 {
        self.world.out_count()
    }

    fn core_halted(&self) -> Option<u32> {
        self.world.core_halted()
    }

    fn ended(&self) -> bool {
        self.world.ended()
    }
}
