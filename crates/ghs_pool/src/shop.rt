//! The world that workers share, with the publisher that tells of it.
ghost use Rattle.std.specs.Prelude.{◌≡◌, ◌≤◌, ◌^◌, ◌&&◌, true, IfOk, IfErr, OnOk, OnErr};
ghost use Rattle.ghs_graph.specs.Graph.{IsGraph};
ghost use Rattle.ghs_protocol.specs.Run.{IsRun};
ghost use Rattle.ghs_core.specs.NetState.{network};
ghost use Rattle.ghs_shared.specs.Progress.{StartsWith};
ghost use Rattle.ghs_world.specs.Ready.{is_ready};
ghost use Rattle.ghs_world.specs.Steps.{Makes, HasRoused, IsSameWorld};
ghost use Rattle.ghs_world.specs.WorldState.{has_turn};
ghost use Rattle.peer_index.specs.Places.{has_place};
ghost use Rattle.ghs_pool.specs.Shop.{IsPairOf, IsTold, Publishes};

use crate::moves::{at_once_per_ticket, is_worth_it};
use ghs_shared::board::{Board, Publisher, Reader};
use ghs_shared::progress::Progress;
use ghs_world::woken::Woken;
use ghs_world::world::World;
use peer_network::event::Event;
use std::alloc::{AllocError, Global};
use std::marker::Model;

/// A world, and the publisher whose last pair is that world's. It is what lies under the lock.
#[derive(Drop)]
pub struct Shop {
    pub(crate) world: World,
    pub(crate) publisher: Publisher,
}

impl Model for Shop {
    ghost use Rattle.ghs_pool.specs.Shop.{ShopState, IsTold};

    ghost Value = { ShopState };

    ghost view = { λ s. record { world = s.world; told = s.publisher } };

    ghost invariant = { λ s. IsTold s.world s.publisher };
}

/// The pair of a world: how many commits there are, at most 2^40, and whether its run has ended.
pub fn pair_of(world: &World) -> Progress
    ensures pair { IsPairOf world.now.net result }
    ensures few { result.commits ≤ 2 ^ 40 }
    ensures graph { IsGraph world.now.net.graph }
    ensures run { IsRun (network world.now.net) world.now.net.trace }
{
    let _ = world.turns();
    let net = world.net();
    let _ = net.trace();
    Progress {
        commits: net.events(),
        halted: world.ended(),
    }
}

impl Shop {
    /// A world and the publisher that tells of it. Both come back exactly where the last pair published isn't the
    /// world's.
    pub fn open(world: World, publisher: Publisher) -> Result<Shop, (World, Publisher)>
        ensures ok { IfOk result (λ s. (s.world ≡ world) × (s.told ≡ publisher)) }
        ensures told { IfOk result (λ _. IsTold world publisher) }
        ensures err { IfErr result (λ e. (e.0 ≡ world) × (e.1 ≡ publisher)) }
        ensures untold { IfErr result (λ _. IsTold world publisher → ⊥) }
    {
        let last = publisher.last();
        let Progress { commits, halted } = pair_of(&world);
        if last.commits == commits {
            if last.halted == halted {
                return Ok(Shop { world, publisher });
            }
            return Err((world, publisher));
        }
        Err((world, publisher))
    }

    /// What a reader of the publisher's board finds while the shop is lent: exactly the world's pair. It had seen none
    /// beyond it. Never refused.
    pub fn tell(
        &mut self,
        alloc: Global,
        board: &Board,
        reader: &mut Reader,
    ) -> Result<Progress, AllocError>
        requires reader { reader.old.table ≡ board.now }
        requires board { self.old.told.table ≡ board.now }
        ensures pair { IfOk result (λ p. IsPairOf self.old.world.net p) }
        ensures same { self.new ≡ self.old }
        ensures seen { StartsWith self.old.told.list reader.old.seen }
        ensures reader { (reader.new.table ≡ reader.old.table) × (reader.new.seen ≡ self.old.told.list) }
    {
        board.read_beside(alloc, reader, &mut self.publisher)
    }

    /// The world, to be looked at: whatever a world says of itself can be asked while the shop is lent.
    pub fn world(&self) -> &World
        ensures world { result.now ≡ self.now.world }
        ensures told { IsTold result.now self.now.told }
    {
        &self.world
    }

    /// How many events there were.
    pub(crate) fn events(&self) -> u64 {
        self.world.net().events()
    }

    /// Whether an event of the world is worth a ticket.
    pub(crate) fn is_worth_it(&self, event: Event) -> bool {
        is_worth_it(&self.world, event)
    }

    /// How many events a node makes at once for each that goes out on a ticket.
    pub(crate) fn at_once_per_ticket(&self, v: u32) -> u32 {
        at_once_per_ticket(&self.world, v)
    }

    /// Whether an event names a node and port of the world's graph and may be made now, turns and memory aside.
    pub(crate) fn is_ready(&self, event: Event) -> bool
        ensures { result ≡ has_place (network self.now.world.net) event && is_ready self.now.world event }
    {
        self.world.has_place(event) && self.world.is_ready(event)
    }

    /// Whether there are turns and a number for one event more.
    pub(crate) fn has_turn(&self) -> bool
        ensures { result ≡ has_turn self.now.world }
    {
        self.world.has_turn()
    }

    /// An event happens at once, without a ticket, and then the new pair is published. The nodes that it has roused come
    /// back, as from a commit. Where memory runs out nothing is published.
    pub(crate) fn make(&mut self, alloc: Global, event: Event) -> Result<Woken, AllocError>
        requires ready { is_ready self.old.world event ≡ true }
        requires turn { has_turn self.old.world ≡ true }
        ensures made { OnOk result (Makes self.old.world event self.new.world) }
        ensures woken { IfOk result (λ us. HasRoused self.old.world event self.new.world us) }
        ensures published { OnOk result (Publishes self.old.told self.new.told self.new.world) }
        ensures err { OnErr result (IsSameWorld self.old.world self.new.world) }
        ensures unpublished { OnErr result (self.new.told ≡ self.old.told) }
    {
        let _ = pair_of(&self.world);
        let answer = self.world.answer(alloc, event)?;
        match self.world.make_rousing(alloc, event, &answer) {
            Ok(woken) => {
                let pair = pair_of(&self.world);
                self.publisher.publish(pair.commits, pair.halted);
                Ok(woken)
            }
            Err(error) => Err(error),
        }
    }

    /// The world and its publisher, when the shop is done with.
    pub fn close(self) -> (World, Publisher)
        ensures world { result.0 ≡ self.world }
        ensures publisher { result.1 ≡ self.told }
        ensures told { IsTold result.0 result.1 }
    {
        let Shop { world, publisher } = self;
        (world, publisher)
    }
}
