//! What lies under the lock.
ghost use Rattle.std.specs.Prelude.{◌≡◌};
ghost use Rattle.ghs_pool.specs.Follows.{GoesOn};

use crate::desk::Desk;
use crate::feed::Feed;
use crate::notes::Notes;
use crate::shop::Shop;
use ghs_world::ticket::Ticket;
use std::marker::{Brand, Model, PhantomData};
use std::sync::Wait;

/// Where a run of workers began. Each run picks it, so that the lock's type names it: what a lock held at its last use is
/// known by its type alone.
pub trait Start {
    ghost use Rattle.ghs_pool.specs.Shop.{ShopState};

    ghost first: { ShopState };
}

impl Start for Brand {
    ghost use Rattle.ghs_pool.specs.Follows.{no_shop};

    ghost first = { no_shop };
}

/// What the workers of a run lacked, so that they had to end.
#[derive(Clone, Copy, Debug)]
pub struct Lacks {
    pub thread: bool,
    pub memory: bool,
}

/// A shop that goes on from where its run began, and what the workers share beside it. A worker visits it by `visit`, which
/// settles the steps of its hand (`settle.rt`) and fills it anew (`fill.rt`).
#[derive(Drop)]
pub struct Floor<J: Start> {
    pub shop: Shop,
    pub notes: Notes,
    /// How many workers there are.
    pub workers: u32,
    /// How many of them are at work: the others are away.
    pub at_work: u32,
    /// The node that the last look found.
    pub found: u32,
    /// How many nodes looks have still to come to: all at first, and again where a number found no room.
    pub unlooked: usize,
    /// Whether the workers are to end.
    pub stopped: bool,
    pub lacks: Lacks,
    of: PhantomData<J>,
}

impl<J: Start> Model for Floor<J> {
    ghost use Rattle.std.specs.Prelude.{◌≡◌};
    ghost use Rattle.ghs_pool.specs.Shop.{ShopState};
    ghost use Rattle.ghs_pool.specs.Follows.{GoesOn};

    ghost Value = { ShopState };

    ghost view = { λ f. f.shop };

    ghost invariant = { λ f. GoesOn f.shop J.first × (f.notes ≡ f.shop.world.net.graph.nodes) };
}

impl<J: Start> Floor<J> {
    pub fn new(shop: Shop, notes: Notes, workers: u32) -> Floor<J>
        requires goes_on { GoesOn shop J.first }
        requires notes { notes ≡ shop.world.net.graph.nodes }
        ensures { result ≡ shop }
    {
        let unlooked = notes.nodes();
        Floor {
            shop,
            notes,
            workers,
            at_work: workers,
            found: 0,
            unlooked,
            stopped: false,
            lacks: Lacks {
                thread: false,
                memory: false,
            },
            of: PhantomData,
        }
    }

    /// The shop, and what the workers lacked.
    pub fn close(self) -> (Shop, Lacks)
        ensures shop { result.0 ≡ self }
        ensures goes_on { GoesOn result.0 J.first }
    {
        let Floor { shop, lacks, .. } = self;
        (shop, lacks)
    }

    /// Whether the workers are to end.
    pub fn is_over(&self) -> bool {
        self.stopped || self.shop.ended()
    }

    /// The workers are to end where nothing is out; else they go on with what comes back.
    pub fn stop_if_home(&mut self)
        ensures { self.new ≡ self.old }
    {
        self.stopped = self.stopped || self.shop.out_count() == 0;
    }

    /// The workers are to end, since a thread couldn't be started.
    pub fn lack_thread(&mut self)
        ensures { self.new ≡ self.old }
    {
        self.lacks.thread = true;
        self.stopped = true;
    }

    /// The workers are to end, since memory has run out.
    pub fn lack_memory(&mut self)
        ensures { self.new ≡ self.old }
    {
        self.lacks.memory = true;
        self.stopped = true;
    }

    /// A ticket comes back since memory has run out, and the workers are to end.
    pub fn give_back(&mut self, ticket: Ticket)
        ensures net { self.new.world.net ≡ self.old.world.net }
        ensures told { self.new.told ≡ self.old.told }
    {
        let _ = self.shop.give_back(ticket);
        self.lack_memory();
    }

    /// Numbers of nodes go into the queue. One for which there is no room is left out: looks will come to its node.
    pub fn put<R: Wait>(&mut self, rt: &R, feed: &mut Feed<'_>, nodes: &[u32])
        ensures { self.new ≡ self.old }
    {
        if !feed.put(rt, nodes) {
            self.unlooked = self.notes.nodes();
        }
    }
}
