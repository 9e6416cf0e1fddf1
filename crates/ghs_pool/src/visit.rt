//! A worker's visit to the lock.
ghost use Rattle.std.specs.Prelude.{◌≡◌};

use crate::desk::Desk;
use crate::feed::Feed;
use crate::floor::{Floor, Start};
use crate::hand::Hand;
use crate::pace::{PAIR, crowd_of, part_of_look};
use std::alloc::Global;
use std::sync::Wait;

/// So many nodes and more that are ready are many.
const MANY: usize = 64;

/// What a worker does next.
#[derive(Drop)]
pub enum Next {
    /// It performs the tickets in its hand.
    Perform,
    /// It comes again at once.
    Again,
    /// It waits for what is out.
    Wait,
    /// It stays away, since others are at the lock.
    Leave,
    /// It ends.
    End,
}

impl<J: Start> Floor<J> {
    /// A worker's visit: the steps in its hand happen, and what it performs next goes out. Where the queue gave it nothing it
    /// looks over all nodes, and else where a look is due, or few numbers wait and looks haven't come to all nodes; or it
    /// leaves the lock to others.
    pub fn visit<R: Wait>(&mut self, rt: &R, alloc: Global, hand: &mut Hand<'_>) -> Next {
        hand.is_crowded = self.is_crowded(rt, &mut hand.feed);
        self.settle(rt, alloc, hand);
        let next = self.go_on(rt, alloc, hand);
        hand.seen = self.shop.events();
        next
    }

    /// What goes on behind the commits of a visit.
    fn go_on<R: Wait>(&mut self, rt: &R, alloc: Global, hand: &mut Hand<'_>) -> Next {
        if self.is_over() {
            return Next::End;
        }
        let waiting = hand.feed.len(rt);
        if self.come_or_leave(hand, waiting) {
            return Next::Leave;
        }
        let mut has_made = self.fill(rt, alloc, hand);
        let found_none = hand.tickets() == 0 && !has_made;
        if found_none || hand.pace.is_due() || self.has_few(waiting) {
            hand.pace.look();
            if self.look(rt, alloc, hand) {
                has_made = true;
            }
        }
        self.next(hand, has_made)
    }

    /// Whether few numbers wait, while nodes may be ready to which no look has come.
    fn has_few(&self, waiting: usize) -> bool {
        self.unlooked > 0 && waiting < part_of_look(self.notes.nodes())
    }

    /// Whether many nodes are ready: their numbers wait, or they are out.
    fn is_crowded<R: Wait>(&self, rt: &R, feed: &mut Feed<'_>) -> bool {
        self.shop.out_count().saturating_add(feed.len(rt) as u64) >= MANY as u64
    }

    /// A worker that was away is at work again, and one that has enough of it leaves, but for the last. Whether it leaves;
    /// and one more is called where too few are at work for the numbers that wait.
    fn come_or_leave(&mut self, hand: &mut Hand<'_>, waiting: usize) -> bool
        ensures { self.new ≡ self.old }
    {
        if hand.pace.come() {
            self.at_work = self.at_work.saturating_add(1);
        }
        let nodes = self.notes.nodes();
        let crowd = crowd_of(nodes);
        // a look may have put one ticket more into a full hand than a visit performs
        let leaves = hand.tickets() == 0
            && self.at_work > 1
            && hand
                .pace
                .has_enough(waiting, self.unlooked, nodes, self.workers);
        if leaves {
            self.at_work = self.at_work.saturating_sub(1);
            hand.pace.leave();
        }
        hand.calls = waiting >= crowd && self.at_work < self.workers.min(PAIR);
        hand.gives_way = waiting >= crowd && self.at_work > 1;
        leaves
    }

    /// What a worker does whose hand is as full as it gets, after a visit that has made events at once or none.
    fn next(&mut self, hand: &Hand<'_>, has_made: bool) -> Next
        ensures { self.new ≡ self.old }
    {
        if hand.tickets() > 0 {
            return Next::Perform;
        }
        if self.is_over() {
            return Next::End;
        }
        if !has_made && self.shop.out_count() > 0 {
            return Next::Wait;
        }
        Next::Again
    }
}
