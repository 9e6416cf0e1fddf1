//! The steps of a worker's hand happen.
ghost use Rattle.ghs_pool.specs.Follows.{GoesOn};

use crate::desk::Desk;
use crate::floor::{Floor, Start};
use crate::hand::{Hand, MOST};
use ghs_world::fault::CommitFault;
use ghs_world::ticket::Step;
use ghs_world::woken::Woken;
use std::alloc::Global;
use std::sync::Wait;

impl<J: Start> Floor<J> {
    /// The steps of a hand happen, and are published; the numbers of the nodes that they wake go into the queue.
    pub fn settle<R: Wait>(&mut self, rt: &R, alloc: Global, hand: &mut Hand<'_>) {
        let is_beside = self.shop.events() != hand.seen;
        for _ in 0..MOST {
            let Some(step) = hand.next_step() else {
                return;
            };
            if let Some(woken) = self.commit(alloc, step) {
                hand.count_committed(is_beside);
                self.put(rt, &mut hand.feed, woken.as_slice());
            }
        }
    }

    /// A step's event happens, and is published; the nodes that it wakes. After a refusal the workers are to end.
    fn commit(&mut self, alloc: Global, step: Step) -> Option<Woken>
        ensures { GoesOn self.new self.old }
    {
        match self.shop.commit(alloc, step) {
            Ok(committed) => Some(committed.woken),
            Err((_, fault)) => {
                self.lacks.memory = self.lacks.memory || fault == CommitFault::Memory;
                self.stopped = true;
                None
            }
        }
    }
}
