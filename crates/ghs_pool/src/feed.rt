//! What feeds a worker.
ghost use Rattle.std.specs.Prelude.{◌≡◌, ◌≤◌, ◌-◌};

use ghs_shared::queue::{ReadyPass, ReadyQueue};
use std::alloc::{AllocError, Global};
use std::sync::Wait;

/// The ready queue, and a pass to it.
#[derive(Drop)]
pub struct Feed<'q> {
    queue: &'q ReadyQueue,
    pass: ReadyPass,
    ghost same: { pass.name ≡ queue.now.name },
}

impl<'q> Feed<'q> {
    pub fn new(queue: &'q ReadyQueue, pass: ReadyPass) -> Feed<'q>
        requires { pass.name ≡ queue.now.name }
        ensures { result.pass ≡ pass }
    {
        Feed { queue, pass }
    }

    /// How many shares of the queue the pass has.
    pub fn shares(&self) -> u32
        ensures { result ≡ self.now.pass.shares }
    {
        self.pass.shares()
    }

    /// One of the shares, for another worker.
    pub fn split(&mut self, alloc: Global) -> Result<Feed<'q>, AllocError>
        requires { 2 ≤ self.old.pass.shares }
        ensures { self.new.pass.shares ≡ self.old.pass.shares - 1 }
    {
        let queue = self.queue;
        let pass = queue.split(alloc, &mut self.pass)?;
        Ok(Feed { queue, pass })
    }

    /// How many numbers wait.
    pub fn len<R: Wait>(&mut self, rt: &R) -> usize {
        let queue = self.queue;
        queue.len(rt, &mut self.pass)
    }

    /// The number that has waited the longest.
    pub fn take<R: Wait>(&mut self, rt: &R) -> Option<u32> {
        let queue = self.queue;
        queue.take(rt, &mut self.pass)
    }

    /// One number more, and whether there was room for it.
    fn put_one<R: Wait>(&mut self, rt: &R, v: u32) -> bool {
        let queue = self.queue;
        queue.put(rt, &mut self.pass, v).is_ok()
    }

    /// Numbers more, each behind the one before; those for which there is no room are left out. Whether there was room for
    /// all.
    pub fn put<R: Wait>(&mut self, rt: &R, numbers: &[u32]) -> bool {
        let mut had_room = true;
        for v in numbers {
            had_room = self.put_one(rt, *v) && had_room;
        }
        had_room
    }
}
