//! The queue and its passes.
ghost use Rattle.std.specs.Prelude.{◌≡◌, ◌+◌, ◌-◌, ◌<◌, ◌≤◌, ◌^◌, [], ◌∷◌, ◌++◌, length, Ok, IfOk, IfErr, IfSome, IfNone, vec_capacity};
ghost use Rattle.crossbeam_queue.specs.Passes.{view, IsPassOf};
ghost use Rattle.ghs_shared.specs.Bags.{opener};
ghost use Rattle.ghs_shared.specs.Closing.{Closes, Refuses};

use crate::pass_view::PassView;
use crate::queue_rule::{Begin, Cut, Fair, Puts, Takes, Twice, TwiceAndOne};
use crossbeam_queue::{Pass, RuledArrayQueue};
use std::alloc::{AllocError, Global};
use std::marker::Model;
use std::sync::Wait;

type Inner = RuledArrayQueue<u32, PassView, Fair>;

/// A queue of at most so many numbers, first in first out. A contract sees its name, with the number of its shares, and
/// its capacity.
#[derive(Drop)]
pub struct ReadyQueue {
    inner: Inner,
    all: u32,
}

impl Model for ReadyQueue {
    ghost use Rattle.std.specs.Prelude.{◌≤◌};
    ghost use Rattle.crossbeam_queue.specs.Passes.{ruled_capacity};
    ghost use Rattle.ghs_shared.specs.Bags.{Line};

    ghost Value = { Line };

    ghost view = { λ q. record { name = record { table = q.inner.table.shared.table_id; all = q.all }; capacity = ruled_capacity q.inner } };

    ghost invariant = { λ q. 1 ≤ q.all };
}

/// Who puts and takes, with some of a queue's shares. A contract sees the queue's name, the shares, and the numbers that
/// were put and taken by this pass.
#[derive(Drop)]
pub struct ReadyPass {
    pass: Pass<u32, PassView>,
    shares: u32,
}

impl Model for ReadyPass {
    ghost use Rattle.std.specs.Prelude.{◌≡◌, ◌≤◌, [], false};
    ghost use Rattle.crossbeam_queue.specs.Passes.{view as known};
    ghost use Rattle.ghs_shared.specs.Bags.{Bags};

    ghost Value = { Bags };

    ghost view = { λ p. record { name = record { table = p.pass.table_id; all = (known p.pass).all }; shares = (known p.pass).shares; put = (known p.pass).put; taken = (known p.pass).taken } };

    ghost invariant = { λ p. (p.pass.me.1 ≡ []) × (p.shares ≡ (known p.pass).shares) × (1 ≤ p.shares) × ((known p.pass).opening ≡ false) };
}

/// The number that was handed back.
#[derive(Clone, Copy, Debug, Drop, PartialEq, Eq)]
pub struct Full(pub u32);

/// Why a queue isn't closed; the first that holds is answered.
#[derive(Clone, Copy, Debug, Drop, PartialEq, Eq)]
pub enum CloseFault {
    /// The pass doesn't hold all shares.
    PassMissing,
    Memory,
}

/// Counts `all` up to a number, in the first pass's view.
fn count_up(inner: &Inner, pass: &mut Pass<u32, PassView>, number: u32)
    requires { IsPassOf inner.now pass.old × (view pass.old ≡ opener 0) }
    ensures { IsPassOf inner.now pass.new × (view pass.new ≡ opener number) }
{
    if number == 0 {
        return;
    }
    count_up(inner, pass, number / 2);
    if number % 2 == 0 {
        inner.another::<Twice>(pass);
    } else {
        inner.another::<TwiceAndOne>(pass);
    }
}

impl ReadyQueue {
    /// An empty queue, and the pass with all of its shares. Room and shares are 1 at least.
    ///
    /// ```text
    /// let (queue, mut pass) = ReadyQueue::open(alloc, 2, 2)?;   // room for two numbers, and a pass with two shares
    /// let mut other = queue.split(alloc, &mut pass)?;           // one of them for another thread
    /// queue.put(rt, &mut pass, 3)?;                             // Full(3) comes back where there is no room
    /// let number = queue.take(rt, &mut other);                  // Some(3)
    /// queue.join(&mut pass, other);
    /// let left = queue.close(rt, alloc, pass)?;                 // nothing: what was put was taken
    /// ```
    pub fn open(
        alloc: Global,
        capacity: u32,
        shares: u32,
    ) -> Result<(ReadyQueue, ReadyPass), AllocError>
        requires { (1 ≤ capacity) × (1 ≤ shares) }
        ensures queue { IfOk result (λ r. (r.0.capacity ≡ capacity) × (r.0.name.all ≡ shares)) }
        ensures pass { IfOk result (λ r. r.1 ≡ record { name = r.0.name; shares = shares; put = []; taken = [] }) }
    {
        let (inner, mut pass) = Inner::ruled(alloc, capacity as usize)?;
        count_up(&inner, &mut pass, shares);
        inner.another::<Begin>(&mut pass);
        Ok((
            ReadyQueue { inner, all: shares },
            ReadyPass { pass, shares },
        ))
    }

    /// One share moves to a new pass, which has put and taken nothing. The pass is one of this queue, with 2 shares at
    /// least. Never refused.
    pub fn split(&self, _alloc: Global, pass: &mut ReadyPass) -> Result<ReadyPass, AllocError>
        requires queue { pass.old.name ≡ self.now.name }
        requires two { 2 ≤ pass.old.shares }
        ensures pass { pass.new ≡ record pass.old { shares = pass.old.shares - 1 } }
        ensures split { result ≡ Ok (record { name = self.now.name; shares = 1; put = []; taken = [] }) }
    {
        let cut = self.inner.another::<Cut>(&mut pass.pass);
        pass.shares -= 1;
        Ok(ReadyPass {
            pass: cut,
            shares: 1,
        })
    }

    /// Two passes of this queue become one: its shares and its bags are those of both.
    pub fn join(&self, pass: &mut ReadyPass, other: ReadyPass)
        requires first { pass.old.name ≡ self.now.name }
        requires second { other.name ≡ self.now.name }
        requires shares { pass.old.shares + other.shares < 2 ^ 32 }
        ensures shares { (pass.new.name ≡ pass.old.name) × (pass.new.shares ≡ pass.old.shares + other.shares) }
        ensures bags { (pass.new.put ≡ pass.old.put ++ other.put) × (pass.new.taken ≡ pass.old.taken ++ other.taken) }
    {
        let ReadyPass {
            pass: inner,
            shares,
        } = other;
        self.inner.absorb::<Cut>(&mut pass.pass, inner);
        pass.shares += shares;
    }

    /// Puts a number last, or hands it back. The pass is one of this queue. Where it has all shares the number is handed back
    /// only if the queue is full, as its own bags say; where it has fewer, no clause says why.
    pub fn put<R: Wait>(&self, rt: &R, pass: &mut ReadyPass, number: u32) -> Result<(), Full>
        requires { pass.old.name ≡ self.now.name }
        ensures ok { IfOk result (λ _. pass.new ≡ record pass.old { put = pass.old.put ++ number ∷ [] }) }
        ensures err { IfErr result (λ e. (e.0 ≡ number) × (pass.new ≡ pass.old)) }
        ensures full { IfErr result (λ _. pass.old.shares ≡ self.now.name.all → length pass.old.put ≡ length pass.old.taken + self.now.capacity) }
    {
        let Err(back) = self.inner.push_as::<Puts, R>(rt, &mut pass.pass, number) else {
            return Ok(());
        };
        Err(Full(back))
    }

    /// Takes the first number, or none. The pass is one of this queue. Where it has all shares there is none only if the
    /// queue is empty, as its own bags say; where it has fewer, no clause says why.
    pub fn take<R: Wait>(&self, rt: &R, pass: &mut ReadyPass) -> Option<u32>
        requires { pass.old.name ≡ self.now.name }
        ensures some { IfSome result (λ n. pass.new ≡ record pass.old { taken = pass.old.taken ++ n ∷ [] }) }
        ensures none { IfNone result (pass.new ≡ pass.old) }
        ensures empty { IfNone result (pass.old.shares ≡ self.now.name.all → length pass.old.put ≡ length pass.old.taken) }
    {
        let Some(number) = self.inner.pop_as::<Takes, R>(rt, &mut pass.pass) else {
            return None;
        };
        Some(number)
    }

    /// How many numbers wait, at one moment of the call. The pass is one of this queue. Where it has all shares its own
    /// bags say so many; where it has fewer, no clause says more than that they have room.
    pub fn len<R: Wait>(&self, rt: &R, pass: &mut ReadyPass) -> usize
        requires { pass.old.name ≡ self.now.name }
        ensures pass { pass.new ≡ pass.old }
        ensures few { result ≤ self.now.capacity }
        ensures all { pass.old.shares ≡ self.now.name.all → length pass.old.put ≡ length pass.old.taken + result }
    {
        self.inner.len_as::<Takes, R>(rt, &mut pass.pass)
    }

    /// What is left, the first first, for the pass with all shares; it is a pass of this queue. The room is taken before
    /// the first number is. A refusal hands queue and pass back.
    pub fn close<R: Wait>(
        self,
        rt: &R,
        alloc: Global,
        mut pass: ReadyPass,
    ) -> Result<Vec<u32>, (ReadyQueue, ReadyPass, CloseFault)>
        requires { pass.name ≡ self.name }
        ensures ok { IfOk result (λ rest. Closes self pass rest.items) }
        ensures fault { IfErr result (λ e. Refuses self pass e.2) }
        ensures back { IfErr result (λ e. (e.0 ≡ self) × (e.1 ≡ pass)) }
    {
        if pass.shares != self.all {
            return Err((self, pass, CloseFault::PassMissing));
        }
        let left = self.len(rt, &mut pass);
        let Ok(rest) = Vec::with_capacity(alloc, left) else {
            return Err((self, pass, CloseFault::Memory));
        };
        Ok(self.drain(rt, pass, rest))
    }

    /// The pass with all shares takes all that is left, for which there is room.
    fn drain<R: Wait>(&self, rt: &R, mut pass: ReadyPass, mut rest: Vec<u32>) -> Vec<u32>
        requires pass { (pass.name ≡ self.now.name) × (pass.shares ≡ self.now.name.all) }
        requires room { (rest.items ≡ []) × (length pass.put ≤ length pass.taken + vec_capacity rest) }
        ensures { Closes self.now pass result.items }
    {
        for _ in rt.forever() {
            let Some(number) = self.take_last(rt, &mut pass) else {
                return rest;
            };
            rest.push_reserved(number);
        }
        unreachable!()
    }

    /// The pass with all shares takes one of the numbers that are left.
    fn take_last<R: Wait>(&self, rt: &R, pass: &mut ReadyPass) -> Option<u32>
        requires { (pass.old.name ≡ self.now.name) × (pass.old.shares ≡ self.now.name.all) }
        ensures some { IfSome result (λ n. (pass.new ≡ record pass.old { taken = pass.old.taken ++ n ∷ [] }) × (length pass.old.taken < length pass.old.put)) }
        ensures none { IfNone result ((pass.new ≡ pass.old) × Closes self.now pass.old []) }
    {
        let Some(last) = self.inner.pop_as::<Takes, R>(rt, &mut pass.pass) else {
            return None;
        };
        Some(last)
    }
}

impl ReadyPass {
    /// How many shares the pass holds.
    pub fn shares(&self) -> u32
        ensures { result ≡ self.now.shares }
    {
        self.shares
    }
}
