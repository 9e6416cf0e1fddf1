//! Rows of flags whose raised ones are quickly found.
//!
//! A flag takes a bit, and a sixteenth of a bit for what counts it. To find a flag by its rank, or the first from a
//! place on, and to count those before a place takes 4 passes over at most 16 counts each (the last over one count for
//! 2 million flags), and one over at most 9 words; to change a flag takes 6 writes.
ghost use Rattle.std.specs.Prelude.{◌≡◌, ◌*◌, ◌<◌, ◌≤◌, false, length, take, replicate, slice_set, IfOk};
ghost use Rattle.ghs_flags.specs.Flags.{IsKth, IsFirstFrom, at, count};

use crate::counts::Counts;
use crate::row::Row;
use std::alloc::{AllocError, Global};
use std::marker::Model;

/// How many flags a row has at most.
pub const FLAG_LIMIT: usize = 2_147_483_648;

/// How many flags one count is of.
const BLOCK: usize = 512;

/// A row of flags, numbered from 0.
#[derive(Debug, Drop)]
pub struct Flags {
    row: Row,
    /// How many are raised in each block.
    blocks: Counts,
}

impl Model for Flags {
    ghost use Rattle.std.specs.Prelude.{List, Bool};
    ghost use Rattle.ghs_flags.specs.Flags.{IsCounted};

    ghost Value = { List Bool };

    ghost view = { λ f. f.row };

    ghost invariant = { λ f. IsCounted f.row f.blocks };
}

impl Flags {
    /// So many flags, none of them raised. At most `FLAG_LIMIT`; O(len).
    ///
    /// ```text
    /// let mut flags = Flags::lowered(alloc, 2000)?;
    /// for place in [0, 63, 64, 511, 512, 1500, 1999] {
    ///     flags.set(place, true);
    /// }
    /// // flags.count() is 7, flags.kth(3) is 511, flags.count_before(511) is 3
    /// ```
    pub fn lowered(alloc: Global, len: usize) -> Result<Flags, AllocError>
        requires { len ≤ FLAG_LIMIT }
        ensures { IfOk result (λ f. f ≡ replicate len false) }
    {
        let row = Row::lowered(alloc, len)?;
        let blocks = Counts::zeros(alloc, len / BLOCK + 1)?;
        Ok(Flags { row, blocks })
    }

    /// How many flags there are. O(1).
    pub fn len(&self) -> usize
        ensures { result ≡ length self.now }
    {
        self.row.len()
    }

    /// How many flags are raised. O(1).
    pub fn count(&self) -> u32
        ensures { result ≡ count self.now }
    {
        self.blocks.total()
    }

    /// Whether the flag at a place is raised. O(1).
    pub fn is_raised(&self, place: usize) -> bool
        requires { place < length self.now }
        ensures { result ≡ at self.now place }
    {
        self.row.is_raised(place)
    }

    /// Raises or lowers the flag at a place. O(1), and takes no memory.
    pub fn set(&mut self, place: usize, raised: bool)
        requires { place < length self.old }
        ensures { self.new ≡ slice_set self.old place raised }
    {
        if self.row.is_raised(place) != raised {
            self.row.turn(place);
            if raised {
                self.blocks.increase(place / BLOCK);
            } else {
                self.blocks.decrease(place / BLOCK);
            }
        }
    }

    /// The place of the raised flag before which `k` are raised; `k` is below `count()`.
    pub fn kth(&self, k: u32) -> usize
        requires { k < count self.now }
        ensures within { result < length self.now }
        ensures kth { IsKth self.now k result }
    {
        let (block, rest) = self.blocks.find(k);
        self.row.find_from(block * BLOCK, rest)
    }

    /// How many flags before a place are raised. The place may be the end of the row.
    pub fn count_before(&self, place: usize) -> u32
        requires { place ≤ length self.now }
        ensures { result ≡ count (take place self.now) }
    {
        let block = place / BLOCK;
        self.blocks.sum_before(block) + self.row.count_between(block * BLOCK, place)
    }

    /// The place of the first raised flag at a place or behind it, if one is raised there.
    pub fn first_from(&self, place: usize) -> Option<usize>
        requires { place ≤ length self.now }
        ensures { IsFirstFrom self.now place (length self.now) result }
    {
        self.first_from_to(place, self.len())
    }

    /// The place of the first raised flag from a place up to another, which isn't looked at.
    pub fn first_from_to(&self, place: usize, end: usize) -> Option<usize>
        requires order { place ≤ end }
        requires within { end ≤ length self.now }
        ensures { IsFirstFrom self.now place end result }
    {
        let next = place / BLOCK + 1;
        if end / BLOCK < next {
            return self.row.first_between(place, end);
        }
        match self.row.first_between(place, next * BLOCK) {
            Some(found) => Some(found),
            None => self.first_from_block(next, end),
        }
    }

    /// The same, from where a block begins.
    fn first_from_block(&self, block: usize, end: usize) -> Option<usize>
        requires order { block * BLOCK ≤ end }
        requires within { end ≤ length self.now }
        ensures { IsFirstFrom self.now (block * BLOCK) end result }
    {
        let before = self.blocks.sum_before(block);
        if before == self.count() {
            return None;
        }
        let found = self.kth(before);
        if found < end { Some(found) } else { None }
    }
}
