//! Flags as the bits of words.
ghost use Rattle.std.specs.Prelude.{◌≡◌, ◌+◌, ◌*◌, ◌/◌, ◌%◌, ◌<◌, ◌≤◌, ◌^◌, false, not, length, take, replicate, slice_set, count_ones, IfOk};
ghost use Rattle.std.specs.List.{sum_by};
ghost use Rattle.ghs_flags.specs.First.{IsFirst};
ghost use Rattle.ghs_flags.specs.Flags.{IsKth, IsFirstFrom, at, count};
ghost use Rattle.ghs_flags.specs.Row.{IsNthFlag, flag_at, ones_of, rank};

use crate::flags::FLAG_LIMIT;
use crate::word::{first_bit, has_bit, nth_bit, ones_below, turned};
use std::alloc::{AllocError, Global};
use std::marker::Model;

/// How many flags a word has.
const BITS: usize = 64;

/// A row of flags. Flag p is bit p % 64 of word p / 64.
#[derive(Debug, Drop)]
pub struct Row {
    len: usize,
    words: Vec<u64>,
}

impl Model for Row {
    ghost use Rattle.std.specs.Prelude.{List, Bool};
    ghost use Rattle.ghs_flags.specs.Row.{IsRow, flags_of};

    ghost Value = { List Bool };

    ghost view = { λ r. flags_of r.words.items r.len };

    ghost invariant = { λ r. IsRow r.words.items r.len };
}

impl Row {
    /// So many flags, none of them raised.
    pub fn lowered(alloc: Global, len: usize) -> Result<Row, AllocError>
        requires { len ≤ FLAG_LIMIT }
        ensures { IfOk result (λ r. r ≡ replicate len false) }
    {
        let words = vec![in alloc; 0u64; len / BITS + 1]?;
        Ok(Row { len, words })
    }

    /// How many flags there are.
    pub fn len(&self) -> usize
        ensures { result ≡ length self.now }
    {
        self.len
    }

    /// Whether a flag is raised.
    pub fn is_raised(&self, place: usize) -> bool
        requires { place < length self.now }
        ensures { result ≡ at self.now place }
    {
        has_bit(self.words[place / BITS], (place % BITS) as u32)
    }

    /// Raises a flag that is lowered, and lowers one that is raised.
    pub fn turn(&mut self, place: usize)
        requires { place < length self.old }
        ensures { self.new ≡ slice_set self.old place (not (at self.old place)) }
    {
        let word = place / BITS;
        self.words[word] = turned(self.words[word], (place % BITS) as u32);
    }

    /// How many flags are raised from place `start`, where a word begins, up to place `end`.
    pub fn count_between(&self, start: usize, end: usize) -> u32
        requires word { start % 64 ≡ 0 }
        requires order { start ≤ end }
        requires within { end ≤ length self.now }
        ensures { count (take start self.now) + result ≡ count (take end self.now) }
    {
        count_from(&self.words, start / BITS, end)
    }

    /// The raised flag with `rest` raised ones between place `start`, where a word begins, and itself.
    pub fn find_from(&self, start: usize, rest: u32) -> usize
        requires word { start % 64 ≡ 0 }
        requires within { start ≤ length self.now }
        requires some { count (take start self.now) + rest < count self.now }
        ensures { IsKth self.now (count (take start self.now) + rest) result }
    {
        find_bit(&self.words, start / BITS, rest)
    }

    /// The first raised flag from place `start` up to place `end`.
    pub fn first_between(&self, start: usize, end: usize) -> Option<usize>
        requires { end ≤ length self.now }
        ensures { IsFirstFrom self.now start end result }
    {
        first_bit_between(&self.words, start, end)
    }
}

/// How many bits are set from word `start` up to the bit of a flag.
fn count_from(words: &[u64], start: usize, place: usize) -> u32
    requires order { start ≤ place / 64 }
    requires within { place < length words.now * 64 }
    requires few { length words.now * 64 < 2 ^ 32 }
    ensures { ones_of start words.now + result ≡ rank words.now place }
{
    let end = place / BITS;
    let mut total = ones_below(words[end], (place % BITS) as u32);
    for at in start..end {
        total += words[at].count_ones();
    }
    total
}

/// The set bit with `rest` set ones between word `start` and itself.
fn find_bit(words: &[u64], start: usize, mut rest: u32) -> usize
    requires few { length words.now * 64 < 2 ^ 32 }
    requires some { ones_of start words.now + rest < sum_by count_ones words.now }
    ensures { IsNthFlag words.now (ones_of start words.now + rest) result }
{
    let mut at = start;
    // No step asks whether the words end: the set bit comes before.
    while rest >= words[at].count_ones() {
        rest -= words[at].count_ones();
        at += 1;
    }
    at * BITS + nth_bit(words[at], rest) as usize
}

/// The first set bit from that of one flag up to that of another.
fn first_bit_between(words: &[u64], start: usize, end: usize) -> Option<usize>
    requires few { length words.now * 64 < 2 ^ 32 }
    requires within { end ≤ length words.now * 64 }
    ensures { IsFirst (flag_at words.now) start end result }
{
    let mut from = start;
    for at in start / BITS..end.div_ceil(BITS) {
        if let Some(bit) = first_bit(words[at], (from % BITS) as u32) {
            let place = at * BITS + bit as usize;
            return if place < end { Some(place) } else { None };
        }
        from = (at + 1) * BITS;
    }
    None
}
