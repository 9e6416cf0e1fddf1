//! Rows of numbers whose greatest is quickly found.
//!
//! A number takes 16 bytes: above the row stands a tree with the greatest of each pair, of each pair of these, and so on.
ghost use Rattle.std.specs.Prelude.{◌≡◌, ◌*◌, ◌/◌, ◌<◌, ◌≤◌, length, drop, replicate, slice_index, slice_set, IfOk, MatchOption};
ghost use Rattle.ghs_maxima.specs.Maxima.{AreZeros, IsGreatest};
ghost use Rattle.ghs_maxima.specs.Tree.{AreTopsBut};

use std::alloc::{AllocError, Global};
use std::marker::Model;

/// A row of numbers, numbered from 0.
#[derive(Debug, Drop)]
pub struct Maxima {
    len: usize,
    /// The row stands from place `len` on. Place k before it has the greater of what places 2 k and 2 k + 1 have; place 0
    /// is free.
    tree: Vec<u64>,
}

impl Model for Maxima {
    ghost use Rattle.std.specs.Prelude.{List, ℕ, drop};
    ghost use Rattle.ghs_maxima.specs.Tree.{IsTree};

    ghost Value = { List ℕ };

    ghost view = { λ m. drop m.len m.tree.items };

    ghost invariant = { λ m. IsTree m.len m.tree.items };
}

impl Maxima {
    /// So many numbers, each of them 0. More than half of `usize::MAX` are refused as out of memory. O(len).
    ///
    /// ```text
    /// let mut row = Maxima::zeros(alloc, 3)?;                   // row.greatest() is None
    /// row.set(1, 5);
    /// row.set(2, 4);
    /// // row.greatest() is Some(1), and row.get(1) is 5
    /// ```
    pub fn zeros(alloc: Global, len: usize) -> Result<Maxima, AllocError>
        ensures { IfOk result (λ m. m ≡ replicate len 0) }
    {
        let Some(places) = len.checked_mul(2) else {
            return Err(AllocError);
        };
        let tree = vec![in alloc; 0u64; places]?;
        Ok(Maxima { len, tree })
    }

    /// The number at a place. O(1).
    pub fn get(&self, at: usize) -> u64
        requires { at < length self.now }
        ensures { result ≡ slice_index self.now at }
    {
        self.tree[self.len + at]
    }

    /// Sets the number at a place. O(log len), and takes no memory.
    pub fn set(&mut self, at: usize, number: u64)
        requires { at < length self.old }
        ensures { self.new ≡ slice_set self.old at number }
    {
        let leaf = self.len + at;
        self.tree[leaf] = number;
        mend_above(&mut self.tree, self.len, leaf);
    }

    /// A place whose number is above 0 and no less than any other, where a number is above 0. Which of several such
    /// places it is, isn't said. O(log len).
    pub fn greatest(&self) -> Option<usize>
        ensures { MatchOption result (AreZeros self.now) (IsGreatest self.now) }
    {
        if self.len == 0 || self.tree[1] == 0 {
            return None;
        }
        Some(greatest_leaf(&self.tree, self.len) - self.len)
    }
}

/// Once the number at a leaf has changed: sets what stands above it.
fn mend_above(tree: &mut [u64], len: usize, leaf: usize)
    requires many { length tree.old ≡ 2 * len }
    requires within { leaf < 2 * len }
    requires tops { AreTopsBut len (leaf / 2) tree.old }
    ensures tops { AreTopsBut len 0 tree.new }
    ensures row { drop len tree.new ≡ drop len tree.old }
{
    let mut place = leaf;
    while place > 1 {
        place /= 2;
        tree[place] = tree[2 * place].max(tree[2 * place + 1]);
    }
}

/// A leaf that has what stands at the top.
fn greatest_leaf(tree: &[u64], len: usize) -> usize
    requires many { length tree.now ≡ 2 * len }
    requires some { 0 < len }
    requires tops { AreTopsBut len 0 tree.now }
    ensures order { len ≤ result }
    ensures within { result < 2 * len }
    ensures same { slice_index tree.now result ≡ slice_index tree.now 1 }
{
    let mut place = 1;
    while place < len {
        let left = 2 * place;
        place = if tree[left] < tree[left + 1] {
            left + 1
        } else {
            left
        };
    }
    place
}
