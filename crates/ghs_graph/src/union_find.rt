//! Classes of numbers, by union-find: each number leads up to the root of its class, which is the least number of it.
ghost use Rattle.std.specs.Prelude.{◌≡◌, ◌≢◌, ◌↔◌, ◌<◌, length, slice_index, IfOk, IsTrue};
ghost use Rattle.ghs_graph.specs.Classes.{AreLeast, IsFresh, LeadDown, Unites, root_of, roots_of};

use std::alloc::{AllocError, Global};
use std::marker::Model;

/// The classes of the numbers below a limit. Each class has a root, which is its least number. Calls take O(log N) steps
/// each on the average, and in practice few.
#[derive(Debug, Drop)]
pub struct Roots {
    /// A number leads to a lesser one of its class, and a root to itself.
    up: Vec<u32>,
}

impl Model for Roots {
    ghost use Rattle.std.specs.Prelude.{List, ℕ};
    ghost use Rattle.ghs_graph.specs.Classes.{LeadDown, roots_of};

    ghost Value = { List ℕ };

    ghost view = { λ r. roots_of r.up.items };

    ghost invariant = { λ r. LeadDown r.up.items };
}

impl Roots {
    /// Each number below `count` alone.
    pub fn fresh(alloc: Global, count: u32) -> Result<Roots, AllocError>
        ensures count { IfOk result (λ r. length r ≡ count) }
        ensures alone { IfOk result IsFresh }
    {
        let mut up = Vec::with_capacity(alloc, count as usize)?;
        for x in 0..count {
            up.push(x)?;
        }
        Ok(Roots { up })
    }

    /// The root of a number. The way there becomes shorter by it, and that is all that changes.
    pub fn root(&mut self, x: u32) -> u32
        requires { x < length self.old }
        ensures root { result ≡ slice_index self.old x }
        ensures same { self.new ≡ self.old }
    {
        climb(&mut self.up, x)
    }

    /// Makes the classes of two numbers one, and says whether they were two. The lesser root stays.
    pub fn join(&mut self, u: u32, v: u32) -> bool
        requires u { u < length self.old }
        requires v { v < length self.old }
        ensures apart { IsTrue result ↔ slice_index self.old u ≢ slice_index self.old v }
        ensures unites { Unites self.old self.new u v }
    {
        let of_u = self.root(u);
        let of_v = self.root(v);
        if of_u == of_v {
            return false;
        }
        self.up[of_u.max(of_v) as usize] = of_u.min(of_v);
        true
    }

    /// The root of each number, at its place.
    pub fn settled(self) -> Vec<u32>
        ensures roots { result.items ≡ self }
        ensures least { AreLeast self }
    {
        let mut up = self.up;
        settle(&mut up);
        up
    }
}

/// The root of a number. It goes two steps at a time, and lets each number that it comes by lead two steps up from then on,
/// which changes no root.
fn climb(up: &mut Vec<u32>, x: u32) -> u32
    requires down { LeadDown up.old.items }
    requires x { x < length up.old.items }
    ensures down { LeadDown up.new.items }
    ensures roots { roots_of up.new.items ≡ roots_of up.old.items }
    ensures root { result ≡ root_of up.old.items x }
{
    let mut at = x;
    let mut above = up[at as usize];
    while above != at {
        let next = up[above as usize];
        up[at as usize] = next;
        at = next;
        above = up[at as usize];
    }
    at
}

/// Lets each number lead to its root at once. What it led to, unless that is itself, comes before it and leads there already.
fn settle(up: &mut Vec<u32>)
    requires { LeadDown up.old.items }
    ensures { up.new.items ≡ roots_of up.old.items }
{
    for x in 0..up.len() {
        up[x] = up[up[x] as usize];
    }
}
