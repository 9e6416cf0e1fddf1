//! Fragments of a graph, each with a level and a core, that unite over links in key order.
ghost use Rattle.std.specs.Prelude.{◌≡◌, ◌≤◌, ◌<◌, ◌+◌, ◌-◌, ◌^◌, ℕ, List, length, slice_index, get_or, None, IfOk};
ghost use Rattle.ghs_graph.specs.declared.key.Key.{Key};
ghost use Rattle.ghs_graph.specs.Key.{no_key};
ghost use Rattle.ghs_graph.specs.Links.{AreAmong, IsRising};
ghost use Rattle.ghs_report.specs.Fragments.{AreMerged, AreTrees, HasUnited, IsLeader};

use ghs_graph::key::Key;
use std::alloc::{AllocError, Global};

/// Fragments of the nodes of a graph: a node leads to one of a higher level, up to the one that leads to itself and has
/// the fragment's level and core. So a search for it takes as many steps as there are levels, log2 N at most.
#[derive(Debug, Drop)]
pub struct Fragments {
    pub parents: Vec<u32>,
    pub levels: Vec<u32>,
    pub cores: Vec<Option<Key>>,
}

impl Fragments {
    /// Each of the numbers up to `nodes` a fragment of its own, of level 0 and without a core.
    pub fn singles(alloc: Global, nodes: u32) -> Result<Fragments, AllocError>
        requires { nodes + 1 < 2 ^ 32 }
        ensures count { IfOk result (λ f. length f.parents.items ≡ nodes + 1) }
        ensures merged { IfOk result (λ f. (ks : List Key) → AreMerged ks 0 f.parents.items f.levels.items f.cores.items) }
    {
        let mut parents = Vec::with_capacity(alloc, nodes as usize + 1)?;
        let mut levels = Vec::with_capacity(alloc, nodes as usize + 1)?;
        let mut cores = Vec::with_capacity(alloc, nodes as usize + 1)?;
        for v in 0..nodes + 1 {
            parents.push(v)?;
            levels.push(0)?;
            cores.push(None)?;
        }
        Ok(Fragments {
            parents,
            levels,
            cores,
        })
    }

    /// The node to which a node leads, and which leads to itself.
    pub fn leader(&self, v: u32) -> u32
        requires node { v < length self.now.parents.items }
        requires trees { AreTrees (2 ^ 32 - 2) self.now.parents.items self.now.levels.items }
        ensures { IsLeader self.now.parents.items v result }
    {
        let mut at = v;
        while self.parents[at as usize] != at {
            at = self.parents[at as usize];
        }
        at
    }

    /// Takes the next link in key order: where it leads from one fragment to another they merge, or the one of the lower
    /// level is absorbed. No link with a smaller key leads out of either.
    pub fn take(&mut self, key: Key)
        requires a { key.a < length self.old.parents.items }
        requires b { key.b < length self.old.parents.items }
        requires trees { AreTrees (2 ^ 32 - 2) self.old.parents.items self.old.levels.items }
        requires cores { length self.old.cores.items ≡ length self.old.parents.items }
        ensures count { length self.new.parents.items ≡ length self.old.parents.items }
        ensures merged { (ks : List Key) (t : ℕ) → IsRising ks → t < length ks → get_or ks t no_key ≡ key → AreMerged ks t self.old.parents.items self.old.levels.items self.old.cores.items → AreMerged ks (t + 1) self.new.parents.items self.new.levels.items self.new.cores.items }
    {
        let a = self.leader(key.a);
        let b = self.leader(key.b);
        if a != b {
            self.unite(a, b, key);
        }
    }

    /// Unites the fragments of two nodes that lead to themselves.
    fn unite(&mut self, a: u32, b: u32, key: Key)
        requires a { a < length self.old.parents.items }
        requires b { b < length self.old.parents.items }
        requires levels { length self.old.levels.items ≡ length self.old.parents.items }
        requires cores { length self.old.cores.items ≡ length self.old.parents.items }
        requires top { slice_index self.old.levels.items a ≤ 2 ^ 32 - 2 }
        ensures { HasUnited self.old.parents.items self.old.levels.items self.old.cores.items self.new.parents.items self.new.levels.items self.new.cores.items a b key }
    {
        let of_a = self.levels[a as usize];
        let of_b = self.levels[b as usize];
        if of_a < of_b {
            self.parents[a as usize] = b;
        } else {
            self.parents[b as usize] = a;
            if of_a == of_b {
                self.levels[a as usize] = of_a + 1;
                self.cores[a as usize] = Some(key);
            }
        }
    }
}
