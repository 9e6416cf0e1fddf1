//! The fragments of a net, counted.
ghost use Rattle.std.specs.Prelude.{◌≡◌, ℕ, ◌+◌, ◌<◌, ◌^◌, filter, length, IfOk};
ghost use Rattle.ghs_core.specs.Census.{AreCounted, CountClasses, HaveRoots, has_nodes, level_in, with_one};

use ghs_node::node::Node;
use std::alloc::{AllocError, Global};

/// A fragment, counted.
#[derive(Clone, Copy, Debug, PartialEq, Eq)]
pub struct FragmentRow {
    /// The least of its nodes.
    pub least: u32,
    /// The greatest level of its nodes, 0 to 20.
    pub level: u8,
    /// How many nodes it has.
    pub nodes: u32,
}

impl FragmentRow {
    /// One node more, of this level.
    fn add(&mut self, level: u8)
        requires { self.old.nodes + 1 < 2 ^ 32 }
        ensures { self.new ≡ with_one self.old level }
    {
        self.level = self.level.max(level);
        self.nodes += 1;
    }
}

/// The rows of all classes of nodes, by the root of each.
pub fn count_classes(
    alloc: Global,
    roots: &[u32],
    nodes: &[Node],
) -> Result<Vec<FragmentRow>, AllocError>
    requires { HaveRoots roots.now nodes.now }
    ensures { IfOk result (λ rows. AreCounted roots.now (level_in nodes.now) rows.items) }
{
    let mut rows = no_nodes(alloc, roots)?;
    for v in 1..roots.len() {
        let root = roots[v] as usize;
        rows[root].add(nodes[v - 1].head().level.get());
    }
    keep_counted(&mut rows);
    Ok(rows)
}

/// A row without nodes at each place.
fn no_nodes(alloc: Global, roots: &[u32]) -> Result<Vec<FragmentRow>, AllocError>
    requires { length roots.now < 2 ^ 32 }
    ensures { IfOk result (λ rows. (level : ℕ → ℕ) → CountClasses roots.now level 1 rows.items) }
{
    let mut rows = Vec::with_capacity(alloc, roots.len())?;
    for least in 0..roots.len() as u32 {
        rows.push(FragmentRow {
            least,
            level: 0,
            nodes: 0,
        })?;
    }
    Ok(rows)
}

fn keep_counted(rows: &mut Vec<FragmentRow>)
    ensures { rows.new.items ≡ filter has_nodes rows.old.items }
{
    rows.retain(|row| row.nodes > 0);
}
