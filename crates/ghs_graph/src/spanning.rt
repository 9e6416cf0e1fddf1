//! What the links of a graph join, and by which of them.
ghost use Rattle.std.specs.Prelude.{◌≡◌, ◌<◌, ◌≤◌, ◌+◌, ℕ, List, [], ◌∷◌, ◌++◌, length, map, IfOk};
ghost use Rattle.ghs_graph.specs.declared.key.Key.{Key};
ghost use Rattle.ghs_graph.specs.Key.{key_of};
ghost use Rattle.ghs_graph.specs.Links.{AllBelow, AreAmong, IsRising, IsTree};
ghost use Rattle.ghs_graph.specs.Spanning.{AreTold, IsSpanned};

use crate::key::Key;
use crate::triples::key_of;
use crate::union_find::Roots;
use ghs_gr::raw_graph::{NODE_LIMIT, RawGraph};
use std::alloc::{AllocError, Global};

/// The roots of the nodes that links join, and the links' minimum spanning forest. 0 is in a class of its own.
#[derive(Debug, Drop)]
pub struct Spanning {
    pub roots: Roots,
    pub tree: Vec<Key>,
}

impl Spanning {
    /// No links yet, and room for the forest of so many.
    fn fresh(alloc: Global, nodes: u32, links: usize) -> Result<Spanning, AllocError>
        requires { nodes ≤ NODE_LIMIT }
        ensures { IfOk result (λ s. IsSpanned nodes [] s.roots s.tree.items) }
    {
        let roots = Roots::fresh(alloc, nodes + 1)?;
        let tree = Vec::with_capacity(alloc, links.min(nodes as usize))?;
        Ok(Spanning { roots, tree })
    }

    /// One more link, whose key is above those of all before: the forest takes it if it joins two classes.
    #[inline]
    fn take(&mut self, key: Key) -> Result<(), AllocError>
        requires a { key.a < length self.old.roots }
        requires b { key.b < length self.old.roots }
        ensures { IfOk result (λ _. (n : ℕ) (ks : List Key) → AllBelow ks key → IsSpanned n ks self.old.roots self.old.tree.items → IsSpanned n (ks ++ key ∷ []) self.new.roots self.new.tree.items) }
    {
        if self.roots.join(key.a, key.b) {
            self.tree.push(key)?;
        }
        Ok(())
    }
}

/// Takes the links in key order, each into the forest that joins two classes.
pub fn span(alloc: Global, nodes: u32, keys: &[Key]) -> Result<Spanning, AllocError>
    requires rising { IsRising keys.now }
    requires among { AreAmong nodes keys.now }
    requires nodes { nodes ≤ NODE_LIMIT }
    ensures count { IfOk result (λ s. length s.roots ≡ nodes + 1) }
    ensures told { IfOk result (λ s. AreTold s.roots keys.now) }
    ensures tree { IfOk result (λ s. IsTree keys.now s.tree.items) }
{
    let mut spanning = Spanning::fresh(alloc, nodes, keys.len())?;
    for key in keys {
        spanning.take(*key)?;
    }
    Ok(spanning)
}

/// The same of the graph of a text, whose keys aren't copied.
pub fn span_raw(alloc: Global, raw: &RawGraph) -> Result<Spanning, AllocError>
    ensures { IfOk result (λ s. IsSpanned raw.now.nodes (map key_of raw.now.keys) s.roots s.tree.items) }
{
    let keys = raw.keys();
    let mut spanning = Spanning::fresh(alloc, raw.nodes(), keys.len())?;
    for triple in keys {
        spanning.take(key_of(*triple))?;
    }
    Ok(spanning)
}
