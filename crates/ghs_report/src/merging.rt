//! Merging the graph alone.
ghost use Rattle.std.specs.Prelude.{◌≡◌, ◌≤◌, ◌<◌, ◌+◌, ◌-◌, ◌^◌, ℕ, List, length, IfOk};
ghost use Rattle.ghs_graph.specs.Graph.{Shape};
ghost use Rattle.ghs_report.specs.Components.{AreAll, IsOfGraph};
ghost use Rattle.ghs_report.specs.Fragments.{AreMerged, AreTrees};

use crate::component::Component;
use crate::fragments::Fragments;
use ghs_graph::graph::Graph;
use std::alloc::{AllocError, Global};

/// The components of a graph, by rising least node, each with the core and the level to which merging leads in whatever
/// order: those with which every run ends. It takes O(N + E log N) steps.
///
/// ```text
/// let components = components_of(alloc, &graph)?;
/// // of the path of five in docs/class/LESSON.md: one, of root 1 and level 2, whose core is the link 3-4 of weight 4
/// ```
pub fn components_of(alloc: Global, graph: &Graph) -> Result<Vec<Component>, AllocError>
    ensures { IfOk result (λ cs. AreAll graph.now (IsOfGraph graph.now) cs.items) }
{
    let fragments = merged(alloc, graph)?;
    let mut components = Vec::new(alloc);
    for v in 1..graph.nodes() + 1 {
        if graph.root(v) == v {
            components.push(component(&fragments, v))?;
        }
    }
    Ok(components)
}

/// The fragments when all links are taken.
fn merged(alloc: Global, graph: &Graph) -> Result<Fragments, AllocError>
    ensures count { IfOk result (λ f. length f.parents.items ≡ graph.now.nodes + 1) }
    ensures trees { IfOk result (λ f. AreTrees (2 ^ 32 - 2) f.parents.items f.levels.items) }
    ensures merged { IfOk result (λ f. AreMerged graph.now.keys (length graph.now.keys) f.parents.items f.levels.items f.cores.items) }
{
    let mut fragments = Fragments::singles(alloc, graph.nodes())?;
    for key in graph.keys() {
        fragments.take(*key);
    }
    Ok(fragments)
}

/// The component of its least node.
fn component(fragments: &Fragments, root: u32) -> Component
    requires node { root < length fragments.now.parents.items }
    requires trees { AreTrees (2 ^ 32 - 2) fragments.now.parents.items fragments.now.levels.items }
    requires cores { length fragments.now.cores.items ≡ length fragments.now.parents.items }
    ensures root { result.root ≡ root }
    ensures core { (g : Shape) → AreMerged g.keys (length g.keys) fragments.now.parents.items fragments.now.levels.items fragments.now.cores.items → IsOfGraph g result }
{
    let leader = fragments.leader(root) as usize;
    Component {
        root,
        level: fragments.levels[leader],
        link: fragments.cores[leader],
    }
}
