//! Which nodes have halted as core nodes.
ghost use Rattle.std.specs.Prelude.{◌≡◌, ℕ, ◌≤◌, ◌==◌, Bool, IfOk};
ghost use Rattle.ghs_core.specs.Halts.{AreHalts, AreHaltsOfSome, none_halted, also, with_node, lesser};

use ghs_graph::graph::Graph;
use std::alloc::{AllocError, Global};

/// The least node that has halted, and which components of a graph have such a node.
#[derive(Debug, Drop)]
pub struct Halts {
    least: Option<u32>,
    /// Whether a node of a component has halted, at the number of the component's root.
    ended: Vec<bool>,
    /// Of how many components no node has halted.
    running: u32,
}

impl Halts {
    /// No node has halted.
    pub fn none(alloc: Global, graph: &Graph) -> Result<Halts, AllocError>
        ensures { IfOk result (AreHalts graph.now none_halted) }
    {
        let places = graph.nodes() as usize + 1;
        Ok(Halts {
            least: None,
            ended: vec![in alloc; false; places]?,
            running: graph.components(),
        })
    }

    /// Node `v` has halted.
    fn add(&mut self, graph: &Graph, v: u32)
        requires low { 1 ≤ v }
        requires high { v ≤ graph.now.nodes }
        requires halts { AreHaltsOfSome graph.now self.old }
        ensures { (halted : ℕ → Bool) → AreHalts graph.now halted self.old → AreHalts graph.now (also halted v) self.new }
    {
        self.least = Some(lesser_of(self.least, v));
        let root = graph.root(v) as usize;
        if !self.ended[root] {
            self.ended[root] = true;
            self.running -= 1;
        }
    }

    /// Node `v` has halted, or hasn't. Takes no memory.
    pub fn note(&mut self, graph: &Graph, v: u32, has_halted: bool)
        requires low { 1 ≤ v }
        requires high { v ≤ graph.now.nodes }
        requires halts { AreHaltsOfSome graph.now self.old }
        ensures { (halted : ℕ → Bool) → AreHalts graph.now halted self.old → AreHalts graph.now (with_node halted v has_halted) self.new }
    {
        if has_halted {
            self.add(graph, v);
        }
    }

    /// The least node that has halted.
    pub fn least(&self) -> Option<u32>
        ensures { result ≡ self.now.least }
    {
        self.least
    }

    /// Whether each component has a node that has halted.
    pub fn has_each(&self) -> bool
        ensures { result ≡ (self.now.running == 0) }
    {
        self.running == 0
    }
}

/// The lesser of two nodes, or the one there is.
fn lesser_of(least: Option<u32>, v: u32) -> u32
    ensures { result ≡ lesser least v }
{
    least.map_or(v, |u| u.min(v))
}
