//! Graphs.
ghost use Rattle.std.specs.Prelude.{◌≡◌, ◌↔◌, ◌≤◌, length, map, IfOk, IfErr, IsTrue};
ghost use Rattle.ghs_graph.specs.Key.{key_of};
ghost use Rattle.ghs_graph.specs.Ports.{ports_of};
ghost use Rattle.ghs_graph.specs.Graph.{IsGraph};
ghost use Rattle.ghs_graph.specs.Components.{AreRoots, IsRoot, HasComponents};

use crate::graph_fault::GraphFault;
use crate::key::Key;
use crate::layout::{Layout, block, lay};
use crate::port::Port;
use crate::spanning::span;
use crate::triples::keys_of;
use ghs_gr::raw_graph::RawGraph;
pub use ghs_gr::raw_graph::{ARC_LIMIT, NODE_LIMIT};
use std::alloc::{AllocError, Global};
use std::marker::Model;

/// A graph. Its nodes are numbered from 1. Each node has ports, numbered from 0 in key order.
#[derive(Debug, Drop)]
pub struct Graph {
    nodes: u32,
    keys: Vec<Key>,
    layout: Layout,
    /// The root of each node, at the node's number.
    roots: Vec<u32>,
    components: u32,
}

impl Model for Graph {
    ghost use Rattle.ghs_graph.specs.Graph.{Shape};
    ghost use Rattle.ghs_graph.specs.Built.{IsBuilt};

    ghost Value = { Shape };

    ghost view = { λ g. record { nodes = g.nodes; keys = g.keys.items } };

    ghost invariant = { λ g. IsBuilt (record { nodes = g.nodes; keys = g.keys.items }) g.layout.starts.items g.layout.ports.items g.roots.items g.components };
}

impl Graph {
    /// The graph with these nodes and keys. It takes O((N + E) log N) steps.
    ///
    /// ```text
    /// let raw = judge(alloc, b"p sp 3 2\na 1 2 7\na 3 2 1")?;
    /// let graph = match Graph::build(alloc, raw) {
    ///     Ok(graph) => graph,                       // graph.links() is 2
    ///     Err((raw, fault)) => return Err(fault),   // out of memory; what was given comes back
    /// };
    /// ```
    pub fn build(alloc: Global, raw: RawGraph) -> Result<Graph, (RawGraph, GraphFault)>
        ensures nodes { IfOk result (λ g. g.nodes ≡ raw.nodes) }
        ensures keys { IfOk result (λ g. g.keys ≡ map key_of raw.keys) }
        ensures handed_back { IfErr result (λ e. e.0 ≡ raw) }
    {
        match Graph::of(alloc, &raw) {
            Ok(graph) => Ok(graph),
            Err(error) => Err((raw, error.into())),
        }
    }

    fn of(alloc: Global, raw: &RawGraph) -> Result<Graph, AllocError>
        ensures nodes { IfOk result (λ g. g.nodes ≡ raw.now.nodes) }
        ensures keys { IfOk result (λ g. g.keys ≡ map key_of raw.now.keys) }
    {
        let nodes = raw.nodes();
        let keys = keys_of(alloc, raw)?;
        let pieces = pieces_of(alloc, nodes, &keys)?;
        let layout = lay(alloc, nodes, &keys)?;
        Ok(Graph {
            nodes,
            keys,
            layout,
            roots: pieces.roots,
            components: pieces.count,
        })
    }

    /// The number of nodes.
    pub fn nodes(&self) -> u32
        ensures nodes { result ≡ self.now.nodes }
        ensures graph { IsGraph self.now }
    {
        self.nodes
    }

    /// The number of links.
    pub fn links(&self) -> u64
        ensures { result ≡ length self.now.keys }
    {
        self.keys.len() as u64
    }

    /// The keys of the links, rising.
    pub fn keys(&self) -> &[Key]
        ensures keys { result.now ≡ self.now.keys }
        ensures graph { IsGraph self.now }
    {
        self.keys.as_slice()
    }

    /// The ports of a node, in key order.
    pub fn ports(&self, v: u32) -> &[Port]
        requires low { 1 ≤ v }
        requires high { v ≤ self.now.nodes }
        ensures { result.now ≡ ports_of self.now.keys v }
    {
        block(&self.layout.ports, &self.layout.starts, v)
    }

    /// The least node that is joined with this one.
    pub fn root(&self, v: u32) -> u32
        requires low { 1 ≤ v }
        requires high { v ≤ self.now.nodes }
        ensures root { IsRoot self.now.keys v result }
        ensures node { 1 ≤ result }
    {
        self.roots[v as usize]
    }

    /// How many components the graph has: 1, where it is connected.
    pub fn components(&self) -> u32
        ensures { HasComponents self.now result }
    {
        self.components
    }

    /// An equal graph.
    pub fn copy(&self, alloc: Global) -> Result<Graph, AllocError>
        ensures { IfOk result (λ g. g ≡ self.now) }
    {
        Ok(Graph {
            nodes: self.nodes,
            keys: Vec::from_slice(alloc, &self.keys)?,
            layout: Layout {
                starts: Vec::from_slice(alloc, &self.layout.starts)?,
                ports: Vec::from_slice(alloc, &self.layout.ports)?,
            },
            roots: Vec::from_slice(alloc, &self.roots)?,
            components: self.components,
        })
    }

    /// Whether both are the same graph.
    pub fn same(&self, other: &Graph) -> bool
        ensures { IsTrue result ↔ (self.now ≡ other.now) }
    {
        self.nodes == other.nodes && self.keys.as_slice() == other.keys.as_slice()
    }
}

/// What a graph falls into: the root of each node, at the node's number, and how many pieces there are.
#[derive(Debug, Drop)]
struct Pieces {
    roots: Vec<u32>,
    count: u32,
}

/// Each piece's links of the forest are one less than its nodes, so there are as many pieces as all of them are less.
fn pieces_of(alloc: Global, nodes: u32, keys: &[Key]) -> Result<Pieces, AllocError>
    requires { IsGraph (record { nodes = nodes; keys = keys.now }) }
    ensures roots { IfOk result (λ p. AreRoots (record { nodes = nodes; keys = keys.now }) p.roots.items) }
    ensures count { IfOk result (λ p. HasComponents (record { nodes = nodes; keys = keys.now }) p.count) }
{
    let spanning = span(alloc, nodes, keys)?;
    let count = nodes - spanning.tree.len() as u32;
    Ok(Pieces {
        roots: spanning.roots.settled(),
        count,
    })
}
