//! From bytes to a graph, and its minimum spanning tree.
ghost use Rattle.ghs_graph.specs.Links.{IsTree};
ghost use Rattle.std.specs.Prelude.{IfOk};

use crate::fault::Fault;
use ghs_gr::judgement::judge;
use ghs_graph::graph::Graph;
use ghs_graph::key::Key;
use ghs_graph::tree::tree_slow;
use ghs_report::tree_text::tree_text;
use ghs_test_graphs::graphs::TRIANGLE;
use std::alloc::Global;
use std::process::Abort;

/// The graph of a text.
pub fn graph_of(alloc: Global, text: &[u8]) -> Result<Graph, Fault> {
    let raw = judge(alloc, text)?;
    Ok(Graph::build(alloc, raw)?)
}

/// The links of its minimum spanning forest.
pub fn forest_of(alloc: Global, graph: &Graph) -> Result<Vec<Key>, Fault>
    ensures { IfOk result (λ t. IsTree graph.now.keys t.items) }
{
    Ok(tree_slow(alloc, graph)?)
}

/// Their text.
pub fn forest_text(alloc: Global, graph: &Graph) -> Result<Vec<u8>, Fault> {
    let forest = forest_of(alloc, graph)?;
    Ok(tree_text(alloc, &forest)?)
}

/// The graph of a text, which a test knows to be one.
pub fn graph_of_text(rt: &impl Abort, alloc: Global, text: &str) -> Graph {
    graph_of(alloc, text.as_bytes()).ok().expect(rt, "a graph")
}

/// This text was found.
pub fn assert_text(rt: &impl Abort, found: Result<Vec<u8>, Fault>, text: &str) {
    let found = found.ok().expect(rt, "a text");
    assert_eq!(rt; found.as_slice(), text.as_bytes());
}

#[test]
fn the_tree_of_the_triangle(rt: HostRuntime) {
    let graph = graph_of_text(&rt, rt.alloc(), TRIANGLE);
    let found = forest_text(rt.alloc(), &graph);
    assert_text(&rt, found, "t 1 2 1\nt 2 3 2\nw 3\n");
}
