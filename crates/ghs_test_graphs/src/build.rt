//! The graph of a text.
use ghs_gr::judgement::judge;
use ghs_graph::graph::Graph;
use std::alloc::Global;

/// The graph of a text, if it is a graph's and there is memory.
pub fn graph_of(alloc: Global, text: &[u8]) -> Option<Graph> {
    let raw = judge(alloc, text).ok()?;
    Graph::build(alloc, raw).ok()
}
