//! The graphs of texts: links, roots and components.
use crate::comparing::assert_same_of;
use ghs_graph::graph::Graph;
use ghs_test_graphs::build::graph_of;
use ghs_test_graphs::graphs::{
    LONE_NODE, NODE_AND_PAIR, PAIR, PARALLEL_PAIR, PATH_AND_PAIR, PATH_OF_THREE, TWO_LONE_NODES,
    TWO_PAIRS, TWO_PAIRS_AND_NODE,
};
use std::alloc::Global;
use std::process::Abort;

/// A text, how many links its graph has, the root of each of its nodes, and how many components there are.
struct Row {
    text: &'static str,
    links: u64,
    roots: &'static [u32],
    components: u32,
}

/// An arc that stands there twice.
const SAME_ARC_TWICE: &str = "p sp 2 2\na 1 2 5\na 1 2 5";

/// A link, and an arc from node 1 to itself.
const LINK_AND_LOOP: &str = "p sp 2 2\na 1 1 3\na 1 2 5";

/// Links of two weights between the same nodes are two; an arc and its reverse, or its equal, are one link, and a loop is none.
const ROWS: [Row; 11] = [
    Row {
        text: PARALLEL_PAIR,
        links: 2,
        roots: &[1, 1],
        components: 1,
    },
    Row {
        text: PAIR,
        links: 1,
        roots: &[1, 1],
        components: 1,
    },
    Row {
        text: SAME_ARC_TWICE,
        links: 1,
        roots: &[1, 1],
        components: 1,
    },
    Row {
        text: LINK_AND_LOOP,
        links: 1,
        roots: &[1, 1],
        components: 1,
    },
    Row {
        text: LONE_NODE,
        links: 0,
        roots: &[1],
        components: 1,
    },
    Row {
        text: TWO_LONE_NODES,
        links: 0,
        roots: &[1, 2],
        components: 2,
    },
    Row {
        text: PATH_OF_THREE,
        links: 2,
        roots: &[1, 1, 1],
        components: 1,
    },
    Row {
        text: NODE_AND_PAIR,
        links: 1,
        roots: &[1, 2, 2],
        components: 2,
    },
    Row {
        text: TWO_PAIRS,
        links: 2,
        roots: &[1, 1, 3, 3],
        components: 2,
    },
    Row {
        text: TWO_PAIRS_AND_NODE,
        links: 2,
        roots: &[1, 1, 3, 3, 5],
        components: 3,
    },
    Row {
        text: PATH_AND_PAIR,
        links: 4,
        roots: &[1, 2, 1, 2, 2, 2],
        components: 2,
    },
];

fn assert_root(rt: &impl Abort, graph: &Graph, v: u32, root: u32) {
    assert!(rt; v >= 1 && v <= graph.nodes());
    assert_same_of(rt, &graph.root(v), &root, &v);
}

fn assert_roots(rt: &impl Abort, graph: &Graph, roots: &[u32]) {
    assert!(rt; graph.nodes() as usize == roots.len());
    let mut v = 0u32;
    for root in roots {
        v = v.saturating_add(1);
        assert_root(rt, graph, v, *root);
    }
}

fn assert_row(rt: &impl Abort, alloc: Global, row: &Row) {
    let graph = graph_of(alloc, row.text.as_bytes()).expect(rt, "a graph");
    assert_same_of(rt, &graph.links(), &row.links, &row.text);
    assert_same_of(rt, &graph.components(), &row.components, &row.text);
    assert_roots(rt, &graph, row.roots);
}

#[test]
fn roots(rt: HostRuntime) {
    for row in &ROWS {
        assert_row(&rt, rt.alloc(), row);
    }
}
