//! Worked examples, with ample memory.
use ghs_gr::judgement::judge;
use ghs_gr::raw_graph::RawGraph;
use ghs_graph::bounds::{bound, floor_log2};
use ghs_graph::graph::Graph;
use ghs_graph::key::Key;
use ghs_graph::port::Port;
use ghs_graph::tree::{tree_of, tree_slow};
use ghs_test_graphs::graphs::{EQUAL_TRIANGLE, TRIANGLE, TWO_PAIRS_AND_NODE};
use std::alloc::Global;
use std::process::Abort;

fn assert_log(rt: &impl Abort, n: u32, want: u8) {
    assert!(rt; n >= 1);
    assert_eq!(rt; floor_log2(n), want, "of {n}");
}

const LOGARITHMS: [(u32, u8); 6] = [
    (1, 0),
    (2, 1),
    (3, 1),
    (4, 2),
    (1_048_575, 19),
    (1_048_576, 20),
];

#[test]
fn logarithms(rt: HostRuntime) {
    for (n, want) in &LOGARITHMS {
        assert_log(&rt, *n, *want);
    }
}

#[test]
fn bounds(rt: HostRuntime) {
    assert_eq!(rt; bound(1, 0), 0);
    assert_eq!(rt; bound(5, 4), 58);
    assert_eq!(rt; bound(1_048_576, 8_388_608), 121_634_816);
}

fn raw_of(rt: &impl Abort, alloc: Global, text: &str) -> RawGraph {
    judge(alloc, text.as_bytes()).ok().expect(rt, "a graph")
}

fn assert_keys(rt: &impl Abort, found: &[Key], keys: &[Key]) {
    assert_eq!(rt; found, keys);
}

/// A graph's tree, by two ways, is this. The graph.
fn graph_with_tree(rt: &impl Abort, alloc: Global, text: &str, tree: &[Key]) -> Graph {
    let raw = raw_of(rt, alloc, text);
    let found = tree_of(alloc, &raw).expect(rt, "memory");
    assert_keys(rt, &found, tree);
    let graph = Graph::build(alloc, raw).ok().expect(rt, "ports");
    let found = tree_slow(alloc, &graph).expect(rt, "memory");
    assert_keys(rt, &found, tree);
    graph
}

fn assert_counts(rt: &impl Abort, graph: &Graph, nodes: u32, links: u64, components: u32) {
    assert!(rt; graph.nodes() == nodes);
    assert!(rt; graph.links() == links);
    assert!(rt; graph.components() == components);
}

/// The links of the triangle, by weight.
const LINKS: [Key; 3] = [
    Key {
        weight: 1,
        a: 1,
        b: 2,
    },
    Key {
        weight: 2,
        a: 2,
        b: 3,
    },
    Key {
        weight: 3,
        a: 1,
        b: 3,
    },
];

/// A port as its link's place, the node at the other end, and that one's port.
fn assert_port(rt: &impl Abort, port: &Port, (link, far, far_port): (usize, u32, u32)) {
    assert!(rt; link < 3);
    let key = LINKS[link];
    assert_eq!(rt; *port, Port { key, far, far_port });
}

fn assert_ports(rt: &impl Abort, graph: &Graph, v: u32, wanted: &[(usize, u32, u32)]) {
    assert!(rt; v >= 1 && v <= graph.nodes());
    let ports = graph.ports(v);
    assert!(rt; ports.len() == wanted.len());
    for (port, want) in ports.iter().zip(wanted) {
        assert_port(rt, port, *want);
    }
}

fn assert_ports_of_triangle(rt: &impl Abort, graph: &Graph) {
    assert_ports(rt, graph, 1, &[(0, 2, 0), (2, 3, 1)]);
    assert_ports(rt, graph, 2, &[(0, 1, 0), (1, 3, 0)]);
    assert_ports(rt, graph, 3, &[(1, 2, 1), (2, 1, 1)]);
}

/// A graph's copy, which is the same.
fn copy_of(rt: &impl Abort, alloc: Global, graph: &Graph) -> Graph {
    let copy = graph.copy(alloc).expect(rt, "memory");
    assert!(rt; copy.same(graph));
    copy
}

#[test]
fn triangle(rt: HostRuntime) {
    let alloc = rt.alloc();
    let graph = graph_with_tree(&rt, alloc, TRIANGLE, &LINKS[..2]);
    assert_counts(&rt, &graph, 3, 3, 1);
    assert_keys(&rt, graph.keys(), &LINKS);
    assert_ports_of_triangle(&rt, &graph);
    let _ = copy_of(&rt, alloc, &graph);
}

/// The links of the triangle whose weights are equal, by their ends.
const EQUAL_LINKS: [Key; 3] = [
    Key {
        weight: 4,
        a: 1,
        b: 2,
    },
    Key {
        weight: 4,
        a: 1,
        b: 3,
    },
    Key {
        weight: 4,
        a: 2,
        b: 3,
    },
];

fn assert_weight(rt: &impl Abort, one: &Key, other: &Key, weight: u64) {
    assert_eq!(rt; one.weight as u64 + other.weight as u64, weight);
}

/// Each two of the links join all nodes, and weigh as much.
#[test]
fn equal_weights(rt: HostRuntime) {
    assert_weight(&rt, &EQUAL_LINKS[0], &EQUAL_LINKS[1], 8);
    assert_weight(&rt, &EQUAL_LINKS[0], &EQUAL_LINKS[2], 8);
    assert_weight(&rt, &EQUAL_LINKS[1], &EQUAL_LINKS[2], 8);
    let graph = graph_with_tree(&rt, rt.alloc(), EQUAL_TRIANGLE, &EQUAL_LINKS[..2]);
    assert_keys(&rt, graph.keys(), &EQUAL_LINKS);
}

/// The links of the two pairs.
const BOTH: [Key; 2] = [
    Key {
        weight: 5,
        a: 1,
        b: 2,
    },
    Key {
        weight: 6,
        a: 3,
        b: 4,
    },
];

fn assert_root(rt: &impl Abort, graph: &Graph, v: u32, root: u32) {
    assert!(rt; v >= 1 && v <= graph.nodes());
    assert_eq!(rt; graph.root(v), root, "of {v}");
}

const ROOTS: [(u32, u32); 5] = [(1, 1), (2, 1), (3, 3), (4, 3), (5, 5)];

fn assert_roots(rt: &impl Abort, graph: &Graph) {
    for (v, root) in &ROOTS {
        assert_root(rt, graph, *v, *root);
    }
}

#[test]
fn two_pieces(rt: HostRuntime) {
    let alloc = rt.alloc();
    let graph = graph_with_tree(&rt, alloc, TWO_PAIRS_AND_NODE, &BOTH);
    assert_counts(&rt, &graph, 5, 2, 3);
    assert_roots(&rt, &graph);
    let copy = copy_of(&rt, alloc, &graph);
    assert_counts(&rt, &copy, 5, 2, 3);
    assert_roots(&rt, &copy);
}
