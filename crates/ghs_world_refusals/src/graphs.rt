//! Graph texts, graphs and what is laid out for them.
use ghs_flags::flags::Flags;
use ghs_gr::device::Device;
use ghs_gr::fault::GrFault;
use ghs_gr::judgement::{judge, read_gr};
use ghs_gr::raw_graph::RawGraph;
use ghs_gr::text::{TextFault, read_text};
use ghs_graph::graph::Graph;
use ghs_graph::graph_fault::GraphFault;
use ghs_graph::spanning::span_raw;
use ghs_graph::tree::{tree_of, tree_slow};
use ghs_graph::union_find::Roots;
use ghs_refusing::orders::{Turn, order, refuse, turn_of};
use ghs_refusing::scenes::{five, is_five};
use ghs_test_graphs::graphs::PATH_OF_FIVE;
use peer_channels::channels::Channels;
use peer_index::index::Index;
use std::alloc::Global;
use std::process::Abort;
use std::test::Fail;

/// The keys of the five nodes' links: weight, smaller end, larger end.
const KEYS: [(u32, u32, u32); 4] = [(1, 1, 2), (2, 2, 3), (3, 4, 5), (4, 3, 4)];

/// The graph of the five nodes as its text gives it.
fn raw_five(rt: &impl Abort, alloc: Global) -> RawGraph {
    judge(alloc, PATH_OF_FIVE.as_bytes())
        .ok()
        .expect(rt, "a graph")
}

fn is_raw_five(raw: &RawGraph) -> bool {
    raw.nodes() == 5 && raw.keys() == KEYS.as_slice()
}

/// Whether a reader's rest is an end of the text.
fn is_end(rest: &[u8]) -> bool {
    PATH_OF_FIVE.as_bytes().ends_with(rest)
}

fn assert_read(rt: &impl Abort, answer: Result<Vec<u8>, TextFault>, rest: &[u8]) {
    match answer {
        Ok(text) => assert!(rt; text.as_slice() == PATH_OF_FIVE.as_bytes()),
        Err(fault) => assert!(rt; fault == TextFault::Memory && is_end(rest)),
    }
}

/// Bytes that were taken from the reader are gone; read again, the text is whole.
fn read_bytes(rt: &impl Abort, alloc: Global, k: usize) -> Turn {
    let mut rest = PATH_OF_FIVE.as_bytes();
    order(alloc, k);
    let answer = read_text(alloc, &mut Device::of(&mut rest));
    let turn = turn_of(alloc, k, &answer);
    assert_read(rt, answer, rest);
    turn
}

fn assert_graph(rt: &impl Abort, answer: Result<RawGraph, GrFault>, rest: &[u8]) {
    match answer {
        Ok(raw) => assert!(rt; is_raw_five(&raw)),
        Err(fault) => assert!(rt; fault == GrFault::Memory && is_end(rest)),
    }
}

fn read_graph(rt: &impl Abort, alloc: Global, k: usize) -> Turn {
    let mut rest = PATH_OF_FIVE.as_bytes();
    order(alloc, k);
    let answer = read_gr(alloc, &mut Device::of(&mut rest));
    let turn = turn_of(alloc, k, &answer);
    assert_graph(rt, answer, rest);
    turn
}

fn assert_five(rt: &impl Abort, alloc: Global, graph: Graph) {
    assert!(rt; is_five(alloc, &graph));
}

/// What was given comes back, and is built then.
fn build_again(rt: &impl Abort, alloc: Global, raw: RawGraph) {
    assert!(rt; is_raw_five(&raw));
    assert!(rt; Graph::build(alloc, raw).is_ok());
}

fn build(rt: &impl Abort, alloc: Global, k: usize) -> Turn {
    let raw = raw_five(rt, alloc);
    order(alloc, k);
    let answer = Graph::build(alloc, raw);
    let turn = turn_of(alloc, k, &answer);
    match answer {
        Ok(graph) => assert_five(rt, alloc, graph),
        Err((raw, GraphFault::Memory)) => build_again(rt, alloc, raw),
    }
    turn
}

/// What is made of texts and graphs, and leaves them as they were.
#[derive(Clone, Copy)]
enum Made {
    Raw,
    Copy,
    Spanning,
    Tree,
    SlowTree,
    Roots,
    Flags,
    Channels,
    Index,
}

/// What is made of a text, or of nothing.
fn make_anew(alloc: Global, made: Made, k: usize) -> Option<Turn> {
    match made {
        Made::Raw => Some(turn_of(alloc, k, &judge(alloc, PATH_OF_FIVE.as_bytes()))),
        Made::Roots => Some(turn_of(alloc, k, &Roots::fresh(alloc, 6))),
        Made::Flags => Some(turn_of(alloc, k, &Flags::lowered(alloc, 1000))),
        _ => None,
    }
}

/// What is made of a graph's keys.
fn make_of_keys(alloc: Global, raw: &RawGraph, made: Made, k: usize) -> Option<Turn> {
    match made {
        Made::Spanning => Some(turn_of(alloc, k, &span_raw(alloc, raw))),
        Made::Tree => Some(turn_of(alloc, k, &tree_of(alloc, raw))),
        _ => make_anew(alloc, made, k),
    }
}

/// What is made of a graph.
fn make_of_graph(alloc: Global, graph: &Graph, made: Made, k: usize) -> Option<Turn> {
    match made {
        Made::Copy => Some(turn_of(alloc, k, &graph.copy(alloc))),
        Made::SlowTree => Some(turn_of(alloc, k, &tree_slow(alloc, graph))),
        Made::Channels => Some(turn_of(alloc, k, &Channels::<u64>::new(alloc, graph))),
        Made::Index => Some(turn_of(alloc, k, &Index::none(alloc, graph))),
        _ => None,
    }
}

fn make(rt: &impl Abort, alloc: Global, made: Made, k: usize) -> Turn {
    let raw = raw_five(rt, alloc);
    let graph = five(alloc).expect(rt, "a graph");
    order(alloc, k);
    let turn = match make_of_graph(alloc, &graph, made, k) {
        Some(turn) => Some(turn),
        None => make_of_keys(alloc, &raw, made, k),
    };
    assert!(rt; is_raw_five(&raw));
    assert_five(rt, alloc, graph);
    turn.expect(rt, "a call")
}

#[test]
fn graphs(host: HostRuntime) -> Result<(), Fail> {
    let (rt, alloc) = (&host, host.alloc());
    refuse(rt, alloc, "read_text", |k| read_bytes(rt, alloc, k))?;
    refuse(rt, alloc, "read_gr", |k| read_graph(rt, alloc, k))?;
    refuse(rt, alloc, "Graph::build", |k| build(rt, alloc, k))
}

static MADE: [(&str, Made); 9] = [
    ("judge", Made::Raw),
    ("Graph::copy", Made::Copy),
    ("span_raw", Made::Spanning),
    ("tree_of", Made::Tree),
    ("tree_slow", Made::SlowTree),
    ("Roots::fresh", Made::Roots),
    ("Flags::lowered", Made::Flags),
    ("Channels::new", Made::Channels),
    ("Index::none", Made::Index),
];

fn refuse_made<R: Print + Abort>(rt: &R, alloc: Global, rows: &[(&str, Made)]) -> Result<(), Fail> {
    for (name, made) in rows {
        refuse(rt, alloc, name, |k| make(rt, alloc, *made, k))?;
    }
    Ok(())
}

#[test]
fn what_is_made_of_graphs(host: HostRuntime) -> Result<(), Fail> {
    refuse_made(&host, host.alloc(), &MADE)
}
