//! The page of a stored run.
ghost use Rattle.peer_texts.specs.declared.trace.TheConstants.{EVENT_LIMIT};
ghost use Rattle.std.specs.Prelude.{◌≤◌, length};

use crate::comparing::assert_same;
use ghs_core::event::Event;
use ghs_graph::graph::Graph;
use ghs_refusing::orders::{Turn, order, refuse, turn_of};
use ghs_refusing::scenes::{events_of_run, five};
use ghs_view::stored::stored_page;
use peer_network::wake_set::WakeSet;
use peer_page::fault::StoredFault;
use peer_texts::trace::EVENT_LIMIT;
use std::alloc::{AllocError, Global};
use std::process::Abort;
use std::test::Fail;

/// The page of a run, which takes the graph.
fn stored(alloc: Global, graph: Graph, events: &[Event]) -> Result<Vec<u8>, StoredFault>
    requires { length events.now ≤ EVENT_LIMIT }
{
    stored_page(alloc, graph, WakeSet::All, events, 1, 99)
}

fn assert_memory(rt: &impl Abort, fault: StoredFault) {
    assert!(rt; fault == StoredFault::Memory);
}

/// The same; lack of memory is its only fault here.
fn page_of(
    rt: &impl Abort,
    alloc: Global,
    graph: Graph,
    events: &[Event],
) -> Result<Vec<u8>, AllocError> {
    assert!(rt; events.len() as u64 <= EVENT_LIMIT);
    match stored(alloc, graph, events) {
        Ok(text) => Ok(text),
        Err(fault) => {
            assert_memory(rt, fault);
            Err(AllocError)
        }
    }
}

/// The page where nothing is refused.
fn whole_page(rt: &impl Abort, alloc: Global, events: &[Event]) -> Vec<u8> {
    let graph = five(alloc).expect(rt, "a graph");
    page_of(rt, alloc, graph, events).expect(rt, "a page")
}

/// The page is the one that is made where nothing is refused.
fn show_page(rt: &impl Abort, alloc: Global, events: &[Event], k: usize) -> Turn {
    let whole = whole_page(rt, alloc, events);
    let graph = five(alloc).expect(rt, "a graph");
    order(alloc, k);
    let answer = page_of(rt, alloc, graph, events);
    let turn = turn_of(alloc, k, &answer);
    assert_same(rt, answer, &whole);
    turn
}

#[test]
fn pages(host: HostRuntime) -> Result<(), Fail> {
    let (rt, alloc) = (&host, host.alloc());
    let events = events_of_run(alloc).expect(rt, "a run");
    refuse(
        rt,
        alloc,
        "stored_page",
        |k| show_page(rt, alloc, &events, k),
    )
}
