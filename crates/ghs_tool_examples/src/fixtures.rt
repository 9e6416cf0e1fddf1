//! Graphs and events of texts, and the worlds after them.
use ghs_graph::graph::Graph;
use ghs_sched::replay::replay;
use ghs_test_graphs::build::graph_of;
use ghs_world::world::World;
use peer_network::event::Event;
use peer_network::wake_set::WakeSet;
use peer_texts::trace::{EVENT_LIMIT, read_trace};
use std::alloc::Global;
use std::process::Abort;

/// The graph of a text.
pub(crate) fn graph_of_text(rt: &impl Abort, alloc: Global, text: &str) -> Graph {
    graph_of(alloc, text.as_bytes()).expect(rt, "a graph")
}

/// The events of a text.
pub(crate) fn events_of_text(rt: &impl Abort, alloc: Global, text: &str) -> Vec<Event> {
    read_trace(alloc, text.as_bytes())
        .ok()
        .expect(rt, "a trace")
}

/// The world after these events, on the graph of a text.
pub(crate) fn replayed(
    rt: &impl Abort,
    alloc: Global,
    text: &str,
    wake: WakeSet,
    events: &[Event],
) -> World {
    assert!(rt; events.len() as u64 <= EVENT_LIMIT);
    let graph = graph_of_text(rt, alloc, text);
    let world = replay(alloc, graph, wake, events).ok();
    world.expect(rt, "a run")
}
