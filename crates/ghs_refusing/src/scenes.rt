//! Five nodes in a row: their graph, its runs, and whether nets and worlds of them are the same. Where a reaction has to send
//! so much that it takes memory, another graph.
use ghs_core::event::Event;
use ghs_core::net::Net;
use ghs_graph::graph::Graph;
use ghs_report::run_text::run_text;
use ghs_sched::replay::replay;
use ghs_sched::run::run_seeded;
use ghs_test_graphs::build::graph_of;
use ghs_test_graphs::graphs::PATH_OF_FIVE;
use ghs_world::world::World;
use peer_network::wake_set::WakeSet;
use peer_schedule::schedule::Schedule;
use peer_texts::trace::EVENT_LIMIT;
use std::alloc::Global;

/// The text of every run of the five nodes.
pub const TEXT: &str =
    "t 1 2 1\nt 2 3 2\nt 4 5 3\nt 3 4 4\nw 10\nm connect=7 initiate=10 test=3 accept=2 reject=1 report=10 changeroot=1\ns 34 58\n";

/// The graph of the five nodes, where there is memory.
pub fn five(alloc: Global) -> Option<Graph> {
    graph_of(alloc, PATH_OF_FIVE.as_bytes())
}

/// Whether this is the graph of the five nodes.
pub fn is_five(alloc: Global, graph: &Graph) -> bool {
    match five(alloc) {
        Some(five) => graph.same(&five),
        None => false,
    }
}

/// Whether two nets of the five nodes are the same: graph and trace, each node, and the ledger.
pub fn are_same(net: &Net, other: &Net) -> bool {
    if !net.same(other) || net.ledger() != other.ledger() {
        return false;
    }
    for v in 1..6 {
        if v < 1 || v > net.graph().nodes() || v > other.graph().nodes() {
            return false;
        }
        if !net.node(v).same(other.node(v)) {
            return false;
        }
    }
    true
}

/// The opening world of the five nodes.
pub fn opening(alloc: Global) -> Option<World> {
    opening_of(alloc, PATH_OF_FIVE)
}

/// The opening world of the graph of a text.
fn opening_of(alloc: Global, graph: &str) -> Option<World> {
    World::open(
        alloc,
        graph_of(alloc, graph.as_bytes())?,
        WakeSet::All,
        EVENT_LIMIT,
    )
    .ok()
}

/// The world after these events, from which nothing is out.
pub fn world_after(alloc: Global, events: &[Event]) -> Option<World> {
    world_of_after(alloc, PATH_OF_FIVE, events)
}

/// The world of the graph of a text after these events, from which nothing is out.
pub fn world_of_after(alloc: Global, graph: &str, events: &[Event]) -> Option<World> {
    if events.len() as u64 > EVENT_LIMIT {
        return None;
    }
    replay(
        alloc,
        graph_of(alloc, graph.as_bytes())?,
        WakeSet::All,
        events,
    )
    .ok()
}

/// The events of a world's run by one seed.
fn run_of(alloc: Global, world: &mut World) -> Option<Vec<Event>> {
    run_seeded(alloc, world, &mut Schedule::seeded(7)).ok()?;
    let mut events = Vec::new(alloc);
    events.extend_from_slice(world.trace()).ok()?;
    Some(events)
}

/// The events of one seed's run of the five nodes.
pub fn events_of_run(alloc: Global) -> Option<Vec<Event>> {
    events_of(alloc, PATH_OF_FIVE)
}

/// The events of one seed's run of the graph of a text.
pub fn events_of(alloc: Global, graph: &str) -> Option<Vec<Event>> {
    let mut world = opening_of(alloc, graph)?;
    let events = run_of(alloc, &mut world);
    let_go(world);
    events
}

/// Whether a world's run of the five nodes has ended, with the one text that it can have.
pub fn has_ended(alloc: Global, world: &World) -> bool {
    if !world.ended() || world.out_count() != 0 {
        return false;
    }
    match run_text(alloc, world) {
        Ok(text) => text.as_slice() == TEXT.as_bytes(),
        Err(_) => false,
    }
}

/// Whether a world is as its twin: graph and trace, each node, the ledger, how many tickets are out, and what may happen.
pub fn stands(alloc: Global, world: &World, twin: &World) -> bool {
    if !are_same(world.net(), twin.net()) || world.ledger() != twin.ledger() {
        return false;
    }
    match (world.ready(alloc), twin.ready(alloc)) {
        (Ok(ready), Ok(there)) => {
            world.out_count() == twin.out_count() && ready.as_slice() == there.as_slice()
        }
        _ => false,
    }
}

/// Whether a world is as its twin, which is let go of.
fn is_as(alloc: Global, world: &World, twin: World) -> bool {
    let is_same = stands(alloc, world, &twin);
    let_go(twin);
    is_same
}

/// Whether a world is as the one after these events.
pub fn is_after(alloc: Global, world: &World, events: &[Event]) -> bool {
    match world_after(alloc, events) {
        Some(twin) => is_as(alloc, world, twin),
        None => false,
    }
}

/// Lets go of a world here, so that its memory's way isn't in the proof of each test that has one.
pub fn let_go(_world: World) {}
