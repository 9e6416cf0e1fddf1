//! What is found of all runs, and runs of each line.
use crate::explored_rows::{Row, rows};
use crate::fixtures::{graph_of_text, replayed};
use ghs_explore::explore::explore;
use ghs_explore::explored::Explored;
use ghs_explore::fault::ExploreFault;
use ghs_explore::text::explored_text;
use ghs_refusing::scenes::let_go;
use ghs_test_graphs::graphs::PATH_OF_THIRTEEN;
use ghs_world::world::World;
use peer_network::wake_set::WakeSet;
use std::alloc::Global;
use std::process::Abort;

/// More states than any of these networks has.
const LIMIT: u32 = 1_000_000;

/// What is found of all runs of a network's text, up to so many states.
fn try_to_explore(
    rt: &impl Abort,
    alloc: Global,
    text: &str,
    wake: WakeSet,
    limit: u32,
) -> Result<Explored, ExploreFault> {
    let graph = graph_of_text(rt, alloc, text);
    assert!(rt; limit >= 1);
    explore(alloc, &graph, wake, limit)
}

fn explored(rt: &impl Abort, alloc: Global, row: &Row, wake: WakeSet) -> Explored {
    let found = try_to_explore(rt, alloc, row.graph, wake, LIMIT);
    found.ok().expect(rt, "an exploration")
}

fn assert_lines(rt: &impl Abort, alloc: Global, row: &Row, wake: WakeSet, lines: &str) {
    let found = explored(rt, alloc, row, wake);
    let text = explored_text(alloc, &found).expect(rt, "memory");
    assert_eq!(rt; text.as_slice(), lines.as_bytes(), "of {}", row.name);
}

fn assert_all_lines(rt: &impl Abort, alloc: Global, rows: &[Row]) {
    for row in rows {
        assert_lines(rt, alloc, row, WakeSet::All, row.all);
        assert_lines(rt, alloc, row, WakeSet::First, row.first);
    }
}

/// The lines of each network are those of an explorer that shares nothing with this one.
#[test]
fn lines_are_an_explorers(rt: HostRuntime) {
    assert_all_lines(&rt, rt.alloc(), rows());
}

fn assert_sent(rt: &impl Abort, row: &Row, sent: u64, count: u8) {
    assert_eq!(rt; sent, count as u64, "of {}", row.name);
}

/// A run has ended, with so many messages of each kind.
fn assert_end(rt: &impl Abort, row: &Row, world: &World, sent: &[u8; 7]) {
    assert!(rt; world.ended(), "of {}", row.name);
    let counts = world.ledger().sent;
    for kind in 0..7 {
        assert_sent(rt, row, counts[kind], sent[kind]);
    }
}

/// A line has a run, which replays to the line's counts.
fn assert_run(
    rt: &impl Abort,
    alloc: Global,
    row: &Row,
    wake: WakeSet,
    found: &Explored,
    line: usize,
) {
    assert!(rt; line < found.rows().len());
    let events = found.run(alloc, line).expect(rt, "memory");
    let world = replayed(rt, alloc, row.graph, wake, &events);
    assert_end(rt, row, &world, &found.rows()[line].sent);
    let_go(world);
}

fn assert_runs(rt: &impl Abort, alloc: Global, row: &Row, wake: WakeSet) {
    let found = explored(rt, alloc, row, wake);
    for line in 0..found.rows().len() {
        assert_run(rt, alloc, row, wake, &found, line);
    }
}

fn assert_all_runs(rt: &impl Abort, alloc: Global, rows: &[Row]) {
    for row in rows {
        assert_runs(rt, alloc, row, WakeSet::All);
        assert_runs(rt, alloc, row, WakeSet::First);
    }
}

#[test]
fn lines_have_runs(rt: HostRuntime) {
    assert_all_runs(&rt, rt.alloc(), rows());
}

/// A network is explored up to so many states, or isn't.
fn assert_explored(
    rt: &impl Abort,
    alloc: Global,
    row: &Row,
    limit: u32,
    fault: Option<ExploreFault>,
) {
    let found = try_to_explore(rt, alloc, row.graph, WakeSet::All, limit).err();
    assert_eq!(rt; found, fault, "of {}", row.name);
}

fn assert_limit(rt: &impl Abort, alloc: Global, row: &Row) {
    let states = explored(rt, alloc, row, WakeSet::All).states();
    assert!(rt; states >= 1 && states <= LIMIT as usize);
    let states = states as u32;
    assert_explored(rt, alloc, row, states, None);
    if states > 1 {
        assert_explored(rt, alloc, row, states - 1, Some(ExploreFault::TooMany));
    }
}

fn assert_limits(rt: &impl Abort, alloc: Global, rows: &[Row]) {
    for row in rows {
        assert_limit(rt, alloc, row);
    }
}

/// As many states as the limit are taken, and one more isn't.
#[test]
fn limits_are_exact(rt: HostRuntime) {
    assert_limits(&rt, rt.alloc(), rows());
}

/// A path of 13 nodes is refused.
#[test]
fn larger_graphs_are_refused(rt: HostRuntime) {
    let text = PATH_OF_THIRTEEN;
    let found = try_to_explore(&rt, rt.alloc(), text, WakeSet::All, LIMIT);
    assert_eq!(rt; found.err(), Some(ExploreFault::TooLarge));
}
