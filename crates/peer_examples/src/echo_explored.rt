//! All runs of the echo wave on small networks: how many states they lead to, and with how many Explores and Echoes they end.
//! The numbers are those of `bench/echo`, which explores from the rules alone.
use crate::playing::graph_of_text;
use echo::protocol::Echo;
use ghs_test_graphs::graphs::{PATH_OF_THREE, TRIANGLE, TWO_PAIRS_AND_NODE};
use peer_explore::explore::explore_watched;
use peer_explore::row::EndRow;
use peer_explore::watch::Unwatched;
use peer_network::wake_set::WakeSet;
use std::alloc::Global;
use std::process::Abort;

const STAR_OF_FOUR: &str = "p sp 4 3\na 1 2 1\na 1 3 2\na 1 4 3";

const RING_OF_FOUR: &str = "p sp 4 4\na 1 2 1\na 2 3 2\na 3 4 3\na 1 4 4";

/// The row's counts are these.
fn assert_row(rt: &impl Abort, row: &EndRow, explores: u16, echoes: u16) {
    assert_eq!(rt; row.sent, [explores, echoes, 0, 0, 0, 0, 0, 0]);
}

/// So many states are reached, and runs end with so many Explores and Echoes.
fn assert_explored(
    rt: &impl Abort,
    alloc: Global,
    text: &str,
    wake: WakeSet,
    states: usize,
    ends: &[(u16, u16)],
) {
    let graph = graph_of_text(rt, alloc, text);
    let explored = explore_watched::<Echo, Unwatched>(alloc, (), &graph, wake, 10_000, &Unwatched);
    let found = explored.ok().expect(rt, "few states");
    assert_eq!(rt; found.states(), states, "of {text:?}");
    let rows = found.rows();
    assert_eq!(rt; rows.len(), ends.len(), "of {text:?}");
    for (row, end) in rows.iter().zip(ends) {
        assert_row(rt, row, end.0, end.1);
    }
}

#[test]
fn the_runs_of_a_path(rt: HostRuntime) {
    let ends = [(2, 2), (3, 1), (4, 0)];
    assert_explored(&rt, rt.alloc(), PATH_OF_THREE, WakeSet::All, 73, &ends);
    assert_explored(&rt, rt.alloc(), PATH_OF_THREE, WakeSet::First, 6, &[(2, 2)]);
}

#[test]
fn the_runs_of_a_triangle(rt: HostRuntime) {
    let ends = [(4, 2), (5, 1), (6, 0)];
    assert_explored(&rt, rt.alloc(), TRIANGLE, WakeSet::All, 305, &ends);
    assert_explored(&rt, rt.alloc(), TRIANGLE, WakeSet::First, 29, &[(4, 2)]);
}

#[test]
fn the_runs_of_a_star(rt: HostRuntime) {
    let ends = [(3, 3), (4, 2), (5, 1), (6, 0)];
    assert_explored(&rt, rt.alloc(), STAR_OF_FOUR, WakeSet::All, 525, &ends);
    assert_explored(&rt, rt.alloc(), STAR_OF_FOUR, WakeSet::First, 28, &[(3, 3)]);
}

#[test]
fn the_runs_of_a_ring(rt: HostRuntime) {
    let ends = [(5, 3), (6, 2), (7, 1), (8, 0)];
    assert_explored(&rt, rt.alloc(), RING_OF_FOUR, WakeSet::All, 2075, &ends);
    assert_explored(&rt, rt.alloc(), RING_OF_FOUR, WakeSet::First, 51, &[(5, 3)]);
}

/// Each component has waves of its own.
#[test]
fn the_runs_of_two_pairs_and_a_node(rt: HostRuntime) {
    let ends = [(2, 2), (3, 1), (4, 0)];
    assert_explored(
        &rt,
        rt.alloc(),
        TWO_PAIRS_AND_NODE,
        WakeSet::All,
        242,
        &ends,
    );
    assert_explored(
        &rt,
        rt.alloc(),
        TWO_PAIRS_AND_NODE,
        WakeSet::First,
        32,
        &[(2, 2)],
    );
}
