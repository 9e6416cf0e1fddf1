//! All runs of small networks.
use crate::fault::Fault;
use crate::reading::{assert_text, graph_of_text};
use echo::protocol::Echo;
use ghs_explore::explore::explore;
use ghs_explore::text::explored_text as ghs_explored_text;
use ghs_graph::graph::Graph;
use ghs_test_graphs::graphs::PATH_OF_THREE;
use peer_explore::explore::explore_watched;
use peer_explore::watch::Unwatched;
use peer_machine::explorable::{Explorable, Finite};
use peer_machine::fixed::Fixed;
use peer_network::event::Event;
use peer_network::wake_set::WakeSet;
use peer_report::explored_text::explored_text;
use peer_words::spoken::Spoken;
use std::alloc::Global;
use std::process::Abort;

/// With which counts of messages the runs of a small network end, under any protocol.
pub fn ends_of<P: Explorable + Finite + Spoken + Fixed>(
    alloc: Global,
    graph: &Graph,
) -> Result<Vec<u8>, Fault> {
    let wake = WakeSet::All;
    let setting = P::setting();
    let found = explore_watched::<P, Unwatched>(
        alloc, setting, graph, wake, 1_000_000, &Unwatched,
    )?;
    Ok(explored_text(alloc, &found)?)
}

/// A run that sends as few messages as any.
pub fn fewest<P: Explorable + Finite + Fixed>(
    alloc: Global,
    graph: &Graph,
) -> Result<Vec<Event>, Fault> {
    let wake = WakeSet::All;
    let setting = P::setting();
    let found = explore_watched::<P, Unwatched>(
        alloc, setting, graph, wake, 1_000_000, &Unwatched,
    )?;
    let _ = found.rows(); // only for its contract: there is a row
    Ok(found.run(alloc, 0)?)
}

/// The same of GHS.
pub fn ghs_ends_of(alloc: Global, graph: &Graph) -> Result<Vec<u8>, Fault> {
    let found = explore(alloc, graph, WakeSet::All, 1_000_000)?;
    Ok(ghs_explored_text(alloc, &found)?)
}

const PATH_ENDS: &str = "\
e 1 4 explore=2 echo=2
e 2 4 explore=3 echo=1
e 3 4 explore=4 echo=0
r 4 4 4
x 73
";

/// A star of five, with the lightest link to node 2.
const STAR: &str = "p sp 5 4\na 1 2 1\na 1 3 2\na 1 4 3\na 1 5 4\n";

const STAR_ENDS: &str = "\
e 1 17 connect=5 initiate=5 test=1 accept=0 reject=1 report=5 changeroot=0
e 2 19 connect=5 initiate=5 test=2 accept=0 reject=2 report=5 changeroot=0
e 3 21 connect=5 initiate=5 test=3 accept=0 reject=3 report=5 changeroot=0
r 17 21 58
x 647
";

#[test]
fn all_waves_on_a_path(rt: HostRuntime) {
    let graph = graph_of_text(&rt, rt.alloc(), PATH_OF_THREE);
    assert_text(&rt, ends_of::<Echo>(rt.alloc(), &graph), PATH_ENDS);
}

/// Each wave on the path has its four messages, so each run consumes four; the first row's has one initiator.
fn assert_few(rt: &impl Abort, found: Result<Vec<Event>, Fault>) {
    let events = found.ok().expect(rt, "a run");
    assert_eq!(rt; events.len(), 5);
}

#[test]
fn a_run_of_the_first_row(rt: HostRuntime) {
    let graph = graph_of_text(&rt, rt.alloc(), PATH_OF_THREE);
    assert_few(&rt, fewest::<Echo>(rt.alloc(), &graph));
}

#[test]
fn all_runs_of_a_star(rt: HostRuntime) {
    let graph = graph_of_text(&rt, rt.alloc(), STAR);
    assert_text(&rt, ghs_ends_of(rt.alloc(), &graph), STAR_ENDS);
}
