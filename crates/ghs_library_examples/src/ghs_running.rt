//! Runs of GHS by a seed.
use crate::fault::Fault;
use crate::reading::{assert_text, graph_of_text};
use ghs_choices::schedule_kind::ScheduleKind;
use ghs_graph::graph::Graph;
use ghs_picking::picking::run_by_seed;
use ghs_report::report_text::report_text;
use ghs_test_graphs::graphs::TRIANGLE;
use ghs_world::world::World;
use peer_network::wake_set::WakeSet;
use std::alloc::Global;

/// The report of the run of GHS that a seed picks.
pub fn ghs_report(alloc: Global, graph: Graph, seed: u64) -> Result<Vec<u8>, Fault> {
    let mut world = World::open(alloc, graph, WakeSet::All, 1 << 40)?;
    run_by_seed(alloc, &mut world, ScheduleKind::Patient, seed)?;
    Ok(report_text(alloc, world.net())?)
}

/// All runs of the triangle send the same messages.
#[test]
fn a_run_of_the_triangle(rt: HostRuntime) {
    let graph = graph_of_text(&rt, rt.alloc(), TRIANGLE);
    assert_text(&rt, ghs_report(rt.alloc(), graph, 7), TRIANGLE_REPORT);
}

const TRIANGLE_REPORT: &str = "\
t 1 2 1
t 2 3 2
w 3
m connect=3 initiate=3 test=3 accept=0 reject=1 report=3 changeroot=0
s 13 21
";
