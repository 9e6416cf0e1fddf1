//! Runs of any protocol by a seed.
use crate::fault::Fault;
use crate::reading::{assert_text, graph_of_text};
use echo::protocol::Echo;
use ghs_choices::schedule_kind::ScheduleKind;
use ghs_graph::graph::Graph;
use ghs_test_graphs::graphs::PATH_OF_THREE;
use peer_machine::ends::FindsTree;
use peer_machine::fixed::Fixed;
use peer_network::wake_set::WakeSet;
use peer_report::report_text::run_text;
use peer_report::run::run_by_seed;
use peer_words::spoken::Spoken;
use std::alloc::Global;

/// The report of the run that a seed picks, of any protocol that finds links and has words.
pub fn report_of<P: FindsTree + Fixed + Spoken>(
    alloc: Global,
    graph: Graph,
    seed: u64,
) -> Result<Vec<u8>, Fault> {
    let kind = ScheduleKind::Seeded;
    let setting = P::setting();
    let (world, _) = run_by_seed::<P>(alloc, setting, graph, WakeSet::First, kind, seed, 1 << 40)?;
    Ok(run_text(alloc, &world)?)
}

/// On the path 1-2-3 node 1 alone wakes by itself: two Explores go out, and two Echoes come back.
#[test]
fn the_wave_on_a_path(rt: HostRuntime) {
    let graph = graph_of_text(&rt, rt.alloc(), PATH_OF_THREE);
    let found = report_of::<Echo>(rt.alloc(), graph, 7);
    assert_text(
        &rt,
        found,
        "t 1 2 5\nt 2 3 7\nw 12\nm explore=2 echo=2\ns 4 4\n",
    );
}
