//! Runs by rounds.
use crate::fixtures::graph_of_text;
use ghs_refusing::scenes::let_go;
use ghs_rounds::run::run_rounds;
use ghs_test_graphs::graphs::{PATH_OF_THREE, STAR_OF_NINE};
use ghs_world::world::World;
use peer_network::wake_set::WakeSet;
use peer_schedule::schedule::Schedule;
use peer_texts::trace::EVENT_LIMIT;
use std::alloc::Global;
use std::process::Abort;

/// How many rounds the run of a seed has to its end.
fn rounds_of(rt: &impl Abort, alloc: Global, text: &str, wake: WakeSet, seed: u64) -> u64 {
    let graph = graph_of_text(rt, alloc, text);
    let world = World::open(alloc, graph, wake, EVENT_LIMIT).ok();
    let mut world = world.expect(rt, "a world");
    let (rounds, end) = run_rounds(alloc, &mut world, &mut Schedule::seeded(seed));
    assert!(rt; end.is_ok());
    let_go(world);
    rounds
}

/// The runs of three seeds have so many rounds each.
fn assert_rounds(rt: &impl Abort, alloc: Global, text: &str, wake: WakeSet, rounds: u64) {
    for seed in 1..4 {
        let found = rounds_of(rt, alloc, text, wake, seed);
        assert_eq!(rt; found, rounds, "of {text:?}");
    }
}

/// As many rounds as `bench/rounds` counts, by a machine of its own.
#[test]
fn rounds_are_counted(rt: HostRuntime) {
    let alloc = rt.alloc();
    assert_rounds(&rt, alloc, PATH_OF_THREE, WakeSet::All, 4);
    assert_rounds(&rt, alloc, PATH_OF_THREE, WakeSet::First, 7);
    assert_rounds(&rt, alloc, STAR_OF_NINE, WakeSet::All, 4);
    assert_rounds(&rt, alloc, STAR_OF_NINE, WakeSet::First, 31);
}
