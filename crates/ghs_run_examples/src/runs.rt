//! Runs whose events a schedule picks.
use crate::comparing::assert_same;
use crate::worlds::{check_out, let_go, world_of};
use ghs_core::event::Event;
use ghs_sched::fault::RunFault;
use ghs_sched::run::{RunEnd, run_seeded};
use ghs_test_graphs::graphs::PAIR;
use ghs_world::world::World;
use peer_network::wake_set::WakeSet;
use peer_schedule::schedule::Schedule;
use peer_texts::trace::EVENT_LIMIT;
use std::alloc::Global;
use std::process::Abort;

/// The run of the two nodes by seed 0.
const PAIR_RUN: [Event; 6] = [
    Event::Wake(2),
    Event::Take(1, 0),
    Event::Take(2, 0),
    Event::Take(1, 0),
    Event::Take(2, 0),
    Event::Take(1, 0),
];

/// The schedule of seed 0 runs the two nodes to their end.
fn run_pair(rt: &impl Abort, alloc: Global, world: &mut World, schedule: &mut Schedule) {
    let end = run_seeded(alloc, world, schedule);
    assert!(rt; end == Ok(RunEnd::Halted(1)));
    assert_same(rt, &world.trace(), &PAIR_RUN.as_slice());
}

fn pair_of(rt: &impl Abort, alloc: Global) -> World {
    world_of(rt, alloc, PAIR, WakeSet::All, EVENT_LIMIT)
}

/// The run is the same where tickets were out, and the words behind it are the schedule's next ones.
#[test]
fn tickets_come_back_before_a_run(rt: HostRuntime) {
    let alloc = rt.alloc();
    let mut world = pair_of(&rt, alloc);
    let _ = check_out(&rt, alloc, &mut world, Event::Wake(1));
    let mut schedule = Schedule::seeded(0);
    run_pair(&rt, alloc, &mut world, &mut schedule);
    assert!(rt; world.out_count() == 0);
    assert!(rt; schedule.pick(1000) == 806);
    let_go(world);
}

/// A run that has ended uses no word.
#[test]
fn a_run_that_has_ended_stays(rt: HostRuntime) {
    let alloc = rt.alloc();
    let mut world = pair_of(&rt, alloc);
    run_pair(&rt, alloc, &mut world, &mut Schedule::seeded(0));
    run_pair(&rt, alloc, &mut world, &mut Schedule::seeded(0));
    let_go(world);
}

fn assert_text(rt: &impl Abort, alloc: Global, fault: RunFault, text: &str) {
    let printed = format!(in alloc; "{fault}").expect(rt, "memory");
    assert_same(rt, &printed.as_str(), &text);
}

#[test]
fn texts_of_faults(rt: HostRuntime) {
    let alloc = rt.alloc();
    assert_text(&rt, alloc, RunFault::TurnLimit, "turn limit reached");
    let stalled = "no event is ready and the run has not ended";
    assert_text(&rt, alloc, RunFault::Stalled, stalled);
    let unforeseen = "a message met a state that has no rule";
    assert_text(&rt, alloc, RunFault::Unforeseen, unforeseen);
    assert_text(&rt, alloc, RunFault::Memory, "out of memory");
}
