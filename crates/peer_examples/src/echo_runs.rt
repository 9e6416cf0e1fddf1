//! Seeded runs of the echo wave, and runs done again.
//!
//! The words of seed 0 are 5987356902031041503, 7051070477665621255, 6633766593972829180, 211316841551650330,
//! 9136120204379184874, 379361710973160858, 15813423377499357806, 15596884590815070553, ..
use crate::echo_nets::has_sent;
use crate::playing::{graph_of_text, leave, world_of};
use crate::runs::{THREE_WAVES, WAVE};
use echo::protocol::Echo;
use ghs_test_graphs::graphs::{PATH_OF_FIVE, PATH_OF_THREE, TWO_PAIRS_AND_NODE};
use peer_machine::event::Event;
use peer_network::wake_set::WakeSet;
use peer_runs::fault::RunFault;
use peer_runs::replay::replay;
use peer_runs::run::run_seeded;
use peer_runs::world::World;
use peer_schedule::fault::ReplayFault;
use peer_schedule::schedule::Schedule;
use peer_texts::trace::EVENT_LIMIT;
use std::alloc::Global;
use std::process::Abort;

/// The fault of events that can't be done again.
fn fault_of(
    rt: &impl Abort,
    alloc: Global,
    text: &str,
    wake: WakeSet,
    events: &[Event],
) -> Option<ReplayFault> {
    match replay::<Echo>(alloc, (), graph_of_text(rt, alloc, text), wake, events) {
        Ok(_) => None,
        Err((_, fault)) => Some(fault),
    }
}

/// A world's run comes to its end by a schedule, with no more events than so many.
fn run_to_end(
    rt: &impl Abort,
    alloc: Global,
    world: &mut World<Echo>,
    schedule: &mut Schedule,
    turns: u64,
) {
    let end = run_seeded(alloc, world, schedule, turns);
    assert!(rt; end == Ok(()));
    assert!(rt; world.ready_count() == 0);
}

/// What has happened in a world.
fn assert_trace(rt: &impl Abort, world: &World<Echo>, events: &[Event]) {
    assert_eq!(rt; world.net().trace(), events);
}

/// Seed 0 on the path of three: four messages, twice as many as there are links, and the next word is the eighth.
#[test]
fn a_seeded_run(rt: HostRuntime) {
    let alloc = rt.alloc();
    let mut world = world_of::<Echo>(&rt, alloc, PATH_OF_THREE, WakeSet::All);
    let mut schedule = Schedule::seeded(0);
    run_to_end(&rt, alloc, &mut world, &mut schedule, EVENT_LIMIT);
    assert_trace(&rt, &world, &THREE_WAVES);
    has_sent(&rt, world.net(), 4, 0);
    assert!(rt; schedule.pick(1000) == 553);
    leave(world);
}

/// From one end of a path: an Explore over each link, and an Echo back.
#[test]
fn only_the_first_may_wake(rt: HostRuntime) {
    let alloc = rt.alloc();
    let mut world = world_of::<Echo>(&rt, alloc, PATH_OF_THREE, WakeSet::First);
    let mut schedule = Schedule::seeded(0);
    run_to_end(&rt, alloc, &mut world, &mut schedule, EVENT_LIMIT);
    assert_trace(&rt, &world, &WAVE);
    has_sent(&rt, world.net(), 2, 2);
    assert!(rt; schedule.pick(1000) == 858);
    leave(world);
}

/// With so many turns the run has the first events of `THREE_WAVES`, and can be gone on with.
fn run_to_turn(
    rt: &impl Abort,
    alloc: Global,
    world: &mut World<Echo>,
    schedule: &mut Schedule,
    turns: u64,
) {
    let end = run_seeded(alloc, world, schedule, turns);
    assert!(rt; end == Err(RunFault::TurnLimit));
    assert!(rt; turns <= 7);
    assert_trace(rt, world, &THREE_WAVES[..turns as usize]);
}

/// One turn makes one event, and the run can be gone on with.
#[test]
fn a_turn_at_a_time(rt: HostRuntime) {
    let alloc = rt.alloc();
    let mut world = world_of::<Echo>(&rt, alloc, PATH_OF_THREE, WakeSet::All);
    let mut schedule = Schedule::seeded(0);
    for turns in 1..7 {
        run_to_turn(&rt, alloc, &mut world, &mut schedule, turns);
    }
    run_to_end(&rt, alloc, &mut world, &mut schedule, 7);
    assert_trace(&rt, &world, &THREE_WAVES);
    leave(world);
}

/// The event at a place among those that are ready.
fn assert_ready_at(rt: &impl Abort, world: &World<Echo>, place: usize, event: Event) {
    assert!(rt; place < world.ready_count());
    assert!(rt; world.ready_at(place) == event);
}

fn assert_not_ready(rt: &impl Abort, world: &World<Echo>, event: Event) {
    assert!(rt; !world.is_ready(event));
}

/// What is ready at the opening, in order.
#[test]
fn sleepers_that_may_wake_are_ready(rt: HostRuntime) {
    let alloc = rt.alloc();
    let world = world_of::<Echo>(&rt, alloc, TWO_PAIRS_AND_NODE, WakeSet::First);
    assert!(rt; world.ready_count() == 3);
    assert_ready_at(&rt, &world, 0, Event::Wake(1));
    assert_ready_at(&rt, &world, 1, Event::Wake(3));
    assert_ready_at(&rt, &world, 2, Event::Wake(5));
    assert_not_ready(&rt, &world, Event::Wake(2));
    assert_not_ready(&rt, &world, Event::Wake(0));
    assert_not_ready(&rt, &world, Event::Take(5, 0));
    assert!(rt; world.wake() == WakeSet::First);
    assert!(rt; world.into_graph().nodes() == 5);
}

/// The world that a run's events leave, done again.
fn done_again(
    rt: &impl Abort,
    alloc: Global,
    text: &str,
    wake: WakeSet,
    events: &[Event],
) -> World<Echo> {
    let graph = graph_of_text(rt, alloc, text);
    replay::<Echo>(alloc, (), graph, wake, events)
        .ok()
        .expect(rt, "a world")
}

/// Done again, a run leaves the same ledger.
#[test]
fn a_run_done_again(rt: HostRuntime) {
    let alloc = rt.alloc();
    let mut world = world_of::<Echo>(&rt, alloc, PATH_OF_FIVE, WakeSet::First);
    let mut schedule = Schedule::seeded(1);
    run_to_end(&rt, alloc, &mut world, &mut schedule, EVENT_LIMIT);
    has_sent(&rt, world.net(), 4, 4);
    let events = world.net().trace();
    let again = done_again(&rt, alloc, PATH_OF_FIVE, WakeSet::First, events);
    assert_trace(&rt, &again, events);
    has_sent(&rt, again.net(), 4, 4);
    leave(again);
    leave(world);
}

/// On the path 1-2-3 node 3 takes before anything is sent to it.
const EARLY: [Event; 3] = [Event::Wake(1), Event::Take(3, 0), Event::Take(2, 0)];

/// There is no node 4.
const UNKNOWN: [Event; 3] = [Event::Wake(1), Event::Take(2, 0), Event::Wake(4)];

/// On the path 1-2-3 the fault of these events is this one, or none.
fn assert_fault(
    rt: &impl Abort,
    alloc: Global,
    wake: WakeSet,
    events: &[Event],
    fault: Option<ReplayFault>,
) {
    let found = fault_of(rt, alloc, PATH_OF_THREE, wake, events);
    assert!(rt; found == fault);
}

fn assert_not_lawful(rt: &impl Abort, alloc: Global, wake: WakeSet, events: &[Event], first: u64) {
    let fault = Some(ReplayFault::NotLawful(first));
    assert_fault(rt, alloc, wake, events, fault);
}

/// The first event that isn't lawful is named, counted from 1.
#[test]
fn unlawful_events_are_named(rt: HostRuntime) {
    let alloc = rt.alloc();
    assert_not_lawful(&rt, alloc, WakeSet::All, &EARLY, 2);
    assert_not_lawful(&rt, alloc, WakeSet::First, &THREE_WAVES, 1);
    assert_not_lawful(&rt, alloc, WakeSet::All, &UNKNOWN, 3);
    assert_fault(&rt, alloc, WakeSet::First, &WAVE, None);
}

/// What a run's fault is said to be.
fn assert_text(rt: &impl Abort, alloc: Global, fault: RunFault, text: &str) {
    let printed = format!(in alloc; "{fault}").expect(rt, "memory");
    assert_eq!(rt; printed.as_str(), text);
}

#[test]
fn texts_of_faults(rt: HostRuntime) {
    let alloc = rt.alloc();
    assert_text(&rt, alloc, RunFault::TurnLimit, "turn limit reached");
    assert_text(&rt, alloc, RunFault::Memory, "out of memory");
}
