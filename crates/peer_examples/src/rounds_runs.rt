//! Runs by rounds.
//!
//! Those of the echo wave were reckoned by hand; `echo_runs` has the words of seed 0. That of Borůvka in step is what
//! `bench/any_rounds --trace` plays, which tells rounds by when messages were sent.
use crate::playing::{graph_of_text, leave};
use boruvka::protocol::Boruvka;
use echo::protocol::Echo;
use ghs_test_graphs::graphs::TRIANGLE;
use peer_machine::ends::Ends;
use peer_machine::event::Event;
use peer_machine::fixed::Fixed;
use peer_network::wake_set::WakeSet;
use peer_picking::rounds_run::run_rounds;
use peer_runs::fault::RunFault;
use peer_runs::world::World;
use peer_schedule::schedule::Schedule;
use std::alloc::Global;
use std::process::Abort;

/// The run of a seed by rounds, within some turns, on the triangle: it has these events and so many rounds, and stops so.
fn assert_run<P: Ends + Fixed>(
    rt: &impl Abort,
    alloc: Global,
    wake: WakeSet,
    seed: u64,
    turns: u64,
    events: &[Event],
    rounds: u64,
    stops: Result<(), RunFault>,
) {
    let graph = graph_of_text(rt, alloc, TRIANGLE);
    match World::<P>::open(alloc, P::setting(), graph, wake) {
        Ok(mut world) => {
            let (count, end) = run_rounds(alloc, &mut world, &mut Schedule::seeded(seed), turns);
            assert!(rt; end == stops);
            assert_eq!(rt; count, rounds);
            assert_eq!(rt; world.net().trace(), events);
            leave(world);
        }
        Err(_) => panic!(rt; "no memory"),
    }
}

/// Node 1 alone may wake, and asks both others: round 0. They ask each other: round 1. Each hears the other's question as its
/// answer, and answers node 1: round 2. It hears both: round 3. The words pick node 3 before node 2 in round 1 alone.
static ROUND_BY_ROUND: [Event; 7] = [
    Event::Wake(1),
    Event::Take(3, 1),
    Event::Take(2, 0),
    Event::Take(2, 1),
    Event::Take(3, 0),
    Event::Take(1, 0),
    Event::Take(1, 1),
];

#[test]
fn each_message_takes_one_round(rt: HostRuntime) {
    assert_run::<Echo>(
        &rt,
        rt.alloc(),
        WakeSet::First,
        0,
        7,
        &ROUND_BY_ROUND,
        3,
        Ok(()),
    );
}

/// The round of the event before which a run with so many turns stops.
static LAST_ROUNDS: [u64; 7] = [0, 0, 1, 1, 2, 2, 3];

/// With fewer turns the run has its first events, and no later round has begun.
fn assert_stopped(rt: &impl Abort, alloc: Global, turns: u64) {
    assert!(rt; turns < 7);
    assert_run::<Echo>(
        rt,
        alloc,
        WakeSet::First,
        0,
        turns,
        &ROUND_BY_ROUND[..turns as usize],
        LAST_ROUNDS[turns as usize],
        Err(RunFault::TurnLimit),
    );
}

#[test]
fn a_run_stops_within_a_round(rt: HostRuntime) {
    let alloc = rt.alloc();
    for turns in 0..7 {
        assert_stopped(&rt, alloc, turns);
    }
}

/// Borůvka in step, whose nodes all wake in round 0, by seed 1.
static IN_STEP: [Event; 12] = [
    Event::Wake(3),
    Event::Wake(2),
    Event::Wake(1),
    Event::Take(1, 0),
    Event::Take(2, 0),
    Event::Take(2, 1),
    Event::Take(3, 1),
    Event::Take(2, 0),
    Event::Take(3, 0),
    Event::Take(1, 1),
    Event::Take(2, 1),
    Event::Take(1, 0),
];

#[test]
fn all_wake_in_round_0(rt: HostRuntime) {
    assert_run::<Boruvka>(
        &rt,
        rt.alloc(),
        WakeSet::All,
        1,
        1 << 40,
        &IN_STEP,
        5,
        Ok(()),
    );
}
