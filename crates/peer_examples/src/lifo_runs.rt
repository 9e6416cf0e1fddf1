//! Runs that take first what was sent last.
//!
//! Those of the echo wave were reckoned by hand; `echo_runs` has the words of seed 0. That of Borůvka in step is what
//! `bench/lifo --trace` plays.
use crate::playing::{graph_of_text, leave};
use boruvka::protocol::Boruvka;
use echo::protocol::Echo;
use ghs_test_graphs::graphs::{PATH_OF_THREE, TRIANGLE, TWO_PAIRS_AND_NODE};
use peer_machine::ends::Ends;
use peer_machine::event::Event;
use peer_machine::fixed::Fixed;
use peer_network::wake_set::WakeSet;
use peer_picking::lifo_run::run_lifo;
use peer_runs::fault::RunFault;
use peer_runs::world::World;
use peer_schedule::schedule::Schedule;
use std::alloc::Global;
use std::process::Abort;

/// The run by a schedule of the graph of a text, which has these events and stops so.
fn assert_run<P: Ends + Fixed>(
    rt: &impl Abort,
    alloc: Global,
    text: &str,
    wake: WakeSet,
    schedule: &mut Schedule,
    turns: u64,
    events: &[Event],
    stops: Result<(), RunFault>,
) {
    let graph = graph_of_text(rt, alloc, text);
    match World::<P>::open(alloc, P::setting(), graph, wake) {
        Ok(mut world) => {
            let end = run_lifo(alloc, &mut world, schedule, turns);
            assert!(rt; end == stops);
            assert_eq!(rt; world.net().trace(), events);
            leave(world);
        }
        Err(_) => panic!(rt; "no memory"),
    }
}

/// On the triangle, whose node 1 alone may wake: it asks node 2 and then node 3, which asks node 2, which asks node 1. Node 2
/// hears last what was sent first. Then the echoes come back.
static ROUND_THE_TRIANGLE: [Event; 7] = [
    Event::Wake(1),
    Event::Take(3, 1),
    Event::Take(2, 1),
    Event::Take(1, 0),
    Event::Take(2, 0),
    Event::Take(3, 0),
    Event::Take(1, 1),
];

/// No word but that of the wake is used: the next one is the second.
#[test]
fn what_was_sent_last_comes_first(rt: HostRuntime) {
    let alloc = rt.alloc();
    let mut schedule = Schedule::seeded(0);
    assert_run::<Echo>(
        &rt,
        alloc,
        TRIANGLE,
        WakeSet::First,
        &mut schedule,
        7,
        &ROUND_THE_TRIANGLE,
        Ok(()),
    );
    assert!(rt; schedule.pick(1000) == 255);
}

/// Of the wakes of nodes 1 to 5, of 1, 2 and 5, and of 5 the words of seed 0 pick the places 3, 1 and 0; what a wake sends
/// is heard before the next one.
static WAVE_BY_WAVE: [Event; 7] = [
    Event::Wake(4),
    Event::Take(3, 0),
    Event::Take(4, 0),
    Event::Wake(2),
    Event::Take(1, 0),
    Event::Take(2, 0),
    Event::Wake(5),
];

/// The next word is the fourth.
#[test]
fn words_pick_wakes_alone(rt: HostRuntime) {
    let alloc = rt.alloc();
    let mut schedule = Schedule::seeded(0);
    assert_run::<Echo>(
        &rt,
        alloc,
        TWO_PAIRS_AND_NODE,
        WakeSet::All,
        &mut schedule,
        1 << 40,
        &WAVE_BY_WAVE,
        Ok(()),
    );
    assert!(rt; schedule.pick(1000) == 330);
}

/// With fewer turns the run has its first events.
fn assert_stopped(rt: &impl Abort, alloc: Global, turns: u64) {
    assert!(rt; turns < 7);
    assert_run::<Echo>(
        rt,
        alloc,
        TWO_PAIRS_AND_NODE,
        WakeSet::All,
        &mut Schedule::seeded(0),
        turns,
        &WAVE_BY_WAVE[..turns as usize],
        Err(RunFault::TurnLimit),
    );
}

#[test]
fn a_run_stops_at_its_turns(rt: HostRuntime) {
    let alloc = rt.alloc();
    for turns in 0..7 {
        assert_stopped(&rt, alloc, turns);
    }
}

/// Borůvka in step on the path 1-2-3, whose node 2 wakes first, by seed 2. Node 1 sends a Connect and an Initiate to one port,
/// where they are taken in their order.
static TWO_AT_ONE_PORT: [Event; 9] = [
    Event::Wake(2),
    Event::Take(1, 0),
    Event::Take(2, 0),
    Event::Take(2, 0),
    Event::Take(3, 0),
    Event::Take(2, 1),
    Event::Take(3, 0),
    Event::Take(2, 1),
    Event::Take(1, 0),
];

#[test]
fn a_port_is_emptied_in_its_order(rt: HostRuntime) {
    assert_run::<Boruvka>(
        &rt,
        rt.alloc(),
        PATH_OF_THREE,
        WakeSet::All,
        &mut Schedule::seeded(2),
        1 << 40,
        &TWO_AT_ONE_PORT,
        Ok(()),
    );
}
