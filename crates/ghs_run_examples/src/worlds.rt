//! Worlds, from which nodes go out on tickets.
use crate::comparing::{assert_same, assert_same_of};
use ghs_core::event::Event;
use ghs_graph::key::Key;
use ghs_report::run_text::run_text;
use ghs_test_graphs::build::graph_of;
use ghs_test_graphs::graphs::{PATH_OF_THREE, TWO_PAIRS_AND_NODE};
use ghs_world::fault::OutFault;
use ghs_world::ticket::{Step, Ticket};
use ghs_world::woken::Committed;
use ghs_world::world::World;
use peer_network::wake_set::WakeSet;
use peer_texts::trace::EVENT_LIMIT;
use std::alloc::Global;
use std::process::Abort;

/// The opening world of the graph of a text.
pub fn world_of(rt: &impl Abort, alloc: Global, text: &str, wake: WakeSet, turns: u64) -> World {
    assert!(rt; turns >= 1 && turns <= EVENT_LIMIT);
    let graph = graph_of(alloc, text.as_bytes()).expect(rt, "a graph");
    World::open(alloc, graph, wake, turns)
        .ok()
        .expect(rt, "a world")
}

/// Lets go of a world here, so that its memory's way isn't in the proof of each test that has one.
pub fn let_go(_world: World) {}

/// The opening world of three nodes in a row, in which all may wake.
pub fn path(rt: &impl Abort, alloc: Global) -> World {
    world_of(rt, alloc, PATH_OF_THREE, WakeSet::All, EVENT_LIMIT)
}

/// Checks out an event, which isn't refused.
pub fn check_out(rt: &impl Abort, alloc: Global, world: &mut World, event: Event) -> Ticket {
    world.check_out(alloc, event).ok().expect(rt, "a ticket")
}

/// Why an event isn't checked out, if it isn't.
fn refusal_of(alloc: Global, world: &mut World, event: Event) -> Option<OutFault> {
    world.check_out(alloc, event).err()
}

/// Checks out an event, and its node reacts.
pub fn step_of(rt: &impl Abort, alloc: Global, world: &mut World, event: Event) -> Step {
    let ticket = check_out(rt, alloc, world, event);
    ticket.perform(alloc).ok().expect(rt, "a reaction")
}

/// Commits a step that isn't refused.
pub fn commit(rt: &impl Abort, alloc: Global, world: &mut World, step: Step) -> Committed {
    world.commit(alloc, step).ok().expect(rt, "a commit")
}

/// Checks out events, and performs and commits each.
pub fn do_all(rt: &impl Abort, alloc: Global, world: &mut World, events: &[Event]) {
    for event in events {
        let step = step_of(rt, alloc, world, *event);
        let _ = commit(rt, alloc, world, step);
    }
}

pub fn branches_of(rt: &impl Abort, alloc: Global, world: &World) -> Vec<Key> {
    world.branches(alloc).expect(rt, "memory")
}

pub fn text_of(rt: &impl Abort, alloc: Global, world: &World) -> Vec<u8> {
    run_text(alloc, world).ok().expect(rt, "a text")
}

/// An event isn't checked out, for this reason, or is.
fn assert_refusal(
    rt: &impl Abort,
    alloc: Global,
    world: &mut World,
    event: Event,
    fault: Option<OutFault>,
) {
    let found = refusal_of(alloc, world, event);
    assert_same_of(rt, &found, &fault, &event);
}

fn assert_refused(
    rt: &impl Abort,
    alloc: Global,
    world: &mut World,
    event: Event,
    fault: OutFault,
) {
    assert_refusal(rt, alloc, world, event, Some(fault));
}

#[test]
fn refused_events(rt: HostRuntime) {
    let alloc = rt.alloc();
    let mut world = path(&rt, alloc);
    assert_refused(&rt, alloc, &mut world, Event::Wake(4), OutFault::NoSuch);
    assert_refused(&rt, alloc, &mut world, Event::Take(2, 0), OutFault::Nothing);
    let_go(world);
}

/// Checks out an event, under this number, and never commits it.
pub fn hold(rt: &impl Abort, alloc: Global, world: &mut World, event: Event, number: u64) {
    let ticket = check_out(rt, alloc, world, event);
    assert!(rt; ticket.event() == event);
    assert_same(rt, &ticket.number(), &number);
}

fn take_back(rt: &impl Abort, world: &mut World, ticket: Ticket) {
    assert!(rt; world.give_back(ticket).is_ok());
}

/// With one turn left one node may be out; its number is used up when it is taken back, and the turn is there again.
#[test]
fn one_turn(rt: HostRuntime) {
    let alloc = rt.alloc();
    let mut world = world_of(&rt, alloc, PATH_OF_THREE, WakeSet::All, 1);
    let ticket = check_out(&rt, alloc, &mut world, Event::Wake(1));
    assert_refused(&rt, alloc, &mut world, Event::Wake(1), OutFault::Busy);
    assert_refused(&rt, alloc, &mut world, Event::Wake(2), OutFault::TurnLimit);
    take_back(&rt, &mut world, ticket);
    hold(&rt, alloc, &mut world, Event::Wake(2), 2);
    let_go(world);
}

/// The opening world of two pairs and a node, of which nodes 1, 3 and 5 may wake: those go out.
fn pieces_out(rt: &impl Abort, alloc: Global) -> World {
    let mut world = world_of(rt, alloc, TWO_PAIRS_AND_NODE, WakeSet::First, EVENT_LIMIT);
    for v in [2, 4] {
        assert_refused(rt, alloc, &mut world, Event::Wake(v), OutFault::Nothing);
    }
    for v in [1, 3, 5] {
        assert_refusal(rt, alloc, &mut world, Event::Wake(v), None);
    }
    world
}

fn assert_out(rt: &impl Abort, world: &World, count: u64) {
    assert_same(rt, &world.out_count(), &count);
}

#[test]
fn who_wakes_first(rt: HostRuntime) {
    let world = pieces_out(&rt, rt.alloc());
    assert_out(&rt, &world, 3);
    let_go(world);
}

#[test]
fn all_are_called_back(rt: HostRuntime) {
    let alloc = rt.alloc();
    let mut world = pieces_out(&rt, alloc);
    world.recall_all();
    assert_out(&rt, &world, 0);
    hold(&rt, alloc, &mut world, Event::Wake(1), 4);
    assert!(rt; branches_of(&rt, alloc, &world).is_empty());
    let_go(world);
}

fn assert_ready(rt: &impl Abort, alloc: Global, world: &World, events: &[Event]) {
    let ready = world.ready(alloc).expect(rt, "memory");
    assert!(rt; ready.as_slice() == events);
}

const WAKES: [Event; 3] = [Event::Wake(1), Event::Wake(2), Event::Wake(3)];

const TAKES: [Event; 3] = [Event::Take(1, 0), Event::Take(2, 0), Event::Take(2, 1)];

#[test]
fn nodes_are_ready_to_wake(rt: HostRuntime) {
    let alloc = rt.alloc();
    let world = path(&rt, alloc);
    assert_ready(&rt, alloc, &world, &WAKES);
    let_go(world);
}

/// A node's next event, by the port that is looked at first.
fn assert_next(rt: &impl Abort, world: &World, v: u32, from: u32, event: Option<Event>) {
    assert!(rt; v >= 1 && v <= world.graph().nodes());
    assert!(rt; world.next_event(v, from) == event);
}

#[test]
fn ready_events(rt: HostRuntime) {
    let alloc = rt.alloc();
    let mut world = path(&rt, alloc);
    do_all(&rt, alloc, &mut world, &WAKES);
    assert_ready(&rt, alloc, &world, &TAKES);
    assert!(rt; world.graph().nodes() == 3);
    assert_next(&rt, &world, 2, 1, Some(Event::Take(2, 1)));
    assert_next(&rt, &world, 2, 2, Some(Event::Take(2, 0)));
    assert_next(&rt, &world, 3, 0, None);
    let_go(world);
}
