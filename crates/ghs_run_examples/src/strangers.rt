//! Steps and tickets that a world doesn't take: they are of another world, or were called back.
use crate::comparing::assert_same;
use crate::worlds::{check_out, commit, do_all, hold, let_go, path, step_of, world_of};
use ghs_core::event::Event;
use ghs_test_graphs::graphs::HEAVIER_PATH_OF_THREE;
use ghs_world::fault::{BackFault, CommitFault};
use ghs_world::ticket::{Step, Ticket};
use ghs_world::world::World;
use peer_network::wake_set::WakeSet;
use peer_texts::trace::EVENT_LIMIT;
use std::alloc::Global;
use std::process::Abort;

/// The number of a step that isn't committed, and why it isn't.
fn refused_step(alloc: Global, world: &mut World, step: Step) -> Option<(u64, CommitFault)> {
    match world.commit(alloc, step) {
        Ok(_) => None,
        Err((step, fault)) => Some((step.number(), fault)),
    }
}

/// The number of a ticket that isn't taken back, and why it isn't.
fn refused_ticket(world: &mut World, ticket: Ticket) -> Option<(u64, BackFault)> {
    match world.give_back(ticket) {
        Ok(()) => None,
        Err((ticket, fault)) => Some((ticket.number(), fault)),
    }
}

/// A step isn't committed: its number, and why.
fn assert_step_refused(
    rt: &impl Abort,
    alloc: Global,
    world: &mut World,
    step: Step,
    why: (u64, CommitFault),
) {
    let refused = refused_step(alloc, world, step);
    assert_same(rt, &refused, &Some(why));
}

/// A ticket isn't taken back: its number, and why.
fn assert_ticket_refused(
    rt: &impl Abort,
    world: &mut World,
    ticket: Ticket,
    why: (u64, BackFault),
) {
    let refused = refused_ticket(world, ticket);
    assert_same(rt, &refused, &Some(why));
}

/// Nothing is committed, and one ticket is out.
fn assert_one_is_out(rt: &impl Abort, world: &World) {
    assert!(rt; world.trace().is_empty());
    assert_same(rt, &world.out_count(), &1);
}

/// A number is given out, and its ticket taken back.
fn use_a_number(rt: &impl Abort, alloc: Global, world: &mut World, event: Event) {
    let ticket = check_out(rt, alloc, world, event);
    let refused = refused_ticket(world, ticket);
    assert!(rt; refused.is_none());
}

/// Nothing but one event is committed.
fn assert_only(rt: &impl Abort, world: &World, event: Event) {
    assert!(rt; world.trace() == [event].as_slice());
}

/// A step of another world of three nodes in a row, after some events.
fn step_elsewhere(rt: &impl Abort, alloc: Global, events: &[Event], event: Event) -> Step {
    let mut other = path(rt, alloc);
    do_all(rt, alloc, &mut other, events);
    let step = step_of(rt, alloc, &mut other, event);
    let_go(other);
    step
}

#[test]
fn a_step_that_was_called_back(rt: HostRuntime) {
    let alloc = rt.alloc();
    let mut world = path(&rt, alloc);
    let step = step_of(&rt, alloc, &mut world, Event::Wake(1));
    world.recall_all();
    hold(&rt, alloc, &mut world, Event::Wake(1), 2);
    let why = (1, CommitFault::UnknownTicket);
    assert_step_refused(&rt, alloc, &mut world, step, why);
    assert_one_is_out(&rt, &world);
    let_go(world);
}

/// A ticket of another world of three nodes in a row.
fn ticket_elsewhere(rt: &impl Abort, alloc: Global, event: Event) -> Ticket {
    let mut other = path(rt, alloc);
    let ticket = check_out(rt, alloc, &mut other, event);
    let_go(other);
    ticket
}

#[test]
fn another_event_under_the_number_of_a_ticket(rt: HostRuntime) {
    let alloc = rt.alloc();
    let mut world = path(&rt, alloc);
    hold(&rt, alloc, &mut world, Event::Wake(1), 1);
    let ticket = ticket_elsewhere(&rt, alloc, Event::Wake(2));
    assert_ticket_refused(&rt, &mut world, ticket, (1, BackFault::Altered));
    assert_one_is_out(&rt, &world);
    let_go(world);
}

#[test]
fn another_event_under_the_number_of_a_step(rt: HostRuntime) {
    let alloc = rt.alloc();
    let mut world = path(&rt, alloc);
    hold(&rt, alloc, &mut world, Event::Wake(1), 1);
    let step = step_elsewhere(&rt, alloc, &[], Event::Wake(2));
    let why = (1, CommitFault::Altered);
    assert_step_refused(&rt, alloc, &mut world, step, why);
    assert_one_is_out(&rt, &world);
    let_go(world);
}

/// A step of a twin world is committed, and the twin still holds its ticket.
fn commit_of_a_twin(rt: &impl Abort, alloc: Global, world: &mut World, event: Event) {
    let mut twin = path(rt, alloc);
    let step = step_of(rt, alloc, &mut twin, event);
    let _ = commit(rt, alloc, world, step);
    assert_one_is_out(rt, &twin);
    let_go(twin);
}

/// A step with equal number, event, node and work is the same step, whichever world it is of.
#[test]
fn twins(rt: HostRuntime) {
    let alloc = rt.alloc();
    let mut world = path(&rt, alloc);
    let own = step_of(&rt, alloc, &mut world, Event::Wake(1));
    commit_of_a_twin(&rt, alloc, &mut world, Event::Wake(1));
    let why = (1, CommitFault::UnknownTicket);
    assert_step_refused(&rt, alloc, &mut world, own, why);
    assert_only(&rt, &world, Event::Wake(1));
    let_go(world);
}

/// The event, its number and its message are equal, but node 1 is awake in one world and asleep in the other.
#[test]
fn twins_that_went_apart(rt: HostRuntime) {
    let alloc = rt.alloc();
    let mut world = path(&rt, alloc);
    do_all(&rt, alloc, &mut world, &[Event::Wake(2)]);
    use_a_number(&rt, alloc, &mut world, Event::Wake(3));
    hold(&rt, alloc, &mut world, Event::Take(1, 0), 3);
    let events = [Event::Wake(2), Event::Wake(1)];
    let step = step_elsewhere(&rt, alloc, &events, Event::Take(1, 0));
    let why = (3, CommitFault::Altered);
    assert_step_refused(&rt, alloc, &mut world, step, why);
    assert_only(&rt, &world, Event::Wake(2));
    let_go(world);
}

/// A step of a world in which a link of the path is heavier.
fn step_of_another_weight(rt: &impl Abort, alloc: Global, event: Event) -> Step {
    let text = HEAVIER_PATH_OF_THREE;
    let mut other = world_of(rt, alloc, text, WakeSet::All, EVENT_LIMIT);
    let step = step_of(rt, alloc, &mut other, event);
    let_go(other);
    step
}

#[test]
fn a_world_of_another_weight(rt: HostRuntime) {
    let alloc = rt.alloc();
    let mut world = path(&rt, alloc);
    hold(&rt, alloc, &mut world, Event::Wake(1), 1);
    let step = step_of_another_weight(&rt, alloc, Event::Wake(1));
    let why = (1, CommitFault::Altered);
    assert_step_refused(&rt, alloc, &mut world, step, why);
    let_go(world);
}
