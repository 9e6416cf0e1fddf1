//! Worlds of the five nodes, served ticket by ticket.
use ghs_core::event::Event;
use ghs_graph::graph::Graph;
use ghs_node::fault::NodeFault;
use ghs_refusing::orders::{Count, NONE, Turn, order, refuse, refuse_each, tell, turn_of};
use ghs_refusing::scenes::{
    events_of, events_of_run, five, has_ended, is_after, is_five, let_go, stands, world_after,
    world_of_after,
};
use ghs_report::run_text::run_text;
use ghs_sched::run::run_seeded;
use ghs_test_graphs::graphs::{HUB_AND_PAIR, PATH_OF_FIVE, PATH_OF_THREE};
use ghs_world::fault::{CommitFault, OutFault};
use ghs_world::ticket::{Step, Ticket};
use ghs_world::world::World;
use peer_network::wake_set::WakeSet;
use peer_schedule::schedule::Schedule;
use peer_texts::trace::EVENT_LIMIT;
use std::alloc::Global;
use std::process::Abort;
use std::test::Fail;

fn assert_opening(rt: &impl Abort, alloc: Global, world: World) {
    assert!(rt; is_five(alloc, world.graph()) && world.trace().is_empty());
    let_go(world);
}

/// The graph comes back, and opens then.
fn open_again(rt: &impl Abort, alloc: Global, graph: Graph) {
    assert!(rt; is_five(alloc, &graph));
    assert!(rt; World::open(alloc, graph, WakeSet::All, EVENT_LIMIT).is_ok());
}

fn open(rt: &impl Abort, alloc: Global, k: usize) -> Turn {
    let graph = five(alloc).expect(rt, "a graph");
    order(alloc, k);
    let answer = World::open(alloc, graph, WakeSet::All, EVENT_LIMIT);
    let turn = turn_of(alloc, k, &answer);
    match answer {
        Ok(world) => assert_opening(rt, alloc, world),
        Err((graph, _)) => open_again(rt, alloc, graph),
    }
    turn
}

/// An event's ticket.
fn out(rt: &impl Abort, alloc: Global, world: &mut World, event: Event) -> Ticket {
    world.check_out(alloc, event).ok().expect(rt, "a ticket")
}

/// Its step.
fn step_of(rt: &impl Abort, alloc: Global, ticket: Ticket) -> Step {
    ticket.perform(alloc).ok().expect(rt, "a step")
}

fn commit(rt: &impl Abort, alloc: Global, world: &mut World, step: Step) {
    assert!(rt; world.commit(alloc, step).is_ok());
}

/// Commits a step; refused, it comes back with the fault.
fn try_commit(alloc: Global, world: &mut World, step: Step) -> Result<(), (Step, CommitFault)> {
    match world.commit(alloc, step) {
        Ok(_) => Ok(()),
        Err(back) => Err(back),
    }
}

/// A world, its twin, an event that may happen in both, and the number that its ticket gets.
#[derive(Drop)]
struct Place {
    world: World,
    twin: World,
    event: Event,
    number: u64,
}

impl Place {
    /// Whether nothing has happened that isn't undone.
    fn stands(&self, alloc: Global) -> bool {
        stands(alloc, &self.world, &self.twin)
    }
}

/// The event's ticket in the world.
fn out_of_world(rt: &impl Abort, alloc: Global, place: &mut Place) -> Ticket {
    out(rt, alloc, &mut place.world, place.event)
}

/// The event's ticket in the twin.
fn out_of_twin(rt: &impl Abort, alloc: Global, place: &mut Place) -> Ticket {
    out(rt, alloc, &mut place.twin, place.event)
}

fn back_to_twin(rt: &impl Abort, place: &mut Place, ticket: Ticket) {
    assert!(rt; place.twin.give_back(ticket).is_ok());
}

fn commit_to_world(rt: &impl Abort, alloc: Global, place: &mut Place, step: Step) {
    commit(rt, alloc, &mut place.world, step);
}

/// The event's node reacts to its ticket, and the step is committed.
fn happen(rt: &impl Abort, alloc: Global, place: &mut Place, ticket: Ticket) {
    let step = step_of(rt, alloc, ticket);
    commit_to_world(rt, alloc, place, step);
}

/// Nothing went out; then the event does.
fn out_again(rt: &impl Abort, alloc: Global, place: &mut Place, fault: OutFault) -> Ticket {
    assert!(rt; fault == OutFault::Memory && place.stands(alloc));
    out_of_world(rt, alloc, place)
}

/// Nothing went out, and no number was used.
fn refuse_out(rt: &impl Abort, alloc: Global, place: &mut Place, k: usize) -> Turn {
    order(alloc, k);
    let answer = place.world.check_out(alloc, place.event);
    let turn = turn_of(alloc, k, &answer);
    let ticket = match answer {
        Ok(ticket) => ticket,
        Err(fault) => out_again(rt, alloc, place, fault),
    };
    assert!(rt; ticket.number() == place.number);
    happen(rt, alloc, place, ticket);
    turn
}

/// The ticket that came back is that of the place, and is still out; then its node reacts.
fn perform_again(
    rt: &impl Abort,
    alloc: Global,
    place: &Place,
    ticket: Ticket,
    fault: NodeFault,
) -> Step {
    assert!(rt; fault == NodeFault::Memory);
    assert!(rt; ticket.number() == place.number && ticket.event() == place.event);
    assert!(rt; place.stands(alloc));
    step_of(rt, alloc, ticket)
}

/// The ticket comes back, and it is still out.
fn refuse_perform(rt: &impl Abort, alloc: Global, place: &mut Place, k: usize) -> Turn {
    let ticket = out_of_world(rt, alloc, place);
    let other = out_of_twin(rt, alloc, place);
    order(alloc, k);
    let answer = ticket.perform(alloc);
    let turn = turn_of(alloc, k, &answer);
    let step = match answer {
        Ok(step) => step,
        Err((ticket, fault)) => perform_again(rt, alloc, place, ticket, fault),
    };
    back_to_twin(rt, place, other);
    commit_to_world(rt, alloc, place, step);
    turn
}

/// The step that came back is that of the place, and its ticket is still out; then it is committed.
fn commit_again(rt: &impl Abort, alloc: Global, place: &mut Place, step: Step, fault: CommitFault) {
    assert!(rt; fault == CommitFault::Memory);
    assert!(rt; step.number() == place.number && step.event() == place.event);
    assert!(rt; place.stands(alloc));
    commit_to_world(rt, alloc, place, step);
}

/// The step comes back, and its ticket is still out.
fn refuse_commit(rt: &impl Abort, alloc: Global, place: &mut Place, k: usize) -> Turn {
    let ticket = out_of_world(rt, alloc, place);
    let other = out_of_twin(rt, alloc, place);
    let step = step_of(rt, alloc, ticket);
    order(alloc, k);
    let answer = try_commit(alloc, &mut place.world, step);
    let turn = turn_of(alloc, k, &answer);
    if let Err((step, fault)) = answer {
        commit_again(rt, alloc, place, step, fault);
    }
    back_to_twin(rt, place, other);
    turn
}

/// Nothing has happened; then the event does.
fn make_again(rt: &impl Abort, alloc: Global, place: &mut Place) {
    assert!(rt; place.stands(alloc));
    let ticket = out_of_world(rt, alloc, place);
    happen(rt, alloc, place, ticket);
}

/// An event that happens at once.
fn refuse_make(rt: &impl Abort, alloc: Global, place: &mut Place, k: usize) -> Turn {
    assert!(rt; place.world.has_place(place.event));
    assert!(rt; place.world.is_ready(place.event) && place.world.has_turn());
    order(alloc, k);
    let answer = place.world.make(alloc, place.event);
    let turn = turn_of(alloc, k, &answer);
    if answer.is_err() {
        make_again(rt, alloc, place);
    }
    turn
}

/// The calls that make an event.
#[derive(Clone, Copy, PartialEq, Eq)]
enum Call {
    CheckOut,
    Perform,
    Commit,
    Make,
}

/// The world of the five nodes after these events.
fn after(rt: &impl Abort, alloc: Global, events: &[Event]) -> World {
    world_after(alloc, events).expect(rt, "a run")
}

/// The world of the graph of a text after these events.
fn after_of(rt: &impl Abort, alloc: Global, graph: &str, events: &[Event]) -> World {
    world_of_after(alloc, graph, events).expect(rt, "a run")
}

fn place_after(
    rt: &impl Abort,
    alloc: Global,
    graph: &str,
    events: &[Event],
    event: Event,
) -> Place {
    Place {
        world: after_of(rt, alloc, graph, events),
        twin: after_of(rt, alloc, graph, events),
        event,
        number: (events.len() as u64).saturating_add(1),
    }
}

/// The event happens in the twin too, and the world is as it is then.
fn assert_happened(rt: &impl Abort, alloc: Global, place: &mut Place) {
    let ticket = out_of_twin(rt, alloc, place);
    let step = step_of(rt, alloc, ticket);
    commit(rt, alloc, &mut place.twin, step);
    assert!(rt; place.stands(alloc));
}

/// Whether all links of a graph that is a tree are Branch.
fn has_tree(alloc: Global, world: &World) -> bool {
    match world.branches(alloc) {
        Ok(links) => links.as_slice() == world.graph().keys(),
        Err(_) => false,
    }
}

/// The run goes on to its end, with the graph's tree; that of the five nodes has one text.
fn end_run(rt: &impl Abort, alloc: Global, place: &mut Place) {
    let world = &mut place.world;
    assert!(rt; run_seeded(alloc, world, &mut Schedule::seeded(3)).is_ok());
    assert!(rt; world.ended() && has_tree(alloc, world));
    assert!(rt; world.graph().nodes() != 5 || has_ended(alloc, world));
}

/// Lets go of a place here, so that the way of its memory isn't in the proof of `serve`.
fn leave(_place: Place) {}

/// One event after these, with the k-th allocation of a call for it refused; then it happens, and the run goes on to its end.
fn serve(
    rt: &impl Abort,
    alloc: Global,
    graph: &str,
    events: &[Event],
    event: Event,
    call: Call,
    k: usize,
) -> Turn {
    let mut place = place_after(rt, alloc, graph, events, event);
    let turn = match call {
        Call::CheckOut => refuse_out(rt, alloc, &mut place, k),
        Call::Perform => refuse_perform(rt, alloc, &mut place, k),
        Call::Commit => refuse_commit(rt, alloc, &mut place, k),
        Call::Make => refuse_make(rt, alloc, &mut place, k),
    };
    assert_happened(rt, alloc, &mut place);
    end_run(rt, alloc, &mut place);
    leave(place);
    turn
}

/// Each event of a run in turn, with each allocation of a call for it refused.
fn serve_each(
    rt: &impl Abort,
    alloc: Global,
    graph: &str,
    call: Call,
    count: &mut Count,
) -> Result<(), Fail> {
    let events = events_of(alloc, graph).expect(rt, "a run");
    for (place, event) in events.iter().enumerate() {
        let before = &events[..place];
        refuse_each(alloc, count, |k| {
            serve(rt, alloc, graph, before, *event, call, k)
        })?;
    }
    Ok(())
}

/// A call by its name, and the text of the graph on which it is made.
#[derive(Clone, Copy)]
struct CallRow {
    name: &'static str,
    call: Call,
    graph: &'static str,
}

/// To perform takes memory only where more is sent than a node of the five nodes sends.
static CALLS: [CallRow; 4] = [
    CallRow {
        name: "World::check_out",
        call: Call::CheckOut,
        graph: PATH_OF_FIVE,
    },
    CallRow {
        name: "Ticket::perform",
        call: Call::Perform,
        graph: HUB_AND_PAIR,
    },
    CallRow {
        name: "World::commit",
        call: Call::Commit,
        graph: PATH_OF_FIVE,
    },
    CallRow {
        name: "World::make",
        call: Call::Make,
        graph: PATH_OF_FIVE,
    },
];

fn refuse_call<R: Print + Abort>(rt: &R, alloc: Global, row: &CallRow) -> Result<(), Fail> {
    let mut count = NONE;
    serve_each(rt, alloc, row.graph, row.call, &mut count)?;
    tell(rt, alloc, row.name, count)
}

fn refuse_calls<R: Print + Abort>(rt: &R, alloc: Global, rows: &[CallRow]) -> Result<(), Fail> {
    for row in rows {
        refuse_call(rt, alloc, row)?;
    }
    Ok(())
}

/// Each reaction of the five nodes with its first allocation to be refused: it has none.
fn perform_without_memory(rt: &impl Abort, alloc: Global) -> Result<(), Fail> {
    let mut count = NONE;
    serve_each(rt, alloc, PATH_OF_FIVE, Call::Perform, &mut count)?;
    assert!(rt; count == NONE);
    Ok(())
}

/// Nothing is out; then node 1 wakes.
fn wake_again(rt: &impl Abort, alloc: Global, world: &mut World, fault: OutFault) -> Ticket {
    assert!(rt; fault == OutFault::Memory && world.out_count() == 0);
    out(rt, alloc, world, Event::Wake(1))
}

/// Node 1 of three wakes, with the k-th allocation of its check-out refused; asked again it is ticket 1.
fn wake_of_three(rt: &impl Abort, alloc: Global, k: usize) -> Turn {
    let mut world = after_of(rt, alloc, PATH_OF_THREE, &[]);
    order(alloc, k);
    let answer = world.check_out(alloc, Event::Wake(1));
    let turn = turn_of(alloc, k, &answer);
    let ticket = match answer {
        Ok(ticket) => ticket,
        Err(fault) => wake_again(rt, alloc, &mut world, fault),
    };
    assert!(rt; ticket.number() == 1);
    let_go(world);
    turn
}

#[test]
fn events(host: HostRuntime) -> Result<(), Fail> {
    let (rt, alloc) = (&host, host.alloc());
    refuse_calls(rt, alloc, &CALLS)?;
    perform_without_memory(rt, alloc)?;
    refuse(
        rt,
        alloc,
        "World::check_out(Wake(1))",
        |k| wake_of_three(rt, alloc, k),
    )
}

/// What is asked of a world, and leaves it as it was.
#[derive(Clone, Copy)]
enum Asked {
    Ready,
    Branches,
    Census,
    Text,
}

fn ask_of(alloc: Global, world: &World, asked: Asked, k: usize) -> Turn {
    order(alloc, k);
    match asked {
        Asked::Ready => turn_of(alloc, k, &world.ready(alloc)),
        Asked::Branches => turn_of(alloc, k, &world.branches(alloc)),
        Asked::Census => turn_of(alloc, k, &world.census(alloc)),
        Asked::Text => turn_of(alloc, k, &run_text(alloc, world)),
    }
}

fn ask(rt: &impl Abort, alloc: Global, events: &[Event], asked: Asked, k: usize) -> Turn {
    let world = after(rt, alloc, events);
    let turn = ask_of(alloc, &world, asked, k);
    assert!(rt; is_after(alloc, &world, events));
    let_go(world);
    turn
}

static ASKED: [(&str, Asked); 4] = [
    ("World::ready", Asked::Ready),
    ("World::branches", Asked::Branches),
    ("World::census", Asked::Census),
    ("run_text", Asked::Text),
];

fn refuse_asked<R: Print + Abort>(
    rt: &R,
    alloc: Global,
    events: &[Event],
    rows: &[(&str, Asked)],
) -> Result<(), Fail> {
    for (name, asked) in rows {
        refuse(rt, alloc, name, |k| ask(rt, alloc, events, *asked, k))?;
    }
    Ok(())
}

#[test]
fn worlds(host: HostRuntime) -> Result<(), Fail> {
    let (rt, alloc) = (&host, host.alloc());
    refuse(rt, alloc, "World::open", |k| open(rt, alloc, k))?;
    let events = events_of_run(alloc).expect(rt, "a run");
    refuse_asked(rt, alloc, &events, &ASKED)
}
