//! Runs of worlds, step by step: what is counted, and the text at the end.
use crate::comparing::assert_same;
use crate::worlds::{branches_of, commit, do_all, hold, let_go, path, step_of, text_of, world_of};
use ghs_core::census::FragmentRow;
use ghs_core::event::Event;
use ghs_core::ledger::Ledger;
use ghs_graph::key::Key;
use ghs_report::report_text::ReportFault;
use ghs_report::run_text::run_text;
use ghs_test_graphs::graphs::{PAIR, PATH_OF_FIVE, PATH_OF_FOUR, TRIANGLE};
use ghs_world::world::World;
use peer_network::wake_set::WakeSet;
use peer_texts::trace::EVENT_LIMIT;
use std::alloc::Global;
use std::process::Abort;

const PAIR_TEXT: &str =
    "t 1 2 5\nw 5\nm connect=2 initiate=2 test=0 accept=0 reject=0 report=2 changeroot=0\ns 6 12\n";

/// A run of the two nodes but for its last event, with which node 1 halts.
const PAIR_RUN: [Event; 6] = [
    Event::Wake(1),
    Event::Wake(2),
    Event::Take(1, 0),
    Event::Take(2, 0),
    Event::Take(1, 0),
    Event::Take(2, 0),
];

const LAST: Event = Event::Take(1, 0);

fn fault_of(alloc: Global, world: &World) -> Option<ReportFault> {
    run_text(alloc, world).err()
}

fn assert_ledger(rt: &impl Abort, world: &World, ledger: &Ledger) {
    assert_same(rt, &world.ledger(), ledger);
}

fn assert_census(rt: &impl Abort, alloc: Global, world: &World, rows: &[FragmentRow]) {
    let census = world.census(alloc).expect(rt, "memory");
    assert_same(rt, &census.as_slice(), &rows);
}

fn assert_pair_text(rt: &impl Abort, alloc: Global, world: &World) {
    let text = text_of(rt, alloc, world);
    assert_same(rt, &text.as_slice(), &PAIR_TEXT.as_bytes());
}

/// Where a run goes on there is no text.
fn assert_goes_on(rt: &impl Abort, alloc: Global, world: &World) {
    let fault = fault_of(alloc, world);
    assert_same(rt, &fault, &Some(ReportFault::NotEnded));
}

/// The last step of the two nodes, the seventh: node 1 halts.
fn halt(rt: &impl Abort, alloc: Global, world: &mut World) {
    let step = step_of(rt, alloc, world, LAST);
    assert!(rt; step.number() == 7);
    assert!(rt; commit(rt, alloc, world, step).halted);
    assert!(rt; world.core_halted() == Some(1));
}

const PAIR_LEDGER: Ledger = Ledger {
    sent: [2, 2, 0, 0, 0, 2, 0],
    consumed: [2, 2, 0, 0, 0, 1, 0],
    requeued: 0,
    queued: 1,
    out: 0,
};

#[test]
fn two_nodes_by_tickets(rt: HostRuntime) {
    let alloc = rt.alloc();
    let mut world = world_of(&rt, alloc, PAIR, WakeSet::All, 7);
    do_all(&rt, alloc, &mut world, &PAIR_RUN);
    assert_goes_on(&rt, alloc, &world);
    halt(&rt, alloc, &mut world);
    assert_ledger(&rt, &world, &PAIR_LEDGER);
    assert_pair_text(&rt, alloc, &world);
    let_go(world);
}

/// The link of nodes 1 and 2 in the path.
const SHORT: Key = Key {
    weight: 5,
    a: 1,
    b: 2,
};

/// The link of nodes 2 and 3 in the path.
const LONG: Key = Key {
    weight: 7,
    a: 2,
    b: 3,
};

fn assert_branches(rt: &impl Abort, alloc: Global, world: &World, links: &[Key]) {
    assert_same(rt, &branches_of(rt, alloc, world).as_slice(), &links);
}

/// Three nodes in a row, all of which have woken.
fn awake(rt: &impl Abort, alloc: Global) -> World {
    let mut world = path(rt, alloc);
    let wakes = [Event::Wake(1), Event::Wake(2), Event::Wake(3)];
    do_all(rt, alloc, &mut world, &wakes);
    world
}

#[test]
fn nodes_wake(rt: HostRuntime) {
    let alloc = rt.alloc();
    let mut world = path(&rt, alloc);
    do_all(&rt, alloc, &mut world, &[Event::Wake(1)]);
    assert_branches(&rt, alloc, &world, &[SHORT]);
    do_all(&rt, alloc, &mut world, &[Event::Wake(2), Event::Wake(3)]);
    assert_branches(&rt, alloc, &world, &[SHORT, LONG]);
    let_go(world);
}

/// The fragment of nodes 1 and 2, and node 3.
const AWAKE: [FragmentRow; 2] = [
    FragmentRow {
        least: 1,
        level: 0,
        nodes: 2,
    },
    FragmentRow {
        least: 3,
        level: 0,
        nodes: 1,
    },
];

fn assert_fragment(rt: &impl Abort, alloc: Global, world: &World, v: u32, nodes: &[u32]) {
    assert!(rt; v >= 1 && v <= world.net().graph().nodes());
    let fragment = world.net().fragment(alloc, v).expect(rt, "memory");
    assert_same(rt, &fragment.as_slice(), &nodes);
}

#[test]
fn three_nodes_awake(rt: HostRuntime) {
    let alloc = rt.alloc();
    let world = awake(&rt, alloc);
    assert_census(&rt, alloc, &world, &AWAKE);
    assert!(rt; world.net().graph().nodes() == 3);
    assert_fragment(&rt, alloc, &world, 2, &[1, 2]);
    let_go(world);
}

/// Node 2 is out with a message; three Connects were sent.
const ONE_OUT: Ledger = Ledger {
    sent: [3, 0, 0, 0, 0, 0, 0],
    consumed: [0; 7],
    requeued: 0,
    queued: 2,
    out: 1,
};

/// Meanwhile node 1 has consumed a message and sent another one.
const ANOTHER_ACTED: Ledger = Ledger {
    sent: [3, 1, 0, 0, 0, 0, 0],
    consumed: [1, 0, 0, 0, 0, 0, 0],
    ..ONE_OUT
};

/// Node 2's message is put back.
const PUT_BACK: Ledger = Ledger {
    requeued: 1,
    queued: 3,
    out: 0,
    ..ANOTHER_ACTED
};

/// What is committed behind so many events.
fn assert_events(rt: &impl Abort, world: &World, from: usize, events: &[Event]) {
    assert!(rt; world.trace().get(from..) == Some(events));
}

/// While node 2 is out, node 1 acts; node 2's message waits, and is put back.
#[test]
fn one_out_while_another_acts(rt: HostRuntime) {
    let alloc = rt.alloc();
    let mut world = awake(&rt, alloc);
    let step = step_of(&rt, alloc, &mut world, Event::Take(2, 1));
    assert_ledger(&rt, &world, &ONE_OUT);
    do_all(&rt, alloc, &mut world, &[Event::Take(1, 0)]);
    assert_ledger(&rt, &world, &ANOTHER_ACTED);
    let _ = commit(&rt, alloc, &mut world, step);
    assert_ledger(&rt, &world, &PUT_BACK);
    assert_events(&rt, &world, 3, &[Event::Take(1, 0), Event::Take(2, 1)]);
    let_go(world);
}

/// A node's next event is made, if it has one.
fn make_next(rt: &impl Abort, alloc: Global, world: &mut World, v: u32, from: u32) {
    assert!(rt; v >= 1 && v <= world.graph().nodes());
    if let Some(event) = world.next_event(v, from) {
        do_all(rt, alloc, world, &[event]);
    }
}

/// Serves the nodes in turn, and the ports of each, until the run has ended.
fn run_in_turn(rt: &impl Abort, alloc: Global, world: &mut World, nodes: u32) {
    for turn in 0..60 {
        for v in 0..nodes {
            if !world.ended() {
                make_next(rt, alloc, world, v.saturating_add(1), turn % 3);
            }
        }
    }
    assert!(rt; world.ended());
}

/// A connected graph's nodes are one fragment at the end, of this level.
fn ends_at_level(rt: &impl Abort, alloc: Global, text: &str, nodes: u32, level: u8) {
    let mut world = world_of(rt, alloc, text, WakeSet::All, EVENT_LIMIT);
    run_in_turn(rt, alloc, &mut world, nodes);
    let least = 1;
    let row = FragmentRow {
        least,
        level,
        nodes,
    };
    assert_census(rt, alloc, &world, &[row]);
    let_go(world);
}

/// At the end each component is one fragment.
#[test]
fn fragments_at_the_end(rt: HostRuntime) {
    let alloc = rt.alloc();
    ends_at_level(&rt, alloc, TRIANGLE, 3, 1);
    ends_at_level(&rt, alloc, PATH_OF_FOUR, 4, 2);
    ends_at_level(&rt, alloc, PATH_OF_FIVE, 5, 2);
}

/// Makes an event at once, without a ticket.
fn make(rt: &impl Abort, alloc: Global, world: &mut World, event: Event) {
    match event {
        Event::Wake(v) => assert!(rt; v >= 1 && v <= world.graph().nodes()),
        Event::Take(v, port) => {
            assert!(rt; v >= 1 && v <= world.graph().nodes());
            assert!(rt; (port as usize) < world.graph().ports(v).len());
        }
    }
    assert!(rt; world.is_ready(event));
    assert!(rt; world.has_turn());
    world.make(alloc, event).expect(rt, "memory");
}

fn make_all(rt: &impl Abort, alloc: Global, world: &mut World, events: &[Event]) {
    for event in events {
        make(rt, alloc, world, *event);
    }
}

/// The same run without tickets has the same text, and has used as many numbers.
#[test]
fn two_nodes_at_once(rt: HostRuntime) {
    let alloc = rt.alloc();
    let mut world = world_of(&rt, alloc, PAIR, WakeSet::All, 8);
    make_all(&rt, alloc, &mut world, &PAIR_RUN);
    make_all(&rt, alloc, &mut world, &[LAST]);
    assert_pair_text(&rt, alloc, &world);
    hold(&rt, alloc, &mut world, Event::Take(2, 0), 8);
    let_go(world);
}
