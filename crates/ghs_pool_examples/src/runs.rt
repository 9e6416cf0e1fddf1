//! Runs of workers, with ample memory.
ghost use Rattle.std.specs.Prelude.{◌≡◌};
ghost use Rattle.ghs_pool.specs.Shop.{IsTold};

use ghs_lines::numbers::put_number;
use ghs_pool::desk::Desk;
use ghs_pool::end::PoolFault;
use ghs_pool::gate::{Gate, OpenGate, Tally};
use ghs_pool::shop::Shop;
use ghs_pool::workers::{run_watched, run_workers};
use ghs_sched::run::RunEnd;
use ghs_shared::board::{Board, Publisher, Reader};
use ghs_shared::progress::Progress;
use ghs_test_graphs::build::graph_of;
use ghs_test_graphs::graphs::{PAIR, PATH_OF_FIVE, PATH_OF_THREE};
use ghs_world::ticket::Step;
use ghs_world::world::World;
use peer_network::event::Event;
use peer_network::wake_set::WakeSet;
use peer_texts::trace::EVENT_LIMIT;
use std::alloc::{AllocError, Global};
use std::process::Abort;
use std::sync::Wait;
use std::sync::atomic::{AtomicU64, Ordering};
use std::thread;
use std::thread::Threads;

/// The opening world of the graph of a text.
fn world_of(rt: &impl Abort, alloc: Global, text: &[u8]) -> World {
    let graph = graph_of(alloc, text).expect(rt, "a graph");
    let world = World::open(alloc, graph, WakeSet::All, EVENT_LIMIT).ok();
    world.expect(rt, "a world")
}

/// Lets go of a world here, so that its memory's way isn't in the proof of each test that has one.
fn let_go(_world: World) {}

/// Checks out an event, and its node reacts.
fn step_of(rt: &impl Abort, alloc: Global, world: &mut World, event: Event) -> Step {
    let ticket = world.check_out(alloc, event).ok().expect(rt, "a ticket");
    ticket.perform(alloc).ok().expect(rt, "a step")
}

fn make(rt: &impl Abort, alloc: Global, world: &mut World, event: Event) {
    let step = step_of(rt, alloc, world, event);
    assert!(rt; world.commit(alloc, step).is_ok());
}

const BEGUN: [Event; 2] = [Event::Wake(2), Event::Wake(4)];

/// Does events, and leaves one more out.
fn begin(rt: &impl Abort, alloc: Global, world: &mut World) {
    for event in &BEGUN {
        make(rt, alloc, world, *event);
    }
    assert!(rt; world.check_out(alloc, Event::Wake(1)).is_ok());
}

/// Runs a world on to its end.
fn run<G: Gate + Sync, R: Threads + Wait + Sync + Abort>(
    rt: &R,
    alloc: Global,
    world: World,
    workers: u32,
    gate: &G,
) -> (World, RunEnd) {
    assert!(rt; workers >= 1 && workers <= 64);
    let (world, end) = run_workers(rt, alloc, world, workers, gate);
    (world, end.ok().expect(rt, "an end"))
}

fn assert_goes_on(rt: &impl Abort, world: &World) {
    assert!(rt; world.trace().starts_with(&BEGUN));
    assert_eq!(rt; world.out_count(), 0);
}

fn go_on<R: Threads + Wait + Sync + Abort>(rt: &R, alloc: Global, workers: u32) {
    let mut world = world_of(rt, alloc, PATH_OF_FIVE.as_bytes());
    begin(rt, alloc, &mut world);
    let (world, _) = run(rt, alloc, world, workers, &OpenGate);
    assert_goes_on(rt, &world);
    let_go(world);
}

#[test]
fn a_run_goes_on_from_its_world(rt: HostRuntime) {
    for workers in [1u32, 2, 8] {
        go_on(&rt, rt.alloc(), workers);
    }
}

/// Holds ticket 1 until ticket 2 is out and ticket 2 until ticket 1 is, and notes what came.
#[derive(Drop)]
struct Hold {
    first: AtomicU64,
    second: AtomicU64,
    noted: AtomicU64,
}

impl Hold {
    fn new() -> Hold {
        Hold {
            first: AtomicU64::new(0),
            second: AtomicU64::new(0),
            noted: AtomicU64::new(0),
        }
    }

    /// Notes that the other ticket came, once it has come.
    fn await_other(&self, other: &AtomicU64) {
        for _ in 0..10_000_000u64 {
            if other.load(Ordering::SeqCst) == 1 {
                self.noted.fetch_add(1, Ordering::SeqCst);
                return;
            }
            thread::yield_now();
        }
    }
}

impl Gate for Hold {
    fn between(&self, ticket: u64) {
        if ticket == 1 {
            self.first.store(1, Ordering::SeqCst);
            self.await_other(&self.second);
        }
        if ticket == 2 {
            self.second.store(1, Ordering::SeqCst);
            self.await_other(&self.first);
        }
    }
}

fn assert_noted(rt: &impl Abort, noted: &AtomicU64, want: u64) {
    assert_eq!(rt; noted.load(Ordering::SeqCst), want);
}

#[test]
fn two_nodes_are_out_at_once(rt: HostRuntime) {
    let gate = Hold::new();
    let world = world_of(&rt, rt.alloc(), PAIR.as_bytes());
    let (world, _) = run(&rt, rt.alloc(), world, 2, &gate);
    let_go(world);
    assert_noted(&rt, &gate.noted, 2);
}

/// Holds ticket 1 and then each hundredth, up to 500, until another worker comes with a ticket too. The thread that holds it
/// stands here, so whoever comes meanwhile is another.
#[derive(Drop)]
struct Meeting {
    came: AtomicU64,
    met: AtomicU64,
}

impl Meeting {
    fn new() -> Meeting {
        Meeting {
            came: AtomicU64::new(0),
            met: AtomicU64::new(0),
        }
    }
}

impl Gate for Meeting {
    fn between(&self, ticket: u64) {
        let before = self.came.fetch_add(1, Ordering::SeqCst);
        if ticket > 500 || (ticket != 1 && ticket % 100 != 0) {
            return;
        }
        for _ in 0..10_000_000u64 {
            if self.came.load(Ordering::SeqCst) > before.saturating_add(1) {
                self.met.fetch_add(1, Ordering::SeqCst);
                return;
            }
            thread::yield_now();
        }
    }
}

/// The first line of a text.
fn first_line(alloc: Global, nodes: u32, links: u32) -> Result<Vec<u8>, AllocError> {
    let mut text = Vec::from_slice(alloc, b"p sp ")?;
    put_number(&mut text, nodes as u128)?;
    text.push(b' ')?;
    put_number(&mut text, links as u128)?;
    Ok(text)
}

/// A link's line behind a text.
fn put_link(text: &mut Vec<u8>, a: u32, b: u32, weight: u64) -> Result<(), AllocError> {
    text.extend_from_slice(b"\na ")?;
    put_number(text, a as u128)?;
    text.push(b' ')?;
    put_number(text, b as u128)?;
    text.push(b' ')?;
    put_number(text, weight as u128)
}

/// A ring; its weights turn three times.
fn ring(alloc: Global, nodes: u32) -> Result<Vec<u8>, AllocError> {
    let mut text = first_line(alloc, nodes, nodes)?;
    for v in 1..=nodes {
        let next = if v < nodes { v.saturating_add(1) } else { 1 };
        put_link(&mut text, v, next, v as u64 * 7919 % 30_000)?;
    }
    Ok(text)
}

/// The opening world of a ring of 1,100 nodes.
fn world_of_ring(rt: &impl Abort, alloc: Global) -> World {
    let text = ring(alloc, 1_100).expect(rt, "a text");
    world_of(rt, alloc, &text)
}

/// While a ticket up to the 500th is held, others can't have all of the 1,100 nodes out: so somebody else finds one.
#[test]
fn eight_workers_hold_two_tickets_at_once(rt: HostRuntime) {
    let gate = Meeting::new();
    let world = world_of_ring(&rt, rt.alloc());
    let (world, _) = run(&rt, rt.alloc(), world, 8, &gate);
    let_go(world);
    assert_noted(&rt, &gate.met, 6);
}

/// Counts the tickets that were performed, the events that the workers say they made, and those beside another's.
#[derive(Drop)]
struct Count {
    tickets: AtomicU64,
    commits: AtomicU64,
    beside: AtomicU64,
}

impl Count {
    fn new() -> Count {
        Count {
            tickets: AtomicU64::new(0),
            commits: AtomicU64::new(0),
            beside: AtomicU64::new(0),
        }
    }
}

impl Gate for Count {
    fn between(&self, _ticket: u64) {
        self.tickets.fetch_add(1, Ordering::SeqCst);
    }

    fn ended(&self, tally: Tally) {
        self.commits.fetch_add(tally.commits, Ordering::SeqCst);
        self.beside.fetch_add(tally.beside, Ordering::SeqCst);
    }
}

/// A star of node 1 and of leaves from node 2 on, each link as heavy as its leaf's number.
fn star(alloc: Global, nodes: u32) -> Result<Vec<u8>, AllocError> {
    let mut text = first_line(alloc, nodes, nodes.saturating_sub(1))?;
    for leaf in 2..=nodes {
        put_link(&mut text, 1, leaf, leaf as u64)?;
    }
    Ok(text)
}

/// The workers say that they made so many events, and one alone none beside another's.
fn assert_counted(rt: &impl Abort, gate: &Count, workers: u32, events: u64) {
    assert_eq!(rt; gate.commits.load(Ordering::SeqCst), events);
    assert!(rt; workers > 1 || gate.beside.load(Ordering::SeqCst) == 0);
}

/// How many events were those of node 1.
fn events_of_first(world: &World) -> u64 {
    let is_of_first = |event: &&Event| matches!(event, Event::Wake(1) | Event::Take(1, _));
    world.trace().iter().filter(is_of_first).count() as u64
}

/// The graph's run by so many workers, its events, the tickets, and how many events were those of node 1.
fn count_tickets<R: Threads + Wait + Sync + Abort>(
    rt: &R,
    alloc: Global,
    text: &[u8],
    workers: u32,
) -> (u64, u64, u64) {
    let gate = Count::new();
    let world = world_of(rt, alloc, text);
    let (world, _) = run(rt, alloc, world, workers, &gate);
    let events = world.trace().len() as u64;
    assert_counted(rt, &gate, workers, events);
    let of_first = events_of_first(&world);
    let_go(world);
    (events, gate.tickets.load(Ordering::SeqCst), of_first)
}

fn assert_hub_goes_out<R: Threads + Wait + Sync + Abort>(
    rt: &R,
    alloc: Global,
    text: &[u8],
    workers: u32,
) {
    let (events, tickets, of_hub) = count_tickets(rt, alloc, text, workers);
    assert!(rt; of_hub > 1_100 && of_hub <= events);
    let least = events.saturating_sub(of_hub.div_ceil(2));
    assert!(rt; tickets >= least);
    assert!(rt; workers > 1 || tickets == least);
}

/// A node of 1,025 to 2,048 ports goes out on a ticket in every second of its events, and makes the others at once.
#[test]
fn a_hub_goes_out_in_every_second_event(rt: HostRuntime) {
    let text = star(rt.alloc(), 1_101).expect(&rt, "a text");
    for workers in [1u32, 2, 8] {
        assert_hub_goes_out(&rt, rt.alloc(), &text, workers);
    }
}

/// Two nodes with so many links, each as heavy as its place among them.
fn parallel(alloc: Global, links: u32) -> Result<Vec<u8>, AllocError> {
    let mut text = first_line(alloc, 2, links)?;
    for weight in 1..=links {
        put_link(&mut text, 1, 2, weight as u64)?;
    }
    Ok(text)
}

fn assert_hubs_go_out<R: Threads + Wait + Sync + Abort>(rt: &R, alloc: Global, text: &[u8]) {
    let (events, tickets, of_first) = count_tickets(rt, alloc, text, 1);
    let of_second = events.saturating_sub(of_first);
    assert!(rt; of_first >= 2 && of_second >= 2);
    assert_eq!(rt; tickets, (of_first / 2).saturating_add(of_second / 2));
}

/// Two nodes of 1,025 ports, and nobody else: half of their events go out on tickets, which none did once.
#[test]
fn two_hubs_alone_go_out(rt: HostRuntime) {
    let text = parallel(rt.alloc(), 1_025).expect(&rt, "a text");
    assert_hubs_go_out(&rt, rt.alloc(), &text);
}

const PAIR_RUN: [Event; 7] = [
    Event::Wake(1),
    Event::Wake(2),
    Event::Take(1, 0),
    Event::Take(2, 0),
    Event::Take(2, 0),
    Event::Take(1, 0),
    Event::Take(1, 0),
];

const PATH_RUN: [Event; 14] = [
    Event::Wake(1),
    Event::Wake(2),
    Event::Take(1, 0),
    Event::Take(2, 0),
    Event::Take(2, 0),
    Event::Take(1, 0),
    Event::Wake(3),
    Event::Take(2, 1),
    Event::Take(3, 0),
    Event::Take(3, 0),
    Event::Take(2, 1),
    Event::Take(3, 0),
    Event::Take(2, 1),
    Event::Take(2, 0),
];

fn assert_halted(rt: &impl Abort, end: RunEnd, v: u32) {
    assert_eq!(rt; end, RunEnd::Halted(v));
}

fn assert_trace(rt: &impl Abort, world: &World, events: &[Event]) {
    assert!(rt; world.trace() == events);
}

/// The graph's run by one worker halts at a node, and its events are these.
fn assert_run_by_one<R: Threads + Wait + Sync + Abort>(
    rt: &R,
    alloc: Global,
    text: &[u8],
    v: u32,
    events: &[Event],
) {
    let world = world_of(rt, alloc, text);
    let (world, end) = run(rt, alloc, world, 1, &OpenGate);
    assert_halted(rt, end, v);
    assert_trace(rt, &world, events);
    let_go(world);
}

/// The queue begins empty, so a look finds the first event. From then on each commit puts the numbers of the nodes that it
/// wakes, rising, as long as there is room, and nodes are taken in that order. A body that lets looks alone serve takes at
/// node 1 before it takes at node 2 again.
#[test]
fn one_worker_serves_from_the_queue(rt: HostRuntime) {
    assert_run_by_one(&rt, rt.alloc(), PAIR.as_bytes(), 1, &PAIR_RUN);
}

/// A node that would only put its message back is passed over, and of a node's ports the one behind the last whose event began
/// or was passed over comes first.
#[test]
fn one_worker_passes_over_what_waits(rt: HostRuntime) {
    assert_run_by_one(&rt, rt.alloc(), PATH_OF_THREE.as_bytes(), 2, &PATH_RUN);
}

/// A ring of 1,100 nodes, with a link more from each, which leads far.
fn ring_with_chords(alloc: Global) -> Result<Vec<u8>, AllocError> {
    let mut text = first_line(alloc, 1_100, 2_200)?;
    for v in 1..=1_100u32 {
        put_link(&mut text, v, v % 1_100 + 1, v as u64 * 7919 % 30_000)?;
        put_link(
            &mut text,
            v,
            v * 37 % 1_100 + 1,
            v as u64 * 104_729 % 30_000,
        )?;
    }
    Ok(text)
}

/// The node of an event.
fn node_of(event: &Event) -> u32 {
    match event {
        Event::Wake(v) | Event::Take(v, _) => *v,
    }
}

/// How many events are of a node not above the one before.
fn steps_down(events: &[Event]) -> usize {
    let mut last = 0u32;
    let mut count = 0usize;
    for event in events {
        let v = node_of(event);
        if v <= last {
            count = count.saturating_add(1);
        }
        last = v;
    }
    count
}

/// In a large network too one worker serves from the queue. What messages wake lies in every direction, and a look goes upward:
/// here 38 of 100 events are of a node not above the one before, by a play of the same run that shares nothing with the
/// workers, and 1 of 100 where looks alone serve.
#[test]
fn one_worker_serves_all_numbers(rt: HostRuntime) {
    let text = ring_with_chords(rt.alloc()).expect(&rt, "a text");
    let world = world_of(&rt, rt.alloc(), &text);
    let (world, _) = run(&rt, rt.alloc(), world, 1, &OpenGate);
    let events = world.trace();
    assert!(rt; steps_down(events) >= events.len() / 3);
    let_go(world);
}

const NONE_YET: Progress = Progress {
    commits: 0,
    halted: false,
};

const ONE_COMMIT: Progress = Progress {
    commits: 1,
    halted: false,
};

/// A shop of a world without commits.
fn open_shop(rt: &impl Abort, alloc: Global, world: World) -> Shop {
    let (_board, publisher, _reader) = Board::open(alloc, NONE_YET).expect(rt, "a board");
    Shop::open(world, publisher).ok().expect(rt, "a shop")
}

/// There is no such shop, since the world has commits.
fn assert_no_shop(rt: &impl Abort, alloc: Global, world: World) {
    let (_board, publisher, _reader) = Board::open(alloc, NONE_YET).expect(rt, "a board");
    assert!(rt; Shop::open(world, publisher).is_err());
}

fn commit(rt: &impl Abort, alloc: Global, shop: &mut Shop, step: Step) {
    assert!(rt; shop.commit(alloc, step).is_ok());
    assert!(rt; !shop.ended() && shop.out_count() == 0);
}

fn assert_told(rt: &impl Abort, publisher: &Publisher, progress: Progress) {
    assert_eq!(rt; publisher.last(), progress);
}

#[test]
fn a_shop_tells_of_each_commit(rt: HostRuntime) {
    let alloc = rt.alloc();
    let mut world = world_of(&rt, alloc, PAIR.as_bytes());
    let step = step_of(&rt, alloc, &mut world, Event::Wake(1));
    let mut shop = open_shop(&rt, alloc, world);
    commit(&rt, alloc, &mut shop, step);
    let (world, publisher) = shop.close();
    assert_told(&rt, &publisher, ONE_COMMIT);
    assert_no_shop(&rt, alloc, world);
}

/// A step of another world of the pair.
fn step_of_a_twin(rt: &impl Abort, alloc: Global) -> Step {
    let mut twin = world_of(rt, alloc, PAIR.as_bytes());
    let step = step_of(rt, alloc, &mut twin, Event::Wake(1));
    let_go(twin);
    step
}

fn refuse(rt: &impl Abort, alloc: Global, shop: &mut Shop, step: Step) {
    assert!(rt; shop.commit(alloc, step).is_err());
}

/// A step of another world is refused: its event doesn't happen, and nothing is published.
#[test]
fn a_refused_commit_tells_nothing(rt: HostRuntime) {
    let alloc = rt.alloc();
    let step = step_of_a_twin(&rt, alloc);
    let world = world_of(&rt, alloc, PAIR.as_bytes());
    let mut shop = open_shop(&rt, alloc, world);
    refuse(&rt, alloc, &mut shop, step);
    let (world, publisher) = shop.close();
    assert_trace(&rt, &world, &[]);
    assert_told(&rt, &publisher, NONE_YET);
    let_go(world);
}

/// Holds ticket 3 until a reader has seen a pair of a run under way, and notes that it came. Of two workers' tickets one of
/// the first two is committed before the third goes out.
#[derive(Drop)]
struct Meet {
    seen: AtomicU64,
    noted: AtomicU64,
}

impl Meet {
    fn new() -> Meet {
        Meet {
            seen: AtomicU64::new(0),
            noted: AtomicU64::new(0),
        }
    }
}

impl Gate for Meet {
    fn between(&self, ticket: u64) {
        if ticket == 3 {
            for _ in 0..10_000_000u64 {
                if self.seen.load(Ordering::SeqCst) == 1 {
                    self.noted.store(1, Ordering::SeqCst);
                    break;
                }
                thread::yield_now();
            }
        }
    }
}

/// Reads until the run has ended.
fn watch(board: &Board, mut reader: Reader, gate: &Meet) -> Reader
    requires { reader.table ≡ board.now }
    ensures { result.table ≡ board.now }
{
    for _ in 0..10_000_000u64 {
        let pair = board.read(&mut reader);
        if pair.halted {
            break;
        }
        if pair.commits > 0 {
            gate.seen.store(1, Ordering::SeqCst);
        }
        thread::yield_now();
    }
    reader
}

/// The opening world of five nodes, of which this publisher tells.
fn told_world(rt: &impl Abort, alloc: Global, publisher: Publisher) -> (World, Publisher)
    ensures { IsTold result.0 result.1 }
{
    let world = world_of(rt, alloc, PATH_OF_FIVE.as_bytes());
    let Ok(shop) = Shop::open(world, publisher) else {
        panic!(rt; "an opening pair");
    };
    shop.close()
}

/// The last pair is that of a run that has ended.
fn assert_last(rt: &impl Abort, world: &World, last: Progress) {
    assert!(rt; last.halted && last.commits == world.trace().len() as u64);
}

fn assert_reads(rt: &impl Abort, board: &Board, reader: &mut Reader, progress: Progress)
    requires { reader.old.table ≡ board.now }
{
    assert_eq!(rt; board.read(reader), progress);
}

/// Two threads read while two workers run, each until the end: one finds a pair on the way, and then each the world's.
fn run_beside_readers<R: Threads + Wait + Sync + Abort>(rt: &R, alloc: Global) {
    let (board, publisher, mut first) = Board::open(alloc, NONE_YET).expect(rt, "a board");
    let second = board.split(alloc, &mut first).expect(rt, "a reader");
    let (world, publisher) = told_world(rt, alloc, publisher);
    let meet = Meet::new();
    let (lent, gate) = (&board, &meet);
    let readers = move || -> (Reader, Reader)
        requires { (first.table ≡ lent.now) × (second.table ≡ lent.now) }
        ensures { (result.0.table ≡ lent.entry.now) × (result.1.table ≡ lent.entry.now) }
    {
        thread::join(
            rt,
            move || -> Reader
                requires { first.table ≡ lent.now }
                ensures { result.table ≡ lent.entry.now }
            { watch(lent, first, gate) },
            move || -> Reader
                requires { second.table ≡ lent.now }
                ensures { result.table ≡ lent.entry.now }
            { watch(lent, second, gate) },
        )
    };
    let ((world, publisher, end), (mut first, mut second)) = thread::join(
        rt,
        move || -> (World, Publisher, Result<RunEnd, PoolFault>)
            requires { IsTold world publisher }
        { run_watched(rt, alloc, world, 2, gate, publisher) },
        readers,
    );
    assert!(rt; end.is_ok());
    assert_noted(rt, &meet.noted, 1);
    let last = publisher.last();
    assert_last(rt, &world, last);
    assert_reads(rt, &board, &mut first, last);
    assert_reads(rt, &board, &mut second, last);
    let_go(world);
}

#[test]
fn readers_see_the_run_and_its_end(rt: HostRuntime) {
    run_beside_readers(&rt, rt.alloc());
}
