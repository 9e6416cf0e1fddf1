//! Threads that run one world on.
ghost use Rattle.std.specs.Prelude.{◌≡◌, ◌≤◌, ◌+◌, [], Some, length, IfOk};
ghost use Rattle.ghs_core.specs.NetState.{network, IsLeastHalted};
ghost use Rattle.ghs_world.specs.WorldState.{home};
ghost use Rattle.ghs_shared.specs.Progress.{StartsWith};
ghost use Rattle.ghs_pool.specs.Shop.{IsTold};
ghost use Rattle.ghs_pool.specs.Follows.{Follows, GoesOn};
ghost use Rattle.ghs_pool.specs.Ends.{EndFits, IsAtEnd};

use crate::bell::Bell;
use crate::end::PoolFault;
use crate::feed::Feed;
use crate::floor::{Floor, Lacks, Start};
use crate::gate::Gate;
use crate::hand::{Hand, MOST};
use crate::notes::Notes;
use crate::pace::AWAY;
use crate::shop::{Shop, pair_of};
use crate::visit::Next;
use ghs_sched::run::RunEnd;
use ghs_shared::board::{Board, Publisher};
use ghs_shared::queue::{ReadyPass, ReadyQueue};
use ghs_world::world::World;
use std::alloc::{AllocError, Global};
use std::marker::Brand;
use std::sync::{Mutex, Wait};
use std::thread;
use std::thread::Threads;

/// What a run lacks that can't begin.
const NO_MEMORY: Lacks = Lacks {
    thread: false,
    memory: true,
};

/// Runs a world on by so many threads, 1 to 64, until its run has ended. All that is out is recalled first. The world
/// comes back with nothing out, after the commits so far: on the same graph, under the same wake set and turns, its trace
/// beginning with the given one.
///
/// The ends in their order: NoThread where a thread couldn't be started, be it that memory ran out; Halted where the run
/// has ended; TurnLimit; and then Memory, or nothing that has a name.
///
/// ```text
/// let world = World::open(alloc, graph, WakeSet::All, 1 << 40)?;
/// let (world, end) = run_workers(rt, alloc, world, 4, &OpenGate);
/// // where end is Ok, world.ended(): its Branch links are the forest, whatever the threads came to first
/// ```
pub fn run_workers<G: Gate + Sync, R: Threads + Wait + Sync>(
    rt: &R,
    alloc: Global,
    mut world: World,
    workers: u32,
    gate: &G,
) -> (World, Result<RunEnd, PoolFault>)
    requires workers { (1 ≤ workers) × (workers ≤ 64) }
    ensures out { result.0.outs ≡ [] }
    ensures follows { Follows result.0 world }
    ensures end { EndFits result.0 result.1 }
{
    world.recall_all();
    let first = pair_of(&world);
    let Ok((_board, publisher, _reader)) = Board::open(alloc, first) else {
        let end = end_of(&world, NO_MEMORY);
        return (world, end);
    };
    let (world, _publisher, end) = run_watched(rt, alloc, world, workers, gate, publisher);
    (world, end)
}

/// The same, and each commit is published: the publisher's last pair is the given world's, and then that of the world
/// that comes back. Readers of its board may read meanwhile.
pub fn run_watched<G: Gate + Sync, R: Threads + Wait + Sync>(
    rt: &R,
    alloc: Global,
    mut world: World,
    workers: u32,
    gate: &G,
    publisher: Publisher,
) -> (World, Publisher, Result<RunEnd, PoolFault>)
    requires workers { (1 ≤ workers) × (workers ≤ 64) }
    requires told { IsTold world publisher }
    ensures out { result.0.outs ≡ [] }
    ensures follows { Follows result.0 world }
    ensures told { IsTold result.0 result.1 }
    ensures board { (result.1.table ≡ publisher.table) × StartsWith result.1.list publisher.list }
    ensures end { EndFits result.0 result.2 }
{
    world.recall_all();
    let nodes = world.graph().nodes();
    let Ok((queue, pass, notes)) = prepare(alloc, nodes, workers) else {
        let end = end_of(&world, NO_MEMORY);
        return (world, publisher, end);
    };
    let Ok(shop) = Shop::open(world, publisher) else {
        unreachable!()
    };
    let feed = Feed::new(&queue, pass);
    run_from::<Brand, G, R>(rt, alloc, shop, notes, workers, gate, feed)
}

/// An empty queue with room for each node and a share for each worker, and one for who starts them; its pass; and what is kept
/// of each node.
fn prepare(
    alloc: Global,
    nodes: u32,
    workers: u32,
) -> Result<(ReadyQueue, ReadyPass, Notes), AllocError>
    requires few { workers ≤ 64 }
    ensures pass { IfOk result (λ r. r.1.name ≡ r.0.name) }
    ensures shares { IfOk result (λ r. r.1.shares ≡ workers + 1) }
    ensures notes { IfOk result (λ r. r.2 ≡ nodes) }
{
    let (queue, pass) = ReadyQueue::open(alloc, nodes.max(1), workers + 1)?;
    let notes = Notes::fresh(alloc, nodes)?;
    Ok((queue, pass, notes))
}

/// Runs on from the shop that `J` names, by so many workers.
fn run_from<J: Start + Send + Sync, G: Gate + Sync, R: Threads + Wait + Sync>(
    rt: &R,
    alloc: Global,
    shop: Shop,
    notes: Notes,
    workers: u32,
    gate: &G,
    feed: Feed<'_>,
) -> (World, Publisher, Result<RunEnd, PoolFault>)
    requires goes_on { GoesOn shop J.first }
    requires notes { notes ≡ shop.world.net.graph.nodes }
    requires shares { feed.pass.shares ≡ workers + 1 }
    ensures out { result.0.outs ≡ [] }
    ensures follows { Follows result.0 J.first.world }
    ensures told { IsTold result.0 result.1 }
    ensures board { (result.1.table ≡ J.first.told.table) × StartsWith result.1.list J.first.told.list }
    ensures end { EndFits result.0 result.2 }
{
    let floor = Mutex::new(Floor::<J>::new(shop, notes, workers));
    let bell = Bell::new();
    start_workers(rt, alloc, &floor, &bell, gate, feed);
    let (shop, lacks) = floor.into_inner().close();
    let (mut world, publisher) = shop.close();
    world.recall_all();
    let end = end_of(&world, lacks);
    (world, publisher, end)
}

/// Starts the workers, each on a thread of its own, until one can't be started. All that were have ended.
fn start_workers<J: Start + Send + Sync, G: Gate + Sync, R: Threads + Wait + Sync>(
    rt: &R,
    alloc: Global,
    floor: &Mutex<Floor<J>>,
    bell: &Bell,
    gate: &G,
    feed: Feed<'_>,
) {
    thread::scope(thread::scope_env(), rt, move |scope| {
        let mut feed = feed;
        let shares = feed.shares();
        for rank in 1..shares {
            let Ok(hand) = Hand::new(alloc, rank, &mut feed) else {
                return floor.lock(rt).lack_memory();
            };
            let worker = move || worker_loop(rt, alloc, floor, bell, gate, hand);
            if scope.spawn(worker).is_err() {
                return floor.lock(rt).lack_thread();
            }
        }
    })
}

/// A worker, until the run is over: visits to the lock, and between them what needs none.
fn worker_loop<J: Start, G: Gate, R: Wait>(
    rt: &R,
    alloc: Global,
    floor: &Mutex<Floor<J>>,
    bell: &Bell,
    gate: &G,
    mut hand: Hand<'_>,
) {
    for _ in rt.forever() {
        let next = come(rt, alloc, floor, bell, &mut hand);
        if hand.calls {
            hand.calls = false;
            bell.call();
        }
        match next {
            Next::Perform => perform(rt, alloc, floor, gate, &mut hand),
            Next::Again => {}
            Next::Wait => rest(rt, bell, &mut hand),
            Next::Leave => bell.sleep(rt, AWAY),
            Next::End => {
                gate.ended(hand.tally);
                return bell.ring();
            }
        }
    }
    unreachable!()
}

/// A visit to the lock.
fn come<J: Start, R: Wait>(
    rt: &R,
    alloc: Global,
    floor: &Mutex<Floor<J>>,
    bell: &Bell,
    hand: &mut Hand<'_>,
) -> Next {
    if hand.gives_way {
        bell.give_way(hand.tally.worker);
    }
    let mut floor = floor.lock(rt);
    bell.visit(hand.tally.worker);
    floor.visit(rt, alloc, hand)
}

/// Performs the tickets in a hand, outside the lock.
fn perform<J: Start, G: Gate, R: Wait>(
    rt: &R,
    alloc: Global,
    floor: &Mutex<Floor<J>>,
    gate: &G,
    hand: &mut Hand<'_>,
) {
    for _ in 0..MOST {
        let Some(ticket) = hand.next_ticket() else {
            return;
        };
        let number = ticket.number();
        let performed = ticket.perform(alloc);
        gate.between(number);
        match performed {
            Ok(step) => {
                if hand.add_step(step).is_err() {
                    floor.lock(rt).lack_memory();
                }
            }
            Err((ticket, _)) => floor.lock(rt).give_back(ticket),
        }
    }
}

/// Rests, holding nothing, until the rest is over; a short one ends where a number waits.
fn rest<R: Wait>(rt: &R, bell: &Bell, hand: &mut Hand<'_>) {
    hand.pace.rest();
    for _ in 0..hand.pace.yields() {
        if hand.feed.len(rt) > 0 {
            return;
        }
        thread::yield_now();
    }
    let micros = hand.pace.sleep();
    if micros > 0 {
        bell.sleep(rt, micros);
    }
}

/// What the world says of the end, and else what was lacking.
fn end_of(world: &World, lacks: Lacks) -> Result<RunEnd, PoolFault>
    requires { world.now.outs ≡ [] }
    ensures { EndFits world.now result }
{
    if lacks.thread {
        return Err(PoolFault::NoThread);
    }
    if world.ended() {
        return Ok(RunEnd::Halted(least_halted(world)));
    }
    if !world.has_turn() {
        return Err(PoolFault::TurnLimit);
    }
    if lacks.memory {
        return Err(PoolFault::Memory);
    }
    Err(PoolFault::Strange)
}

/// The least node that has halted, of a run that has ended.
fn least_halted(world: &World) -> u32
    requires { IsAtEnd world.now }
    ensures { IsLeastHalted (network world.now.net) (home world.now) (Some result) }
{
    let _ = world.net().trace();
    match world.core_halted() {
        Some(v) => v,
        None => unreachable!(),
    }
}
