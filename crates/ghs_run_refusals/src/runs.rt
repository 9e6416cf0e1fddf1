//! Runs of the five nodes: seeded, patient, by workers, and done again.
ghost use Rattle.ghs_pool.specs.Shop.{IsTold};
ghost use Rattle.std.specs.Prelude.{◌≡◌, []};

use ghs_choices::schedule_kind::ScheduleKind;
use ghs_core::event::Event;
use ghs_graph::graph::Graph;
use ghs_patient::run::run_patient;
use ghs_picking::picking::run_by_seed;
use ghs_pool::end::PoolFault;
use ghs_pool::gate::OpenGate;
use ghs_pool::shop::Shop;
use ghs_pool::workers::{run_watched, run_workers};
use ghs_refusing::orders::{Turn, order, refuse, turn_of};
use ghs_refusing::scenes::{
    are_same, events_of_run, five, has_ended, is_five, let_go, opening, world_after,
};
use ghs_sched::fault::RunFault;
use ghs_sched::replay::replay;
use ghs_sched::run::run_seeded;
use ghs_shared::board::{Board, Publisher};
use ghs_shared::progress::Progress;
use ghs_world::world::World;
use peer_network::wake_set::WakeSet;
use peer_schedule::fault::ReplayFault;
use peer_schedule::schedule::Schedule;
use peer_texts::trace::EVENT_LIMIT;
use std::alloc::Global;
use std::process::Abort;
use std::sync::Wait;
use std::sync::atomic::{AtomicU64, Ordering};
use std::test::Fail;
use std::thread::Threads;

/// The first two events of the runs here.
const FIRST: [Event; 2] = [Event::Wake(2), Event::Wake(4)];

/// Two events have happened, and a third is out.
fn begun(rt: &impl Abort, alloc: Global) -> World {
    let mut world = world_after(alloc, &FIRST).expect(rt, "a run");
    assert!(rt; world.check_out(alloc, Event::Wake(1)).is_ok());
    world
}

/// Sees that nothing is out, and that the world is the one after its trace, which begins as it did.
fn assert_sound(rt: &impl Abort, alloc: Global, world: &World, first: &[Event]) {
    assert!(rt; world.out_count() == 0 && world.trace().starts_with(first));
    let same = world_after(alloc, world.trace()).expect(rt, "a run");
    assert!(rt; are_same(world.net(), same.net()));
    let_go(same);
}

/// The run has ended with its one text.
fn assert_ended(rt: &impl Abort, alloc: Global, world: World) {
    assert!(rt; has_ended(alloc, &world));
    let_go(world);
}

/// There was no fault but lack of memory. Whether there was one.
fn is_stopped(rt: &impl Abort, fault: Option<RunFault>) -> bool {
    assert!(rt; fault.is_none() || fault == Some(RunFault::Memory));
    fault.is_some()
}

/// Goes on by a schedule, with the k-th allocation refused.
fn go_on(
    alloc: Global,
    world: &mut World,
    schedule: &mut Schedule,
    k: usize,
) -> (Turn, Option<RunFault>) {
    order(alloc, k);
    let answer = run_seeded(alloc, world, schedule);
    (turn_of(alloc, k, &answer), answer.err())
}

/// The same, patiently.
fn go_on_patiently(
    alloc: Global,
    world: &mut World,
    schedule: &mut Schedule,
    k: usize,
) -> (Turn, Option<RunFault>) {
    order(alloc, k);
    let answer = run_patient(alloc, world, schedule);
    (turn_of(alloc, k, &answer), answer.err())
}

/// A run goes on to its end.
fn end_run(rt: &impl Abort, alloc: Global, world: &mut World, schedule: &mut Schedule) {
    let (_, fault) = go_on(alloc, world, schedule, 0);
    assert!(rt; fault.is_none());
}

fn assert_trace(rt: &impl Abort, world: &World, events: &[Event]) {
    assert!(rt; world.trace() == events);
}

/// One seed's run, stopped for lack of memory, goes on by the same schedule to the events that it has where nothing is
/// refused.
fn seeded(rt: &impl Abort, alloc: Global, events: &[Event], k: usize) -> Turn {
    let mut world = opening(alloc).expect(rt, "a world");
    let mut schedule = Schedule::seeded(7);
    let (turn, fault) = go_on(alloc, &mut world, &mut schedule, k);
    assert_sound(rt, alloc, &world, &[]);
    if is_stopped(rt, fault) {
        end_run(rt, alloc, &mut world, &mut schedule);
    }
    assert_trace(rt, &world, events);
    assert_ended(rt, alloc, world);
    turn
}

/// A patient run goes on to its end.
fn end_patiently(rt: &impl Abort, alloc: Global, world: &mut World, schedule: &mut Schedule) {
    let (_, fault) = go_on_patiently(alloc, world, schedule, 0);
    assert!(rt; fault.is_none());
}

/// A patient run that goes on from what stands, with something out; stopped, it goes on again.
fn patient(rt: &impl Abort, alloc: Global, k: usize) -> Turn {
    let mut world = begun(rt, alloc);
    let mut schedule = Schedule::seeded(7);
    let (turn, fault) = go_on_patiently(alloc, &mut world, &mut schedule, k);
    assert_sound(rt, alloc, &world, &FIRST);
    if is_stopped(rt, fault) {
        end_patiently(rt, alloc, &mut world, &mut schedule);
    }
    assert_ended(rt, alloc, world);
    turn
}

/// The opening world.
fn opened(rt: &impl Abort, alloc: Global) -> World
    ensures trace { result.net.trace ≡ [] }
    ensures numbers { result.last ≡ 0 }
{
    let graph = five(alloc).expect(rt, "a graph");
    let world = World::open(alloc, graph, WakeSet::All, EVENT_LIMIT).ok();
    world.expect(rt, "a world")
}

/// The run that a seed's schedule picks of an opening, with the k-th allocation refused.
fn go_by_seed(
    alloc: Global,
    world: &mut World,
    schedule_kind: ScheduleKind,
    k: usize,
) -> (Turn, Option<RunFault>)
    requires trace { world.old.net.trace ≡ [] }
    requires numbers { world.old.last ≡ 0 }
{
    order(alloc, k);
    let answer = run_by_seed(alloc, world, schedule_kind, 7);
    (turn_of(alloc, k, &answer), answer.err())
}

/// The same; stopped, it goes on.
fn by_seed(rt: &impl Abort, alloc: Global, schedule_kind: ScheduleKind, k: usize) -> Turn {
    let mut world = opened(rt, alloc);
    let (turn, fault) = go_by_seed(alloc, &mut world, schedule_kind, k);
    assert_sound(rt, alloc, &world, &[]);
    if is_stopped(rt, fault) {
        end_run(rt, alloc, &mut world, &mut Schedule::seeded(7));
    }
    assert_ended(rt, alloc, world);
    turn
}

/// The graph comes back, and the run is done again with it.
fn do_again(rt: &impl Abort, alloc: Global, graph: Graph, events: &[Event], fault: ReplayFault) {
    assert!(rt; events.len() as u64 <= EVENT_LIMIT);
    assert!(rt; fault == ReplayFault::Memory && is_five(alloc, &graph));
    let again = replay(alloc, graph, WakeSet::All, events);
    let_go(again.ok().expect(rt, "a world"));
}

/// A run that is done again.
fn done_again(rt: &impl Abort, alloc: Global, events: &[Event], k: usize) -> Turn {
    assert!(rt; events.len() as u64 <= EVENT_LIMIT);
    let graph = five(alloc).expect(rt, "a graph");
    order(alloc, k);
    let answer = replay(alloc, graph, WakeSet::All, events);
    let turn = turn_of(alloc, k, &answer);
    match answer {
        Ok(world) => assert_ended(rt, alloc, world),
        Err((graph, fault)) => do_again(rt, alloc, graph, events, fault),
    }
    turn
}

/// To copy a schedule takes no memory.
fn copy_none(rt: &impl Abort, alloc: Global) {
    let schedule = Schedule::seeded(7);
    order(alloc, 1);
    assert!(rt; schedule.copy().is_ok());
    order(alloc, 0);
}

#[test]
fn runs(host: HostRuntime) -> Result<(), Fail> {
    let (rt, alloc) = (&host, host.alloc());
    copy_none(rt, alloc);
    let events = events_of_run(alloc).expect(rt, "a run");
    refuse(rt, alloc, "run_seeded", |k| seeded(rt, alloc, &events, k))?;
    refuse(rt, alloc, "run_patient", |k| patient(rt, alloc, k))?;
    refuse(rt, alloc, "replay", |k| done_again(rt, alloc, &events, k))
}

fn refuse_picking<R: Print + Abort>(
    rt: &R,
    alloc: Global,
    name: &str,
    schedule_kind: ScheduleKind,
) -> Result<(), Fail> {
    refuse(rt, alloc, name, |k| by_seed(rt, alloc, schedule_kind, k))
}

#[test]
fn runs_by_seed(host: HostRuntime) -> Result<(), Fail> {
    let (rt, alloc) = (&host, host.alloc());
    refuse_picking(rt, alloc, "run_by_seed", ScheduleKind::Patient)?;
    refuse_picking(rt, alloc, "run_by_seed(lifo)", ScheduleKind::Lifo)
}

/// A run of so many workers, with the k-th allocation refused.
fn set_to_work<R: Threads + Wait + Sync + Abort>(
    rt: &R,
    alloc: Global,
    world: World,
    workers: u32,
    k: usize,
) -> (World, Turn, Option<PoolFault>) {
    assert!(rt; workers >= 1 && workers <= 64);
    order(alloc, k);
    let (world, answer) = run_workers(rt, alloc, world, workers, &OpenGate);
    (world, turn_of(alloc, k, &answer), answer.err())
}

/// There was no fault but lack of memory, or a thread that couldn't be started: that is counted.
fn count_unstarted(rt: &impl Abort, fault: Option<PoolFault>, unstarted: &AtomicU64) {
    if fault == Some(PoolFault::NoThread) {
        unstarted.fetch_add(1, Ordering::SeqCst);
    } else {
        assert!(rt; fault.is_none() || fault == Some(PoolFault::Memory));
    }
}

/// Workers run a world on to its end.
fn end_by_workers<R: Threads + Wait + Sync + Abort>(
    rt: &R,
    alloc: Global,
    world: World,
    workers: u32,
) {
    let (world, _, fault) = set_to_work(rt, alloc, world, workers, 0);
    assert!(rt; fault.is_none());
    assert_ended(rt, alloc, world);
}

/// The same from what stands, with something out; stopped, it goes on again. That a thread couldn't be started is counted.
fn work_unwatched<R: Threads + Wait + Sync + Abort>(
    rt: &R,
    alloc: Global,
    workers: u32,
    unstarted: &AtomicU64,
    k: usize,
) -> Turn {
    let (world, turn, fault) = set_to_work(rt, alloc, begun(rt, alloc), workers, k);
    assert_sound(rt, alloc, &world, &FIRST);
    count_unstarted(rt, fault, unstarted);
    end_by_workers(rt, alloc, world, workers);
    turn
}

const TWO_COMMITS: Progress = Progress {
    commits: 2,
    halted: false,
};

/// A publisher that tells of two events.
fn publisher(rt: &impl Abort, alloc: Global) -> Publisher {
    let (_board, publisher, _reader) = Board::open(alloc, TWO_COMMITS).expect(rt, "a board");
    publisher
}

/// A world after two events, and a publisher that tells of them.
fn told_world(rt: &impl Abort, alloc: Global) -> (World, Publisher)
    ensures { IsTold result.0 result.1 }
{
    let world = world_after(alloc, &FIRST).expect(rt, "a run");
    let publisher = publisher(rt, alloc);
    let Ok(shop) = Shop::open(world, publisher) else {
        panic!(rt; "the pair of the world");
    };
    shop.close()
}

/// A publisher's last pair is that of the world that stands.
fn assert_told(rt: &impl Abort, world: &World, publisher: &Publisher) {
    let last = publisher.last();
    assert!(rt; last.commits == world.trace().len() as u64 && last.halted == world.ended());
}

/// The same, watched: the publisher comes back with the pair of the world that stands.
fn work_watched<R: Threads + Wait + Sync + Abort>(rt: &R, alloc: Global, k: usize) -> Turn {
    let (world, publisher) = told_world(rt, alloc);
    order(alloc, k);
    let (world, publisher, answer) = run_watched(rt, alloc, world, 2, &OpenGate, publisher);
    let turn = turn_of(alloc, k, &answer);
    assert_sound(rt, alloc, &world, &FIRST);
    assert_told(rt, &world, &publisher);
    let (world, _, answer) = run_watched(rt, alloc, world, 2, &OpenGate, publisher);
    assert!(rt; answer.is_ok());
    assert_ended(rt, alloc, world);
    turn
}

/// To start a thread takes one allocation; any other that is refused is lack of memory.
fn refuse_workers<R: Threads + Wait + Sync + Print + Abort>(
    rt: &R,
    alloc: Global,
    name: &str,
    workers: u32,
) -> Result<(), Fail> {
    let unstarted = AtomicU64::new(0);
    refuse(
        rt,
        alloc,
        name,
        |k| work_unwatched(rt, alloc, workers, &unstarted, k),
    )?;
    assert!(rt; workers > 1 || unstarted.load(Ordering::SeqCst) <= 1);
    Ok(())
}

#[test]
fn workers(host: HostRuntime) -> Result<(), Fail> {
    let (rt, alloc) = (&host, host.alloc());
    refuse_workers(rt, alloc, "run_workers(1)", 1)?;
    refuse_workers(rt, alloc, "run_workers(2)", 2)?;
    refuse_workers(rt, alloc, "run_workers(8)", 8)?;
    refuse(rt, alloc, "run_watched", |k| work_watched(rt, alloc, k))
}
