//! How far a run, a sweep or a search has come, told on standard error while it goes on; of a run also when it is over.
ghost use Rattle.ghs_pool.specs.Ends.{EndFits};
ghost use Rattle.ghs_pool.specs.Follows.{Follows};
ghost use Rattle.ghs_pool.specs.Shop.{IsTold};
ghost use Rattle.std.specs.Prelude.{◌≡◌, ◌≤◌, []};

use ghs_pool::end::PoolFault;
use ghs_pool::gate::{Gate, Tally};
use ghs_pool::shop::pair_of;
use ghs_pool::workers::{run_watched, run_workers};
use ghs_sched::run::RunEnd;
use ghs_shared::board::{Board, Publisher, Reader};
use ghs_shared::progress::Progress;
use ghs_world::world::World;
use peer_explore::watch::Watch;
use std::alloc::Global;
use std::sync::Wait;
use std::sync::atomic::{AtomicU64, Ordering};
use std::thread;
use std::thread::{Parker, Threads};
use std::time::Duration;

/// After how many commits more the observer writes a line.
const STEP: u64 = 65_536;

/// For how many milliseconds the observer sleeps between two reads.
const PERIOD: u64 = 20;

/// Tells the observer that the run is over.
#[derive(Drop)]
struct Bell {
    rung: AtomicU64,
    sleeper: Parker,
}

impl Bell {
    fn new() -> Bell {
        Bell {
            rung: AtomicU64::new(0),
            sleeper: Parker::new(),
        }
    }

    /// The run is over: whoever sleeps wakes.
    fn ring(&self) {
        self.rung.store(1, Ordering::SeqCst);
        self.sleeper.unpark();
    }

    fn has_rung(&self) -> bool {
        self.rung.load(Ordering::SeqCst) == 1
    }

    /// Sleeps for a period, or until the bell rings.
    fn sleep<R: Wait>(&self, rt: &R) {
        self.sleeper.park_timeout(rt, Duration::from_millis(PERIOD));
    }
}

/// Runs a world on by workers, as `run_workers` does, while an observer tells how far it has come. An observer that can't
/// be started is left out.
pub(crate) fn run_told<G: Gate + Sync, R: Threads + Wait + Eprint + Sync>(
    rt: &R,
    alloc: Global,
    world: World,
    workers: u32,
    gate: &G,
) -> (World, Result<RunEnd, PoolFault>)
    requires workers { (1 ≤ workers) × (workers ≤ 64) }
    ensures out { result.0.outs ≡ [] }
    ensures follows { Follows result.0 world }
    ensures end { EndFits result.0 result.1 }
{
    let Ok((board, publisher, reader)) = Board::open(alloc, pair_of(&world)) else {
        return run_workers(rt, alloc, world, workers, gate);
    };
    let bell = Bell::new();
    let (board, bell) = (&board, &bell);
    let (world, _publisher, end) = thread::scope(
        thread::scope_env(),
        rt,
        move |scope| -> (World, Publisher, Result<RunEnd, PoolFault>)
            requires workers { (1 ≤ workers) × (workers ≤ 64) }
            requires told { IsTold world publisher }
            requires reader { reader.table ≡ board.now }
            ensures out { result.0.outs ≡ [] }
            ensures follows { Follows result.0 world }
            ensures end { EndFits result.0 result.2 }
        {
            let observer = move ||
                requires { reader.table ≡ board.now }
            { observe(rt, board, reader, bell) };
            let _ = scope.spawn(observer);
            let ran = run_watched(rt, alloc, world, workers, gate, publisher);
            bell.ring();
            ran
        },
    );
    (world, end)
}

/// Writes a line whenever the run has come far enough, until the bell rings. A line that can't be written is passed over.
fn observe<R: Wait + Eprint>(rt: &R, board: &Board, mut reader: Reader, bell: &Bell)
    requires { reader.table ≡ board.now }
{
    let mut told = 0u64;
    for _ in rt.forever() {
        if bell.has_rung() {
            return;
        }
        let commits = board.read(&mut reader).commits;
        if commits.saturating_sub(told) >= STEP {
            told = commits;
            let _ = eprintln!(rt; "at {commits}");
        }
        bell.sleep(rt);
    }
    unreachable!()
}

/// Tells at the end of each of the threads what it has done, where that is asked for.
#[derive(Drop)]
pub(crate) struct Tallying<'a, R: Eprint> {
    rt: &'a R,
    asked: bool,
}

impl<'a, R: Eprint> Tallying<'a, R> {
    pub(crate) fn new(rt: &'a R, asked: bool) -> Tallying<'a, R> {
        Tallying { rt, asked }
    }
}

impl<'a, R: Eprint> Gate for Tallying<'a, R> {
    fn between(&self, _ticket: u64) {}

    /// A line that can't be written is passed over.
    fn ended(&self, tally: Tally) {
        if self.asked {
            let Tally {
                worker,
                commits,
                tickets,
                crowded,
                beside,
            } = tally;
            let _ = eprintln!(self.rt;
                "worker {worker}: {commits} events, {tickets} on tickets, {crowded} crowded, {beside} beside another's"
            );
        }
    }
}

/// Tells behind a run how many events there were, and whether it has ended, where that is asked for.
pub(crate) fn tell_end<R: Eprint>(rt: &R, asked: bool, world: &World) {
    if asked {
        let Progress { commits, halted } = pair_of(world);
        let word = if halted { "halted" } else { "open" };
        let _ = eprintln!(rt; "at {commits} {word}");
    }
}

/// Tells how many of the seeds of a sweep have been run, where that is asked for and some are left.
pub(crate) fn tell_seeds<R: Eprint>(rt: &R, asked: bool, left: u64, count: u64)
    requires { left ≤ count }
{
    if asked && left > 0 {
        let done = count - left;
        let _ = eprintln!(rt; "{done} of {count} seeds");
    }
}

/// Tells how many of the networks of a sweep have been swept, where that is asked for and there are more.
pub(crate) fn tell_networks<R: Eprint>(rt: &R, asked: bool, done: usize, count: usize) {
    if asked && done < count {
        let _ = eprintln!(rt; "{done} of {count} graphs");
    }
}

/// Tells how far a search through states has come, where that is asked for.
#[derive(Drop)]
pub(crate) struct Teller<'a, R: Eprint> {
    rt: &'a R,
    asked: bool,
}

impl<'a, R: Eprint> Teller<'a, R> {
    pub(crate) fn new(rt: &'a R, asked: bool) -> Teller<'a, R> {
        Teller { rt, asked }
    }
}

impl<'a, R: Eprint> Watch for Teller<'a, R> {
    /// A line that can't be written is passed over.
    fn seen(&self, met: usize, left: usize) {
        if self.asked {
            let _ = eprintln!(self.rt; "{met} states, {left} to do");
        }
    }
}
