//! The runs of many seeds, side by side, by any protocol.
ghost use Rattle.peer_sweep.specs.Sweep.{AreRuns, HasTurns};
ghost use Rattle.std.specs.Prelude.{◌≡◌, ◌+◌, ◌-◌, ◌*◌, ◌<◌, ◌≤◌, ◌^◌, IfOk, OnErr, length};
ghost use Rattle.std.specs.Thread.{IsSync};

use crate::figures::Figures;
use crate::setup::Setup;
use crate::swept::Swept;
use ghs_graph::graph::Graph;
use std::alloc::{AllocError, Global};
use std::thread::{Threads, join};

/// Goes on with the runs of seeds that rise from the first on: puts the figures of the next ones, so many and one at
/// least, behind those that there are. The runs go side by side on so many threads, 1 at least; the figures are the same
/// for every number of threads. Refusal: out of memory; then those that there are stay.
///
/// ```text
/// let setup = Setup { schedule_kind: ScheduleKind::Seeded, wake: WakeSet::All, turns: 1 << 40 };
/// let mut runs = Vec::new(alloc);
/// run_seeds::<Ghs, R>(rt, alloc, &graph, setup, 1, &mut runs, 3, 2)?; // seeds 1, 2 and 3, by two threads
/// ```
pub fn run_seeds<P: Swept + Sync, R: Threads + Sync>(
    rt: &R,
    alloc: Global,
    graph: &Graph,
    setup: Setup,
    first: u64,
    runs: &mut Vec<Figures>,
    count: u64,
    threads: u32,
) -> Result<(), AllocError>
    requires turns { HasTurns setup }
    requires before { AreRuns P.are_figures_of graph.now setup first runs.old.items }
    requires some { 1 ≤ count }
    requires seeds { first + length runs.old.items + count ≤ 2 ^ 64 }
    requires threads { 1 ≤ threads }
    ensures runs { IfOk result (λ _. AreRuns P.are_figures_of graph.now setup first runs.new.items) }
    ensures count { IfOk result (λ _. length runs.new.items ≡ length runs.old.items + count) }
    ensures err { OnErr result (runs.new.items ≡ runs.old.items) }
{
    let next = first + runs.len() as u64;
    let mut more = runs_by::<P, R>(rt, alloc, graph, setup, next, count, threads)?;
    runs.append(&mut more)?;
    Ok(())
}

/// The figures of the runs of so many seeds, by so many threads. Refusal: out of memory.
pub(crate) fn runs_by<P: Swept + Sync, R: Threads + Sync>(
    rt: &R,
    alloc: Global,
    graph: &Graph,
    setup: Setup,
    first: u64,
    count: u64,
    threads: u32,
) -> Result<Vec<Figures>, AllocError>
    requires turns { HasTurns setup }
    requires seeds { first + count ≤ 2 ^ 64 }
    requires threads { 1 ≤ threads }
    ensures runs { IfOk result (λ runs. AreRuns P.are_figures_of graph.now setup first runs.items) }
    ensures count { IfOk result (λ runs. length runs.items ≡ count) }
{
    if threads == 1 || count <= 1 {
        return runs_of::<P>(alloc, graph, setup, first, count);
    }
    let share = share_of(count, threads);
    let (mine, others) = join(
        rt,
        || -> Result<Vec<Figures>, AllocError>
            requires { IsSync P.row × HasTurns setup × (first + share ≤ 2 ^ 64) }
            ensures { IfOk result (λ runs. AreRuns P.are_figures_of graph.entry.now setup first runs.items × (length runs.items ≡ share)) }
        { runs_of::<P>(alloc, graph, setup, first, share) },
        || -> Result<Vec<Figures>, AllocError>
            requires { IsSync P.row × IsSync R.row × HasTurns setup × (first + count ≤ 2 ^ 64) × (share < count) × (2 ≤ threads) }
            ensures { IfOk result (λ runs. AreRuns P.are_figures_of graph.entry.now setup (first + share) runs.items × (length runs.items ≡ count - share)) }
        {
            runs_by::<P, R>(
                rt,
                alloc,
                graph,
                setup,
                first + share,
                count - share,
                threads - 1,
            )
        },
    );
    let mut runs = mine?;
    runs.append(&mut others?)?;
    Ok(runs)
}

/// How many of the seeds one of the threads takes: its part, rounded down, and one at least; some are left for the others. A
/// share for each thread leaves fewer seeds than there are threads. Where it is more than one seed, there are as many.
pub fn share_of(count: u64, threads: u32) -> u64
    requires count { 2 ≤ count }
    requires threads { 2 ≤ threads }
    ensures some { 1 ≤ result }
    ensures left { result < count }
    ensures covers { count < threads * (result + 1) }
    ensures part { 1 < result → threads * result ≤ count }
{
    (count / u64::from(threads)).max(1)
}

/// The figures of the runs of so many seeds, one after another.
fn runs_of<P: Swept>(
    alloc: Global,
    graph: &Graph,
    setup: Setup,
    first: u64,
    count: u64,
) -> Result<Vec<Figures>, AllocError>
    requires turns { HasTurns setup }
    requires seeds { first + count ≤ 2 ^ 64 }
    ensures runs { IfOk result (λ runs. AreRuns P.are_figures_of graph.now setup first runs.items) }
    ensures count { IfOk result (λ runs. length runs.items ≡ count) }
{
    let mut runs = Vec::new(alloc);
    for done in 0..count {
        runs.push(P::figures_of_seed(alloc, graph, setup, first + done)?)?;
    }
    Ok(runs)
}
