//! Sweeps by parts, by any protocol: the messages of each run by node or level, or how often each rule applied.
ghost use Rattle.ghs_commands.specs.Job.{AreSweepLimits};
ghost use Rattle.ghs_answers.specs.Sheets.{count_of};
ghost use Rattle.ghs_cli.specs.Sweeping.{ArePartedRuns};
ghost use Rattle.ghs_cli.specs.Parted.{IsPartedByGhs};
ghost use Rattle.ghs_cli.specs.Swept.{IsPartedBy};
ghost use Rattle.ghs_picking.specs.Picking.{IsPickedBy};
ghost use Rattle.std.specs.Prelude.{◌≡◌, ◌+◌, ◌-◌, ◌<◌, ◌≤◌, ◌^◌, ◌++◌, List, ℕ, IfOk};
ghost use Rattle.std.specs.Thread.{IsSync};

use crate::progress::tell_seeds;
use crate::swept::part_columns;
use boruvka::protocol::Boruvka;
use bumpalo::Bump;
use echo::protocol::Echo;
use gather::protocol::Gather;
use ghs_answers::sheets::setup_of;
use ghs_choices::by::By;
use ghs_commands::job::SweepOptions;
use ghs_commands::values::Seeds;
use ghs_graph::graph::Graph;
use ghs_parts::lines::put_run;
use ghs_picking::picking::run_by_seed;
use ghs_sched::fault::RunFault;
use ghs_world::world::World;
use peer_parts::columns::Column;
use peer_parts::seeded as peer;
use peer_sweep::runs::share_of;
use peer_trace::protocol::Protocol;
use std::alloc::{AllocError, Global};
use std::thread::{Threads, join};

/// How many of the seeds each thread takes before standard error is told.
const PORTION: u64 = 16;

/// Which protocol is swept, by which parts its messages are counted, and whether it is one of several protocols.
#[derive(Clone, Copy)]
pub(crate) struct Parting {
    pub(crate) protocol: Protocol,
    pub(crate) by: By,
    pub(crate) several: bool,
}

/// Puts the lines of the parts of a graph's runs by a protocol behind a text, each behind the same front. Where that is asked
/// for, standard error is told now and then how many of the seeds have been run. Refusal: out of memory.
pub(crate) fn put_parted<R: Threads + Sync + Eprint>(
    rt: &R,
    alloc: Global,
    text: &mut Vec<u8>,
    options: &SweepOptions,
    parting: Parting,
    front: &[u8],
    graph: &Graph,
) -> Result<(), AllocError>
    requires { AreSweepLimits options.now }
    ensures { IfOk result (λ _. (lines : List ℕ) × ArePartedRuns options.now parting front.now graph.now options.now.seeds.first (count_of options.now) lines × (text.new.items ≡ text.old.items ++ lines)) }
{
    let lines = parted(rt, alloc, options, parting, front, graph)?;
    text.extend_from_slice(&lines)?;
    Ok(())
}

/// The lines of the parts of a graph's runs, portion by portion.
fn parted<R: Threads + Sync + Eprint>(
    rt: &R,
    alloc: Global,
    options: &SweepOptions,
    parting: Parting,
    front: &[u8],
    graph: &Graph,
) -> Result<Vec<u8>, AllocError>
    requires { AreSweepLimits options.now }
    ensures { IfOk result (λ lines. ArePartedRuns options.now parting front.now graph.now options.now.seeds.first (count_of options.now) lines.items) }
{
    let Seeds { first, last } = options.seeds;
    let count = last - first + 1;
    let threads = options.workers.max(1);
    let mut lines = Vec::new(alloc);
    let mut left = count;
    while left > 0 {
        let portion = (PORTION * u64::from(threads)).min(left);
        let next = first + (count - left);
        let mut more = parted_by(
            rt, alloc, options, parting, front, graph, next, portion, threads,
        )?;
        lines.append(&mut more)?;
        left -= portion;
        tell_seeds(rt, options.progress, left, count);
    }
    Ok(lines)
}

/// The lines of the parts of the runs of so many seeds from the first on, by so many threads.
fn parted_by<R: Threads + Sync>(
    rt: &R,
    alloc: Global,
    options: &SweepOptions,
    parting: Parting,
    front: &[u8],
    graph: &Graph,
    first: u64,
    count: u64,
    threads: u32,
) -> Result<Vec<u8>, AllocError>
    requires limits { AreSweepLimits options.now }
    requires seeds { first + count ≤ 2 ^ 64 }
    requires threads { 1 ≤ threads }
    ensures { IfOk result (λ lines. ArePartedRuns options.now parting front.now graph.now first count lines.items) }
{
    if threads == 1 || count <= 1 {
        return parted_alone(alloc, options, parting, front, graph, first, count);
    }
    let share = share_of(count, threads);
    let (mine, others) = join(
        rt,
        || -> Result<Vec<u8>, AllocError>
            requires { AreSweepLimits options.now × (first + share ≤ 2 ^ 64) }
            ensures { IfOk result (λ lines. ArePartedRuns options.entry.now parting front.entry.now graph.entry.now first share lines.items) }
        { parted_alone(alloc, options, parting, front, graph, first, share) },
        || -> Result<Vec<u8>, AllocError>
            requires { IsSync R.row × AreSweepLimits options.now × (first + count ≤ 2 ^ 64) × (share < count) × (2 ≤ threads) }
            ensures { IfOk result (λ lines. ArePartedRuns options.entry.now parting front.entry.now graph.entry.now (first + share) (count - share) lines.items) }
        {
            parted_by(
                rt,
                alloc,
                options,
                parting,
                front,
                graph,
                first + share,
                count - share,
                threads - 1,
            )
        },
    );
    let mut lines = mine?;
    lines.append(&mut others?)?;
    Ok(lines)
}

/// The same, one seed after another.
fn parted_alone(
    alloc: Global,
    options: &SweepOptions,
    parting: Parting,
    front: &[u8],
    graph: &Graph,
    first: u64,
    count: u64,
) -> Result<Vec<u8>, AllocError>
    requires limits { AreSweepLimits options.now }
    requires seeds { first + count ≤ 2 ^ 64 }
    ensures { IfOk result (λ lines. ArePartedRuns options.now parting front.now graph.now first count lines.items) }
{
    let columns = part_columns(alloc, parting.several, parting.protocol, parting.by)?;
    let mut lines = Vec::new(alloc);
    for done in 0..count {
        put_seed(
            alloc,
            &mut lines,
            options,
            parting.protocol,
            parting.by,
            &columns,
            front,
            graph,
            first + done,
        )?;
    }
    Ok(lines)
}

/// Puts the lines of the parts of a seed's run behind others.
fn put_seed(
    alloc: Global,
    lines: &mut Vec<u8>,
    options: &SweepOptions,
    protocol: Protocol,
    by: By,
    columns: &[Column],
    front: &[u8],
    graph: &Graph,
    seed: u64,
) -> Result<(), AllocError>
    requires { AreSweepLimits options.now }
    ensures { IfOk result (λ _. (more : List ℕ) × IsPartedBy protocol options.now by columns.now front.now graph.now seed more × (lines.new.items ≡ lines.old.items ++ more)) }
{
    let form = options.form;
    let setup = setup_of(options);
    match protocol {
        Protocol::Ghs => put_ghs(alloc, lines, options, by, columns, front, graph, seed),
        Protocol::Boruvka => peer::put_seed::<Boruvka>(
            alloc,
            (),
            lines,
            form,
            front,
            by,
            columns,
            graph,
            setup,
            seed,
        ),
        Protocol::Echo => peer::put_seed::<Echo>(
            alloc,
            (),
            lines,
            form,
            front,
            by,
            columns,
            graph,
            setup,
            seed,
        ),
        Protocol::Gather => {
            let lists = Bump::new(alloc);
            peer::put_seed::<Gather>(
                alloc, &lists, lines, form, front, by, columns, graph, setup, seed,
            )
        }
    }
}

/// The same by GHS.
fn put_ghs(
    alloc: Global,
    lines: &mut Vec<u8>,
    options: &SweepOptions,
    by: By,
    columns: &[Column],
    front: &[u8],
    graph: &Graph,
    seed: u64,
) -> Result<(), AllocError>
    requires { AreSweepLimits options.now }
    ensures { IfOk result (λ _. (more : List ℕ) × IsPartedByGhs options.now by columns.now front.now graph.now seed more × (lines.new.items ≡ lines.old.items ++ more)) }
{
    let world = run_of(alloc, options, graph, seed)?;
    // Read for their clauses: the events are a run, and no more than 2^40.
    let _ = world.net();
    let _ = world.turns();
    let events = world.trace();
    let form = options.form;
    put_run(alloc, lines, form, front, by, seed, columns, graph, events)
}

/// The world that the run of a seed leaves.
fn run_of(
    alloc: Global,
    options: &SweepOptions,
    graph: &Graph,
    seed: u64,
) -> Result<World, AllocError>
    requires { AreSweepLimits options.now }
    ensures graph { IfOk result (λ world. world.net.graph ≡ graph.now) }
    ensures run { IfOk result (λ world. IsPickedBy options.now.schedule_kind seed options.now.wake options.now.turns graph.now world.net.trace) }
{
    let mut world = match World::open(alloc, graph.copy(alloc)?, options.wake, options.turns) {
        Ok(world) => world,
        Err((_, error)) => return Err(error),
    };
    let _ = world.net();
    match run_by_seed(alloc, &mut world, options.schedule_kind, seed) {
        Ok(_) | Err(RunFault::TurnLimit) => Ok(world),
        Err(_) => Err(AllocError),
    }
}
