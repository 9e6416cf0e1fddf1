//! Runs of a network, by each protocol; those by GHS go by the schedule of a seed, or by threads.
ghost use Rattle.ghs_protocol.specs.Marks.{HasEnded};
ghost use Rattle.ghs_protocol.specs.Run.{IsRun};
ghost use Rattle.peer_network.specs.Network.{network_of};
ghost use Rattle.ghs_pool.specs.Ends.{EndFits};
ghost use Rattle.ghs_pool.specs.Follows.{Follows};
ghost use Rattle.ghs_world.specs.WorldState.{home};
ghost use Rattle.ghs_commands.specs.Job.{AreWithinLimits};
ghost use Rattle.ghs_cli.specs.Running.{AreItsLaps, AreItsRounds, IsOpened, IsRan, IsReport, IsShown, IsStopped, IsTime, IsWholeRun, Stops, StopsRun};
ghost use Rattle.ghs_cli.specs.Serving.{IsBoundedTask, IsOfText, IsTextCause, Serves, is_late};
ghost use Rattle.ghs_answers.specs.Causes.{IsWrite};
ghost use Rattle.ghs_cli.specs.Verbs.{NeverStops, verbs_of};
ghost use Rattle.ghs_commands.specs.declared.job.Show.TheVariants.{Events};
ghost use Rattle.ghs_commands.specs.declared.job.Task.{Task};
ghost use Rattle.peer_trace.specs.declared.protocol.Protocol.{Protocol};
ghost use Rattle.ghs_answers.specs.declared.fault.ServeFault.{ServeFault};
ghost use Rattle.std.specs.Prelude.{◌≡◌, ◌≤◌, ◌↔◌, ◌^◌, List, ℕ, length, false, true, IfSome, IsErrOf, OnOk, IfErr, IfOk};

use crate::any_run;
use crate::progress::{Tallying, run_told, tell_end};
use crate::reading::graph_of;
use boruvka::protocol::Boruvka;
use bumpalo::Bump;
use echo::protocol::Echo;
use gather::protocol::Gather;
use ghs_answers::fault::ServeFault;
use ghs_commands::job::{RunOptions, Show};
use ghs_gr::device::{Sink, Source};
use ghs_gr::laws::law_one_judgement;
use ghs_graph::graph::Graph;
use ghs_picking::laps::{LapCount, lap_count};
use ghs_picking::picking::run_timed;
use ghs_picking::time::time_text;
use ghs_pool::end::PoolFault;
use ghs_pool::workers::run_workers;
use ghs_report::core_lines::put_ended_cores;
use ghs_report::report_text::ReportFault;
use ghs_report::run_text::run_text;
use ghs_report::write_out::write_out;
use ghs_sched::fault::RunFault;
use ghs_sched::run::RunEnd;
use ghs_world::world::World;
use peer_network::event::Event;
use peer_report::laws::law_turns;
use peer_texts::trace::write_trace;
use peer_trace::protocol::Protocol;
use std::alloc::Global;
use std::sync::Wait;
use std::thread::Threads;

/// What goes out of a run, and whether the answer behind it is that its turns are used.
#[derive(Drop)]
pub(crate) struct Output {
    pub text: Vec<u8>,
    pub at_limit: bool,
}

/// Runs the graph that the device gives by a protocol, and writes what is asked for of the run. Where its events are asked
/// for, they go out before the answer that its turns are used.
pub(crate) fn write_run_of<S: Source, W: Sink, R: Threads + Wait + Eprint + Sync>(
    rt: &R,
    alloc: Global,
    protocol: Protocol,
    options: &RunOptions,
    graph: &mut S,
    out: &mut W,
) -> Result<(), ServeFault>
    requires limits { AreWithinLimits options.now }
    requires graph { S.has_failed graph.old ≡ false }
    requires out { W.has_failed out.old ≡ false }
    ensures serves { (stored : List ℕ) → IfSome (S.left graph.old) (λ input. Serves (Task.Run protocol options.now) stored input (W.held out.old) (W.held out.new) result) }
    ensures read { IsErrOf result ServeFault.Read ↔ (S.has_failed graph.new ≡ true) }
    ensures write { IsWrite result ↔ (W.has_failed out.new ≡ true) }
    ensures ends { IfSome (S.left graph.old) (λ input. IsBoundedTask (Task.Run protocol options.now) input → IsErrOf result ServeFault.TurnLimit → ⊥) }
    ensures unwritten { IfErr result (λ fault. is_late (Task.Run protocol options.now) fault ≡ false → out.new ≡ out.old) }
{
    law_one_judgement();
    law_never_stops(protocol);
    let output = output_of(rt, alloc, protocol, options, graph)?;
    write_out(out, &output.text)?;
    if output.at_limit {
        return Err(ServeFault::TurnLimit);
    }
    Ok(())
}

/// A run by a protocol that has turns for all its events isn't stopped at its turns. The law is a function that does nothing.
fn law_never_stops(protocol: Protocol)
    ensures { NeverStops (verbs_of protocol) }
{
    match protocol {
        Protocol::Ghs => {}
        Protocol::Boruvka => law_turns::<Boruvka>(),
        Protocol::Echo => law_turns::<Echo>(),
        Protocol::Gather => law_turns::<Gather>(),
    }
}

/// What goes out of a run of the graph that the device gives.
fn output_of<S: Source, R: Threads + Wait + Eprint + Sync>(
    rt: &R,
    alloc: Global,
    protocol: Protocol,
    options: &RunOptions,
    graph: &mut S,
) -> Result<Output, ServeFault>
    requires limits { AreWithinLimits options.now }
    requires graph { S.has_failed graph.old ≡ false }
    ensures output { IfOk result (λ o. IfSome (S.left graph.old) (λ input. IsOfText options.now.wake (λ g. (verbs_of protocol).runs options.now g o.at_limit) input o.text.items)) }
    ensures limit { IfOk result (λ o. o.at_limit ≡ true → options.now.show ≡ Events) }
    ensures fault { IfErr result (λ fault. IfSome (S.left graph.old) (λ input. IsTextCause options.now.wake ((verbs_of protocol).stops options.now) input fault)) }
    ensures early { IfErr result (λ fault. is_late (Task.Run protocol options.now) fault ≡ false) }
    ensures read { IsErrOf result ServeFault.Read ↔ (S.has_failed graph.new ≡ true) }
{
    let graph = graph_of(alloc, options.wake, graph)?;
    ran_by(rt, alloc, protocol, options, graph)
}

/// What goes out of a run of a graph by a protocol.
fn ran_by<R: Threads + Wait + Eprint + Sync>(
    rt: &R,
    alloc: Global,
    protocol: Protocol,
    options: &RunOptions,
    graph: Graph,
) -> Result<Output, ServeFault>
    requires limits { AreWithinLimits options.now }
    ensures output { IfOk result (λ o. (verbs_of protocol).runs options.now graph o.at_limit o.text.items) }
    ensures limit { IfOk result (λ o. o.at_limit ≡ true → options.now.show ≡ Events) }
    ensures fault { IfErr result ((verbs_of protocol).stops options.now graph) }
    ensures early { IfErr result (λ fault. is_late (Task.Run protocol options.now) fault ≡ false) }
    ensures unread { IsErrOf result ServeFault.Read → ⊥ }
{
    match protocol {
        Protocol::Ghs => ran(rt, alloc, options, graph),
        Protocol::Boruvka => any_run::ran::<Boruvka>(alloc, (), protocol, options, graph),
        Protocol::Echo => any_run::ran::<Echo>(alloc, (), protocol, options, graph),
        Protocol::Gather => {
            let lists = Bump::new(alloc);
            any_run::ran::<Gather>(alloc, &lists, protocol, options, graph)
        }
    }
}

/// What goes out of a run of a graph by GHS.
fn ran<R: Threads + Wait + Eprint + Sync>(
    rt: &R,
    alloc: Global,
    options: &RunOptions,
    graph: Graph,
) -> Result<Output, ServeFault>
    requires limits { AreWithinLimits options.now }
    ensures output { IfOk result (λ o. IsRan options.now graph o.at_limit o.text.items) }
    ensures limit { IfOk result (λ o. o.at_limit ≡ true → options.now.show ≡ Events) }
    ensures fault { IfErr result (StopsRun options.now graph) }
    ensures early { IfErr result (λ fault. is_late (Task.Run Protocol.Ghs options.now) fault ≡ false) }
{
    let Ok(world) = World::open(alloc, graph, options.wake, options.turns) else {
        return Err(ServeFault::Memory);
    };
    let (world, rounds, end) = run_on(rt, alloc, options, world);
    tell_end(rt, options.progress, &world);
    printed(alloc, options, &world, rounds, end)
}

/// Runs a world on until its run has ended, or as far as it comes, and says in how many rounds, where it goes by rounds.
/// Threads go by none.
fn run_on<R: Threads + Wait + Eprint + Sync>(
    rt: &R,
    alloc: Global,
    options: &RunOptions,
    world: World,
) -> (World, Option<u64>, Result<RunEnd, ServeFault>)
    requires limits { AreWithinLimits options.now }
    requires opened { IsOpened options.now world }
    ensures graph { result.0.net.graph ≡ world.net.graph }
    ensures rounds { AreItsRounds options.now result.0.net.graph result.0.net.trace result.1 }
    ensures whole { OnOk result.2 (IsWholeRun options.now result.0.net.graph result.0.net.trace) }
    ensures stops { IfErr result.2 (Stops options.now result.0) }
{
    if options.workers == 0 {
        return by_schedule(alloc, options, world);
    }
    let (world, end) = run_threads(rt, alloc, options, world);
    let end = end_of(options, &world, end);
    (world, None, end)
}

/// Runs a world by the schedule of a seed, and says in how many rounds, where it goes by rounds.
fn by_schedule(
    alloc: Global,
    options: &RunOptions,
    mut world: World,
) -> (World, Option<u64>, Result<RunEnd, ServeFault>)
    requires opened { IsOpened options.now world }
    requires alone { options.now.workers ≡ 0 }
    ensures graph { result.0.net.graph ≡ world.net.graph }
    ensures rounds { AreItsRounds options.now result.0.net.graph result.0.net.trace result.1 }
    ensures whole { OnOk result.2 (IsWholeRun options.now result.0.net.graph result.0.net.trace) }
    ensures stops { IfErr result.2 (Stops options.now result.0) }
{
    let (rounds, end) = run_timed(alloc, &mut world, options.schedule_kind, options.seed);
    let _ = world.net();
    let _ = world.turns();
    match end {
        Ok(end) => (world, rounds, Ok(end)),
        Err(RunFault::TurnLimit) => (world, rounds, Err(ServeFault::TurnLimit)),
        Err(RunFault::Stalled) => unreachable!(),
        Err(RunFault::Unforeseen) => unreachable!(),
        Err(RunFault::Memory) => (world, rounds, Err(ServeFault::Memory)),
    }
}

/// Runs a world by threads, watched where progress is to be told; each tells at its end what it has done, where that is.
fn run_threads<R: Threads + Wait + Eprint + Sync>(
    rt: &R,
    alloc: Global,
    options: &RunOptions,
    world: World,
) -> (World, Result<RunEnd, PoolFault>)
    requires workers { (1 ≤ options.now.workers) × (options.now.workers ≤ 64) }
    ensures follows { Follows result.0 world }
    ensures end { EndFits result.0 result.1 }
{
    let gate = Tallying::new(rt, options.tally);
    if options.progress {
        run_told(rt, alloc, world, options.workers, &gate)
    } else {
        run_workers(rt, alloc, world, options.workers, &gate)
    }
}

/// What the end of workers comes to.
fn end_of(
    options: &RunOptions,
    world: &World,
    end: Result<RunEnd, PoolFault>,
) -> Result<RunEnd, ServeFault>
    requires workers { 1 ≤ options.now.workers }
    requires wake { world.now.wake ≡ options.now.wake }
    requires turns { world.now.turns ≡ options.now.turns }
    requires end { EndFits world.now end }
    ensures whole { OnOk result (IsWholeRun options.now world.now.net.graph world.now.net.trace) }
    ensures stops { IfErr result (Stops options.now world.now) }
{
    let _ = world.net();
    let _ = world.turns();
    match end {
        Ok(end) => Ok(end),
        Err(PoolFault::TurnLimit) => Err(limit_of(options, world)),
        Err(PoolFault::Stalled) => unreachable!(),
        Err(PoolFault::Unforeseen) => unreachable!(),
        Err(PoolFault::Memory) => Err(ServeFault::Memory),
        Err(PoolFault::Strange) => Err(ServeFault::Strange),
        Err(PoolFault::NoThread) => Err(ServeFault::NoThread),
    }
}

/// What the turn limit of workers is: with turns left it is the ticket numbers that are used up, all 2^64 of them.
fn limit_of(options: &RunOptions, world: &World) -> ServeFault
    requires workers { 1 ≤ options.now.workers }
    requires wake { world.now.wake ≡ options.now.wake }
    requires turns { world.now.turns ≡ options.now.turns }
    requires goes_on { HasEnded world.now.net.graph (home world.now) → ⊥ }
    ensures { Stops options.now world.now result }
{
    let turns = world.turns();
    let events = world.net().events();
    if events < turns {
        return ServeFault::Strange;
    }
    ServeFault::TurnLimit
}

/// What goes out of the world that a run leaves.
fn printed(
    alloc: Global,
    options: &RunOptions,
    world: &World,
    rounds: Option<u64>,
    end: Result<RunEnd, ServeFault>,
) -> Result<Output, ServeFault>
    requires rounds { AreItsRounds options.now world.now.net.graph world.now.net.trace rounds }
    requires whole { OnOk end (IsWholeRun options.now world.now.net.graph world.now.net.trace) }
    requires stops { IfErr end (Stops options.now world.now) }
    ensures output { IfOk result (λ o. IsRan options.now world.now.net.graph o.at_limit o.text.items) }
    ensures limit { IfOk result (λ o. o.at_limit ≡ true → options.now.show ≡ Events) }
    ensures fault { IfErr result (StopsRun options.now world.now.net.graph) }
    ensures early { IfErr result (λ fault. is_late (Task.Run Protocol.Ghs options.now) fault ≡ false) }
{
    match end {
        Ok(_) => {
            let text = shown(alloc, options, world, rounds)?;
            Ok(Output {
                text,
                at_limit: false,
            })
        }
        Err(ServeFault::TurnLimit) => stopped(alloc, options, world),
        Err(fault) => Err(fault),
    }
}

/// What is shown of a world whose run has ended.
fn shown(
    alloc: Global,
    options: &RunOptions,
    world: &World,
    rounds: Option<u64>,
) -> Result<Vec<u8>, ServeFault>
    requires rounds { AreItsRounds options.now world.now.net.graph world.now.net.trace rounds }
    requires ended { HasEnded world.now.net.graph (home world.now) }
    ensures text { IfOk result (λ text. IsShown options.now.show options.now world.now.net.graph world.now.net.trace text.items) }
    ensures err { IfErr result (λ fault. fault ≡ ServeFault.Memory) }
{
    match options.show {
        Show::Summary => reported(alloc, world, options.core),
        Show::Events => Ok(write_trace(alloc, world.trace())?),
        Show::Time => timed(alloc, options, world, rounds),
    }
}

/// The time of a world's run, and its bits.
fn timed(
    alloc: Global,
    options: &RunOptions,
    world: &World,
    rounds: Option<u64>,
) -> Result<Vec<u8>, ServeFault>
    requires rounds { AreItsRounds options.now world.now.net.graph world.now.net.trace rounds }
    ensures text { IfOk result (λ text. IsTime options.now world.now.net.graph world.now.net.trace text.items) }
    ensures err { IfErr result (λ fault. fault ≡ ServeFault.Memory) }
{
    // Read for their clauses: the events are a run, and no more than 2^40.
    let _ = world.net();
    let _ = world.turns();
    let laps = laps_by(options, world.graph(), world.trace());
    Ok(time_text(
        alloc,
        world.graph(),
        options.wake,
        world.trace(),
        rounds,
        laps,
    )?)
}

/// The laps of a run, where its schedule goes by round robin; threads go by none.
fn laps_by(options: &RunOptions, graph: &Graph, events: &[Event]) -> Option<LapCount>
    requires run { IsRun (network_of graph.now) events.now }
    requires few { length events.now ≤ 2 ^ 40 }
    ensures { AreItsLaps options.now graph.now events.now result }
{
    if options.workers == 0 {
        return lap_count(graph, events, options.schedule_kind);
    }
    None
}

/// The report of a run that has ended, with its cores where they are asked for.
fn reported(alloc: Global, world: &World, core: bool) -> Result<Vec<u8>, ServeFault>
    requires { HasEnded world.now.net.graph (home world.now) }
    ensures text { IfOk result (λ text. IsReport core world.now.net.graph world.now.net.trace text.items) }
    ensures err { IfErr result (λ fault. fault ≡ ServeFault.Memory) }
{
    let net = world.net();
    let mut text = match run_text(alloc, world) {
        Ok(text) => text,
        Err(ReportFault::NotEnded) => unreachable!(),
        Err(ReportFault::Memory) => return Err(ServeFault::Memory),
    };
    if core {
        put_ended_cores(alloc, &mut text, net)?;
    }
    Ok(text)
}

/// What goes out of a world whose run has used its turns: its events, where they are asked for.
fn stopped(alloc: Global, options: &RunOptions, world: &World) -> Result<Output, ServeFault>
    requires { IsStopped options.now world.now.net.graph world.now.net.trace }
    ensures output { IfOk result (λ o. IsRan options.now world.now.net.graph o.at_limit o.text.items) }
    ensures asked { OnOk result (options.now.show ≡ Events) }
    ensures fault { IfErr result (StopsRun options.now world.now.net.graph) }
    ensures early { IfErr result (λ fault. is_late (Task.Run Protocol.Ghs options.now) fault ≡ false) }
{
    match options.show {
        Show::Summary | Show::Time => Err(ServeFault::TurnLimit),
        Show::Events => Ok(Output {
            text: write_trace(alloc, world.trace())?,
            at_limit: true,
        }),
    }
}
