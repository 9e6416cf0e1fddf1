//! Runs of a network by any protocol, and stored ones played again or told.
ghost use Rattle.ghs_answers.specs.Stepping.{AreSteps};
ghost use Rattle.ghs_cli.specs.AnyRun.{GoesOn, IsRan, IsReplayed, IsRunCause, IsShown, IsText, StopsRun};
ghost use Rattle.ghs_answers.specs.Causes.{IsWrite, is_memory, is_write};
ghost use Rattle.ghs_cli.specs.Serving.{is_late};
ghost use Rattle.ghs_answers.specs.Stepping.{HasTold};
ghost use Rattle.ghs_answers.specs.declared.fault.ServeFault.{ServeFault};
ghost use Rattle.ghs_commands.specs.declared.job.Show.TheVariants.{Events};
ghost use Rattle.ghs_commands.specs.declared.job.Task.{Task};
ghost use Rattle.peer_machine.specs.Run.{IsRunUnder, net_after};
ghost use Rattle.peer_net.specs.NetState.{network};
ghost use Rattle.peer_report.specs.Runs.{IsStopped};
ghost use Rattle.peer_runs.specs.Replays.{IsFirstUnlawful};
ghost use Rattle.peer_runs.specs.WorldState.{wakers};
ghost use Rattle.peer_trace.specs.Text.{stored_text};
ghost use Rattle.std.specs.Prelude.{◌≡◌, ◌↔◌, false, true, OnOk, IfErr, IfOk, IsErrOf};

use crate::running::Output;
use ghs_answers::fault::ServeFault;
use ghs_answers::timing::time_text_of;
use ghs_choices::schedule_kind::ScheduleKind;
use ghs_commands::job::{RunOptions, Show, StepsOptions};
use ghs_gr::device::Sink;
use ghs_graph::graph::Graph;
use ghs_report::report_text::ReportFault;
use peer_machine::ends::FindsTree;
use peer_machine::measured::Measured;
use peer_network::event::Event;
use peer_network::wake_set::WakeSet;
use peer_report::report_text::run_text;
use peer_report::run::{RunEnd, run_by_seed};
use peer_runs::replay::replay;
use peer_runs::world::World;
use peer_steps::show::write_steps;
use peer_trace::protocol::Protocol;
use peer_trace::trace::write_trace_of;
use peer_words::spoken::Spoken;
use std::alloc::{AllocError, Global};

/// What goes out of the run that the seed of the options picks of a graph. Stored events name the protocol.
pub(crate) fn ran<P: FindsTree + Spoken + Measured>(
    alloc: Global,
    setting: P::Setting,
    protocol: Protocol,
    options: &RunOptions,
    graph: Graph,
) -> Result<Output, ServeFault>
    requires { P.goes_by setting }
    ensures output { IfOk result (λ o. IsRan P.rules P.has_ended P.words.kind P.bound P.is_branch P.found protocol options.now graph o.at_limit o.text.items) }
    ensures limit { IfOk result (λ o. o.at_limit ≡ true → options.now.show ≡ Events) }
    ensures fault { IfErr result (StopsRun P.rules P.has_ended options.now graph) }
    ensures early { IfErr result (λ fault. is_late (Task.Run protocol options.now) fault ≡ false) }
{
    let (world, end) = run_by_seed::<P>(
        alloc,
        setting,
        graph,
        options.wake,
        options.schedule_kind,
        options.seed,
        options.turns,
    )?;
    match end {
        RunEnd::Ended => Ok(Output {
            text: shown(alloc, protocol, options.show, options.schedule_kind, &world)?,
            at_limit: false,
        }),
        RunEnd::Stopped => stopped(alloc, protocol, options, &world),
    }
}

/// What is shown of a world whose run has ended.
fn shown<P: FindsTree + Spoken + Measured>(
    alloc: Global,
    protocol: Protocol,
    show: Show,
    schedule_kind: ScheduleKind,
    world: &World<P>,
) -> Result<Vec<u8>, ServeFault>
    requires { P.has_ended world.now.net.graph (net_after P.rules world.now.net.graph world.now.net.trace) }
    ensures text { IfOk result (λ text. IsShown P.rules P.has_ended P.words.kind P.bound P.is_branch P.found protocol show schedule_kind world.now.net.graph world.now.net.trace text.items) }
    ensures err { IfErr result (λ fault. fault ≡ ServeFault.Memory) }
{
    match show {
        Show::Summary => reported(alloc, world),
        Show::Events => Ok(events_text(alloc, protocol, world)?),
        Show::Time => Ok(time_text_of(alloc, schedule_kind, world.net())?),
    }
}

/// The report of a run that has ended.
fn reported<P: FindsTree + Spoken>(alloc: Global, world: &World<P>) -> Result<Vec<u8>, ServeFault>
    requires { P.has_ended world.now.net.graph (net_after P.rules world.now.net.graph world.now.net.trace) }
    ensures text { IfOk result (λ text. IsText P.rules P.has_ended P.words.kind P.bound P.is_branch P.found world.now.net.graph world.now.net.trace text.items) }
    ensures err { IfErr result (λ fault. fault ≡ ServeFault.Memory) }
{
    match run_text(alloc, world) {
        Ok(text) => Ok(text),
        Err(ReportFault::NotEnded) => unreachable!(),
        Err(ReportFault::Memory) => Err(ServeFault::Memory),
    }
}

/// The text of a world's events, whose head names the protocol.
fn events_text<P: FindsTree>(
    alloc: Global,
    protocol: Protocol,
    world: &World<P>,
) -> Result<Vec<u8>, AllocError>
    ensures { IfOk result (λ text. text.items ≡ stored_text protocol world.now.net.trace) }
{
    write_trace_of(alloc, protocol, world.net().trace())
}

/// What goes out of a world whose run has used its turns: its events, where they are asked for.
fn stopped<P: FindsTree + Spoken>(
    alloc: Global,
    protocol: Protocol,
    options: &RunOptions,
    world: &World<P>,
) -> Result<Output, ServeFault>
    requires { IsStopped P.rules P.has_ended options.now.schedule_kind options.now.seed options.now.wake options.now.turns world.now.net.graph world.now.net.trace }
    ensures output { IfOk result (λ o. IsRan P.rules P.has_ended P.words.kind P.bound P.is_branch P.found protocol options.now world.now.net.graph o.at_limit o.text.items) }
    ensures asked { OnOk result (options.now.show ≡ Events) }
    ensures fault { IfErr result (StopsRun P.rules P.has_ended options.now world.now.net.graph) }
    ensures early { IfErr result (λ fault. is_late (Task.Run protocol options.now) fault ≡ false) }
{
    match options.show {
        Show::Summary | Show::Time => Err(ServeFault::TurnLimit),
        Show::Events => Ok(Output {
            text: events_text(alloc, protocol, world)?,
            at_limit: true,
        }),
    }
}

/// The text of the net that a list of events leaves of a graph.
pub(crate) fn replayed<P: FindsTree + Spoken>(
    alloc: Global,
    setting: P::Setting,
    wake: WakeSet,
    graph: Graph,
    events: &[Event],
) -> Result<Vec<u8>, ServeFault>
    requires { P.goes_by setting }
    ensures text { IfOk result (λ text. IsReplayed P.rules P.has_ended P.words.kind P.bound P.is_branch P.found wake graph events.now text.items) }
    ensures fault { IfErr result (λ fault. IsRunCause P.rules P.has_ended wake graph events.now fault) }
{
    match replay::<P>(alloc, setting, graph, wake, events) {
        Ok(world) => finished(alloc, &world),
        Err((_, fault)) => Err(fault.into()),
    }
}

/// The text of a world whose run has ended.
fn finished<P: FindsTree + Spoken>(alloc: Global, world: &World<P>) -> Result<Vec<u8>, ServeFault>
    ensures text { IfOk result (λ text. IsText P.rules P.has_ended P.words.kind P.bound P.is_branch P.found world.now.net.graph world.now.net.trace text.items) }
    ensures ended { OnOk result (P.has_ended world.now.net.graph (net_after P.rules world.now.net.graph world.now.net.trace)) }
    ensures fault { IfErr result (λ fault. GoesOn P.rules P.has_ended world.now.net.graph world.now.net.trace fault) }
    ensures run { IsRunUnder P.rules (wakers world.now) (network world.now.net) world.now.net.trace }
{
    let _ = world.net();
    match run_text(alloc, world) {
        Ok(text) => Ok(text),
        Err(ReportFault::NotEnded) => Err(ServeFault::NotEnded),
        Err(ReportFault::Memory) => Err(ServeFault::Memory),
    }
}

/// Writes the lines of the chosen steps of events, once they are known to be a run of a graph.
pub(crate) fn told<P: Spoken, W: Sink>(
    alloc: Global,
    setting: P::Setting,
    options: &StepsOptions,
    graph: Graph,
    events: &[Event],
    out: &mut W,
) -> Result<(), ServeFault>
    requires setting { P.goes_by setting }
    requires out { W.has_failed out.old ≡ false }
    ensures told { HasTold (AreSteps P.rules P.words options.now graph events.now) (IsFirstUnlawful P.rules graph options.now.wake events.now) (W.held out.old) (W.held out.new) result }
    ensures write { IsWrite result ↔ (W.has_failed out.new ≡ true) }
    ensures unread { IsErrOf result ServeFault.Read → ⊥ }
    ensures unwritten { IfErr result (λ fault. is_write fault ≡ false → is_memory fault ≡ false → out.new ≡ out.old) }
{
    let wake = options.wake;
    write_steps::<P, W>(
        alloc,
        setting,
        graph,
        wake,
        events,
        &options.choice,
        options.form,
        out,
    )?;
    Ok(())
}
