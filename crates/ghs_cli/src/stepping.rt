//! What each event of a stored run does, line by line.
ghost use Rattle.ghs_cli.specs.Running.{AreSteps};
ghost use Rattle.ghs_answers.specs.Causes.{IsWrite, is_memory, is_write};
ghost use Rattle.ghs_cli.specs.Serving.{Serves, is_late};
ghost use Rattle.ghs_answers.specs.Stepping.{HasTold};
ghost use Rattle.ghs_cli.specs.Verbs.{verbs_of};
ghost use Rattle.ghs_answers.specs.declared.fault.ServeFault.{ServeFault};
ghost use Rattle.ghs_commands.specs.declared.job.Task.{Task};
ghost use Rattle.ghs_sched.specs.Replays.{IsFirstUnlawful};
ghost use Rattle.std.specs.Prelude.{◌≡◌, ◌≤◌, ◌⊎◌, ◌↔◌, false, length, true, IfErr, IfSome, IsErrOf};

use crate::any_run;
use crate::reading::{events_of, graph_of};
use boruvka::protocol::Boruvka;
use bumpalo::Bump;
use echo::protocol::Echo;
use gather::protocol::Gather;
use ghs_answers::fault::ServeFault;
use ghs_commands::job::StepsOptions;
use ghs_gr::device::{Sink, Source};
use ghs_graph::graph::Graph;
use ghs_steps::show::write_steps;
use peer_network::event::Event;
use peer_texts::trace::EVENT_LIMIT;
use peer_trace::protocol::Protocol;
use std::alloc::Global;

/// Writes the lines of the chosen steps of a stored run, by a protocol, of the graph that a device gives. The trace is judged
/// first, then the graph, then whether each event is lawful: all before the first byte.
pub(crate) fn write_steps_of<R: Source, T: Source, W: Sink>(
    alloc: Global,
    protocol: Protocol,
    options: &StepsOptions,
    graph: &mut R,
    trace: &mut T,
    out: &mut W,
) -> Result<(), ServeFault>
    requires graph { R.has_failed graph.old ≡ false }
    requires trace { T.has_failed trace.old ≡ false }
    requires out { W.has_failed out.old ≡ false }
    ensures serves { IfSome (T.left trace.old) (λ stored. IfSome (R.left graph.old) (λ input. Serves (Task.Steps protocol options.now) stored input (W.held out.old) (W.held out.new) result)) }
    ensures read { IsErrOf result ServeFault.Read ↔ ((R.has_failed graph.new ≡ true) ⊎ (T.has_failed trace.new ≡ true)) }
    ensures write { IsWrite result ↔ (W.has_failed out.new ≡ true) }
    ensures unwritten { IfErr result (λ fault. is_late (Task.Steps protocol options.now) fault ≡ false → out.new ≡ out.old) }
{
    let events = events_of(alloc, protocol, trace)?;
    let graph = graph_of(alloc, options.wake, graph)?;
    told_by(alloc, protocol, options, graph, &events, out)
}

/// Writes the lines of the chosen steps of events, once they are known to be a run of a graph by a protocol.
fn told_by<W: Sink>(
    alloc: Global,
    protocol: Protocol,
    options: &StepsOptions,
    graph: Graph,
    events: &[Event],
    out: &mut W,
) -> Result<(), ServeFault>
    requires few { length events.now ≤ EVENT_LIMIT }
    requires out { W.has_failed out.old ≡ false }
    ensures told { HasTold ((verbs_of protocol).tells options.now graph events.now) ((verbs_of protocol).is_unlawful options.now.wake graph events.now) (W.held out.old) (W.held out.new) result }
    ensures write { IsWrite result ↔ (W.has_failed out.new ≡ true) }
    ensures unread { IsErrOf result ServeFault.Read → ⊥ }
    ensures unwritten { IfErr result (λ fault. is_write fault ≡ false → is_memory fault ≡ false → out.new ≡ out.old) }
{
    match protocol {
        Protocol::Ghs => told(alloc, options, graph, events, out),
        Protocol::Boruvka => any_run::told::<Boruvka, W>(alloc, (), options, graph, events, out),
        Protocol::Echo => any_run::told::<Echo, W>(alloc, (), options, graph, events, out),
        Protocol::Gather => {
            let lists = Bump::new(alloc);
            any_run::told::<Gather, W>(alloc, &lists, options, graph, events, out)
        }
    }
}

/// The same by GHS.
fn told<W: Sink>(
    alloc: Global,
    options: &StepsOptions,
    graph: Graph,
    events: &[Event],
    out: &mut W,
) -> Result<(), ServeFault>
    requires few { length events.now ≤ EVENT_LIMIT }
    requires out { W.has_failed out.old ≡ false }
    ensures told { HasTold (AreSteps options.now graph events.now) (IsFirstUnlawful graph options.now.wake events.now) (W.held out.old) (W.held out.new) result }
    ensures write { IsWrite result ↔ (W.has_failed out.new ≡ true) }
    ensures unread { IsErrOf result ServeFault.Read → ⊥ }
    ensures unwritten { IfErr result (λ fault. is_write fault ≡ false → is_memory fault ≡ false → out.new ≡ out.old) }
{
    write_steps(
        alloc,
        graph,
        options.wake,
        events,
        &options.choice,
        options.form,
        out,
    )?;
    Ok(())
}
