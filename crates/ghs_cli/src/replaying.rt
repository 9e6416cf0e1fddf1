//! Stored runs, played again.
ghost use Rattle.ghs_core.specs.NetState.{network};
ghost use Rattle.ghs_protocol.specs.Marks.{HasEnded};
ghost use Rattle.ghs_protocol.specs.Run.{IsRunUnder};
ghost use Rattle.ghs_report.specs.ReportText.{IsReportText};
ghost use Rattle.ghs_world.specs.WorldState.{home, wakers};
ghost use Rattle.ghs_cli.specs.Running.{GoesOn, IsReplayed, IsRunCause};
ghost use Rattle.ghs_cli.specs.Serving.{IsBothCause, IsOfBoth};
ghost use Rattle.ghs_answers.specs.Causes.{is_write};
ghost use Rattle.ghs_cli.specs.Verbs.{verbs_of};
ghost use Rattle.ghs_answers.specs.declared.fault.ServeFault.{ServeFault};
ghost use Rattle.std.specs.Prelude.{◌≡◌, ◌≤◌, ◌⊎◌, ◌↔◌, false, length, true, IfSome, IsErrOf, OnOk, IfErr, IfOk};

use crate::any_run;
use crate::reading::{events_of, graph_of};
use boruvka::protocol::Boruvka;
use bumpalo::Bump;
use echo::protocol::Echo;
use gather::protocol::Gather;
use ghs_answers::fault::ServeFault;
use ghs_gr::device::Source;
use ghs_graph::graph::Graph;
use ghs_report::report_text::ReportFault;
use ghs_report::run_text::run_text;
use ghs_sched::replay::replay;
use ghs_world::world::World;
use peer_network::event::Event;
use peer_network::wake_set::WakeSet;
use peer_texts::trace::EVENT_LIMIT;
use peer_trace::protocol::Protocol;
use std::alloc::Global;

/// The text of the net that a stored run leaves of the graph that a device gives.
pub(crate) fn replay_text_of<R: Source, T: Source>(
    alloc: Global,
    protocol: Protocol,
    wake: WakeSet,
    graph: &mut R,
    trace: &mut T,
) -> Result<Vec<u8>, ServeFault>
    requires graph { R.has_failed graph.old ≡ false }
    requires trace { T.has_failed trace.old ≡ false }
    ensures text { IfOk result (λ text. IfSome (T.left trace.old) (λ stored. IfSome (R.left graph.old) (λ input. IsOfBoth protocol wake ((verbs_of protocol).replays wake) stored input text.items))) }
    ensures fault { IfErr result (λ fault. IfSome (T.left trace.old) (λ stored. IfSome (R.left graph.old) (λ input. IsBothCause protocol wake ((verbs_of protocol).cant_replay wake) stored input fault))) }
    ensures early { IfErr result (λ fault. is_write fault ≡ false) }
    ensures read { IsErrOf result ServeFault.Read ↔ ((R.has_failed graph.new ≡ true) ⊎ (T.has_failed trace.new ≡ true)) }
{
    let events = events_of(alloc, protocol, trace)?;
    let graph = graph_of(alloc, wake, graph)?;
    replayed_by(alloc, protocol, wake, graph, &events)
}

/// The text of the net that a list of events leaves of a graph, by the rules of a protocol.
fn replayed_by(
    alloc: Global,
    protocol: Protocol,
    wake: WakeSet,
    graph: Graph,
    events: &[Event],
) -> Result<Vec<u8>, ServeFault>
    requires { length events.now ≤ EVENT_LIMIT }
    ensures text { IfOk result (λ text. (verbs_of protocol).replays wake graph events.now text.items) }
    ensures fault { IfErr result ((verbs_of protocol).cant_replay wake graph events.now) }
    ensures early { IfErr result (λ fault. is_write fault ≡ false) }
    ensures unread { IsErrOf result ServeFault.Read → ⊥ }
{
    match protocol {
        Protocol::Ghs => replayed(alloc, wake, graph, events),
        Protocol::Boruvka => any_run::replayed::<Boruvka>(alloc, (), wake, graph, events),
        Protocol::Echo => any_run::replayed::<Echo>(alloc, (), wake, graph, events),
        Protocol::Gather => {
            let lists = Bump::new(alloc);
            any_run::replayed::<Gather>(alloc, &lists, wake, graph, events)
        }
    }
}

/// The text of the net that a list of events leaves of a graph, by GHS.
fn replayed(
    alloc: Global,
    wake: WakeSet,
    graph: Graph,
    events: &[Event],
) -> Result<Vec<u8>, ServeFault>
    requires { length events.now ≤ EVENT_LIMIT }
    ensures text { IfOk result (λ text. IsReplayed wake graph events.now text.items) }
    ensures fault { IfErr result (λ fault. IsRunCause wake graph events.now fault) }
{
    match replay(alloc, graph, wake, events) {
        Ok(world) => finished(alloc, &world),
        Err((_, fault)) => Err(fault.into()),
    }
}

/// The text of a world whose run has ended.
fn finished(alloc: Global, world: &World) -> Result<Vec<u8>, ServeFault>
    ensures text { IfOk result (λ text. IsReportText world.now.net.graph (home world.now) text.items) }
    ensures ended { OnOk result (HasEnded world.now.net.graph (home world.now)) }
    ensures fault { IfErr result (λ fault. GoesOn world.now.net.graph (home world.now) fault) }
    ensures run { IsRunUnder (wakers world.now) (network world.now.net) world.now.net.trace }
{
    let _ = world.net();
    match run_text(alloc, world) {
        Ok(text) => Ok(text),
        Err(ReportFault::NotEnded) => Err(ServeFault::NotEnded),
        Err(ReportFault::Memory) => Err(ServeFault::Memory),
    }
}
