//! The steps of a stored run, judged and written out.
ghost use Rattle.std.specs.Prelude.{◌≡◌, ◌≤◌, false, length, true, IfErr, MatchResult, OnOk};
ghost use Rattle.std.specs.Io.KnownBytes.{Appends};
ghost use Rattle.peer_network.specs.Network.{network_of};
ghost use Rattle.ghs_protocol.specs.Run.{IsRunUnder};
ghost use Rattle.peer_texts.specs.declared.trace.TheConstants.{EVENT_LIMIT};
ghost use Rattle.peer_network.specs.Wakes.{may_wake};
ghost use Rattle.peer_steps.specs.Shown.{is_unlawful, is_write};
ghost use Rattle.ghs_steps.specs.Shown.{CantShow};
ghost use Rattle.ghs_steps.specs.Lines.{lines};

use crate::write::write_run;
use ghs_choices::choice::Choice;
use ghs_choices::form::Form;
use ghs_core::event::Event;
use ghs_gr::device::Sink;
use ghs_graph::graph::Graph;
use ghs_report::portions::WriteFault;
use ghs_sched::replay::replay;
use peer_network::wake_set::WakeSet;
use peer_schedule::fault::ReplayFault;
use peer_steps::fault::StepsFault;
use std::alloc::Global;

/// Writes a line for each chosen event of a stored run, in order, in the form that is asked for. The run is played twice:
/// whether each event is lawful is judged before the first byte goes out. A run that hasn't ended is shown too. Want of
/// memory, and a write that fails, may come behind a front of the lines.
///
/// ```text
/// let all = Choice { from: 1, to: u64::MAX, node: None };
/// write_steps(alloc, graph, WakeSet::All, &events, &all, Form::Text, &mut out)?;
/// // the run of the triangle begins with `1 2 - - wake Wakes - mark.0=branch;phase=found 0>1:connect(0) 1`
/// ```
pub fn write_steps<W: Sink>(
    alloc: Global,
    graph: Graph,
    wake: WakeSet,
    events: &[Event],
    choice: &Choice,
    form: Form,
    writer: &mut W,
) -> Result<(), StepsFault>
    requires few { length events.now ≤ EVENT_LIMIT }
    requires sound { W.has_failed writer.old ≡ false }
    ensures run { OnOk result (IsRunUnder (may_wake graph wake) (network_of graph) events.now) }
    ensures ok { OnOk result (Appends (W.held writer.old) (W.held writer.new) (lines form graph events.now choice.now)) }
    ensures err { IfErr result (λ fault. CantShow graph wake events.now (lines form graph events.now choice.now) (W.held writer.old) (W.held writer.new) fault) }
    ensures unlawful { IfErr result (λ fault. is_unlawful fault ≡ true → writer.new ≡ writer.old) }
    ensures failed { MatchResult result (λ _. W.has_failed writer.new ≡ false) (λ fault. W.has_failed writer.new ≡ is_write fault) }
{
    let world = match replay(alloc, graph, wake, events) {
        Ok(world) => world,
        Err((_, ReplayFault::NotLawful(event))) => return Err(StepsFault::NotLawful(event)),
        Err((_, _)) => return Err(StepsFault::Memory),
    };
    // Read for its clause: the events are a run.
    let _ = world.trace();
    match write_run(alloc, world.into_graph(), events, choice, form, writer) {
        Ok(()) => Ok(()),
        Err(WriteFault::Memory) => Err(StepsFault::Memory),
        Err(WriteFault::Write { written }) => Err(StepsFault::Write { written }),
    }
}
