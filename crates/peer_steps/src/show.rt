//! The steps of a stored run, judged and written out.
ghost use Rattle.std.specs.Prelude.{◌≡◌, false, true, IfErr, MatchResult, OnOk};
ghost use Rattle.std.specs.Io.KnownBytes.{Appends};
ghost use Rattle.peer_network.specs.Network.{network_of};
ghost use Rattle.peer_network.specs.Wakes.{may_wake};
ghost use Rattle.peer_machine.specs.Run.{IsRunUnder};
ghost use Rattle.peer_steps.specs.Lines.{lines};
ghost use Rattle.peer_steps.specs.Shown.{CantShow, is_unlawful, is_write};

use crate::fault::StepsFault;
use crate::write::write_run;
use ghs_choices::choice::Choice;
use ghs_choices::form::Form;
use ghs_gr::device::Sink;
use ghs_graph::graph::Graph;
use ghs_report::portions::WriteFault;
use peer_machine::event::Event;
use peer_network::wake_set::WakeSet;
use peer_runs::replay::replay;
use peer_schedule::fault::ReplayFault;
use peer_words::spoken::Spoken;
use std::alloc::Global;

/// Writes a line for each chosen event of a stored run, in order, in the form that is asked for. The run
/// is played twice: whether each event is lawful is judged before the first byte goes out. A run that hasn't ended is shown
/// too. Want of memory, and a write that fails, may come behind a front of the lines.
///
/// ```text
/// let all = Choice { from: 1, to: u64::MAX, node: None };
/// write_steps::<Boruvka, _>(alloc, (), graph, WakeSet::All, &events, &all, Form::Text, &mut out)?;
/// // the run of two nodes begins with `1 2 - - wake Wakes - phase=rest;out=0 0>1:connect(0) 1`
/// ```
pub fn write_steps<P: Spoken, W: Sink>(
    alloc: Global,
    setting: P::Setting,
    graph: Graph,
    wake: WakeSet,
    events: &[Event],
    choice: &Choice,
    form: Form,
    writer: &mut W,
) -> Result<(), StepsFault>
    requires setting { P.goes_by setting }
    requires sound { W.has_failed writer.old ≡ false }
    ensures run { OnOk result (IsRunUnder P.rules (may_wake graph wake) (network_of graph) events.now) }
    ensures ok { OnOk result (Appends (W.held writer.old) (W.held writer.new) (lines P.rules P.words form graph choice.now events.now)) }
    ensures err { IfErr result (λ fault. CantShow P.rules graph wake events.now (lines P.rules P.words form graph choice.now events.now) (W.held writer.old) (W.held writer.new) fault) }
    ensures unlawful { IfErr result (λ fault. is_unlawful fault ≡ true → writer.new ≡ writer.old) }
    ensures failed { MatchResult result (λ _. W.has_failed writer.new ≡ false) (λ fault. W.has_failed writer.new ≡ is_write fault) }
{
    let world = match replay::<P>(alloc, setting, graph, wake, events) {
        Ok(world) => world,
        Err((_, ReplayFault::NotLawful(event))) => return Err(StepsFault::NotLawful(event)),
        Err((_, _)) => return Err(StepsFault::Memory),
    };
    // Read for its clause: the events are a run.
    let _ = world.net();
    match write_run::<P, W>(
        alloc,
        setting,
        world.into_graph(),
        events,
        choice,
        form,
        writer,
    ) {
        Ok(()) => Ok(()),
        Err(WriteFault::Memory) => Err(StepsFault::Memory),
        Err(WriteFault::Write { written }) => Err(StepsFault::Write { written }),
    }
}
