//! The steps of a whole run, written out.
ghost use Rattle.std.specs.Prelude.{◌≡◌, ◌≤◌, ◌++◌, ◌∷◌, [], false, length, slice_index, IfErr, IfOk, OnOk, MatchResult};
ghost use Rattle.std.specs.Io.KnownBytes.{Appends};
ghost use Rattle.ghs_graph.specs.Ports.{ports_of};
ghost use Rattle.peer_network.specs.Network.{network_of};
ghost use Rattle.peer_network.specs.Sums.{sum_below};
ghost use Rattle.ghs_report.specs.Written.{IsFront, is_write};
ghost use Rattle.peer_machine.specs.Ledger.{in_all};
ghost use Rattle.peer_machine.specs.Run.{IsRun};
ghost use Rattle.peer_net.specs.NetState.{net_of, IsLawful};
ghost use Rattle.peer_steps.specs.Step.{changes_by, sends_by};
ghost use Rattle.peer_steps.specs.Lines.{all_lines, line_by, line_in, lines, shown};

use crate::change::Change;
use crate::json::step_json;
use crate::line::step_line;
use crate::moment::{Moment, moment_at, work_of};
use crate::noting::{changes_since, note_before};
use crate::sent::{Sent, sent_by};
use ghs_choices::choice::Choice;
use ghs_choices::form::Form;
use ghs_gr::device::Sink;
use ghs_graph::graph::Graph;
use ghs_report::portions::{WriteFault, send_off, send_portion};
use peer_machine::event::Event;
use peer_net::ledger::in_total;
use peer_net::net::Net;
use peer_network::event::node_of;
use peer_words::spoken::Spoken;
use std::alloc::{AllocError, Global};

/// What an event has done.
#[derive(Drop)]
struct Effects<'s> {
    changes: Vec<Change<'s>>,
    sends: Vec<Sent<'s>>,
}

/// Writes a line for each chosen event of a run, in order, in the form that is asked for. The lines go out by portions,
/// so the memory that it takes doesn't grow with the text. At a fault what is out is a front of the text.
pub fn write_run<P: Spoken, W: Sink>(
    alloc: Global,
    setting: P::Setting,
    graph: Graph,
    events: &[Event],
    choice: &Choice,
    form: Form,
    writer: &mut W,
) -> Result<(), WriteFault>
    requires setting { P.goes_by setting }
    requires run { IsRun P.rules (network_of graph) events.now }
    requires sound { W.has_failed writer.old ≡ false }
    ensures ok { OnOk result (Appends (W.held writer.old) (W.held writer.new) (lines P.rules P.words form graph choice.now events.now)) }
    ensures err { IfErr result (λ fault. IsFront (W.held writer.old) (W.held writer.new) (lines P.rules P.words form graph choice.now events.now) fault) }
    ensures failed { MatchResult result (λ _. W.has_failed writer.new ≡ false) (λ fault. W.has_failed writer.new ≡ is_write fault) }
{
    let mut net = match Net::<P>::open(alloc, setting, graph) {
        Ok(net) => net,
        Err(_) => return Err(WriteFault::Memory),
    };
    let mut text = Vec::new(alloc);
    let mut gone = 0;
    for event in events {
        match show::<P>(alloc, &mut net, *event, choice, form, &mut text) {
            Ok(()) => {}
            Err(_) => return Err(WriteFault::Memory),
        }
        gone = match send_portion(writer, &mut text, gone) {
            Ok(now) => now,
            Err(fault) => return Err(fault),
        };
    }
    match send_off(writer, &mut text, gone) {
        Ok(_) => Ok(()),
        Err(fault) => Err(fault),
    }
}

/// Plays a run from the opening on and appends the line of each of its events, in the form that is asked for. Answers the
/// net that it leaves. Refusal: out of memory.
pub fn put_lines<P: Spoken>(
    alloc: Global,
    setting: P::Setting,
    graph: Graph,
    events: &[Event],
    form: Form,
    text: &mut Vec<u8>,
) -> Result<Net<P>, AllocError>
    requires setting { P.goes_by setting }
    requires run { IsRun P.rules (network_of graph) events.now }
    ensures graph { IfOk result (λ net. net.graph ≡ graph) }
    ensures trace { IfOk result (λ net. net.trace ≡ events.now) }
    ensures text { OnOk result (text.new.items ≡ text.old.items ++ all_lines P.rules P.words form graph events.now) }
{
    let mut net = match Net::<P>::open(alloc, setting, graph) {
        Ok(net) => net,
        Err((_, error)) => return Err(error),
    };
    for event in events {
        put_step::<P>(alloc, &mut net, *event, form, text)?;
    }
    Ok(net)
}

/// The event happens, and its line is appended if it is chosen. Refusal: out of memory.
fn show<P: Spoken>(
    alloc: Global,
    net: &mut Net<P>,
    event: Event,
    choice: &Choice,
    form: Form,
    text: &mut Vec<u8>,
) -> Result<(), AllocError>
    requires { IsLawful P.rules net.old event }
    ensures graph { OnOk result (net.new.graph ≡ net.old.graph) }
    ensures trace { OnOk result (net.new.trace ≡ net.old.trace ++ event ∷ []) }
    ensures text { OnOk result (text.new.items ≡ text.old.items ++ shown P.rules P.words form net.old.graph choice.now net.old.trace event) }
{
    let number = net.trace().len() as u64 + 1;
    if choice.has(number, node_of(event)) {
        put_step::<P>(alloc, net, event, form, text)
    } else {
        net.play(alloc, event)?;
        Ok(())
    }
}

/// The event happens, and its line is appended. Refusal: out of memory.
fn put_step<P: Spoken>(
    alloc: Global,
    net: &mut Net<P>,
    event: Event,
    form: Form,
    text: &mut Vec<u8>,
) -> Result<(), AllocError>
    requires { IsLawful P.rules net.old event }
    ensures graph { OnOk result (net.new.graph ≡ net.old.graph) }
    ensures trace { OnOk result (net.new.trace ≡ net.old.trace ++ event ∷ []) }
    ensures text { OnOk result (text.new.items ≡ text.old.items ++ line_by P.rules P.words form net.old.graph net.old.trace event) }
{
    let setting = net.setting();
    let moment = moment_at::<P>(alloc, &setting, net, event)?;
    let effects = make::<P>(alloc, &setting, net, event)?;
    put_line(text, form, &moment, &effects, total::<P>(net))?;
    Ok(())
}

/// The line of an event, in the form that is asked for.
fn put_line(
    text: &mut Vec<u8>,
    form: Form,
    moment: &Moment,
    effects: &Effects,
    total: u128,
) -> Result<(), AllocError>
    ensures { IfOk result (λ _. text.new.items ≡ text.old.items ++ line_in form moment.now effects.now.changes.items effects.now.sends.items total) }
{
    let changes = effects.changes.as_slice();
    let sends = effects.sends.as_slice();
    match form {
        Form::Text => step_line(text, moment, changes, sends, total),
        Form::Json => step_json(text, moment, changes, sends, total),
    }
}

/// The event happens. Answers what it has done. Refusal: out of memory.
fn make<'s, P: Spoken>(
    alloc: Global,
    setting: &'s P::Setting,
    net: &mut Net<P>,
    event: Event,
) -> Result<Effects<'s>, AllocError>
    requires setting { P.goes_by setting.now }
    requires lawful { IsLawful P.rules net.old event }
    ensures graph { OnOk result (net.new.graph ≡ net.old.graph) }
    ensures trace { OnOk result (net.new.trace ≡ net.old.trace ++ event ∷ []) }
    ensures changes { IfOk result (λ e. e.changes.items ≡ changes_by P.rules P.words net.old.graph net.old.trace event) }
    ensures sends { IfOk result (λ e. e.sends.items ≡ sends_by P.rules P.words net.old.graph net.old.trace event) }
{
    let v = node_of(event);
    // Read for its clauses: the net is that of a run, so there is a rule.
    let _ = net.trace();
    let answer = P::react(alloc, *setting, net.node(v), work_of::<P>(net, event))?;
    let sends = sent_by::<P>(alloc, setting, net.graph(), v, answer.sends.as_slice())?;
    let ports = degree(net.graph(), v);
    let before = note_before::<P>(alloc, setting, net.node(v), &answer.change, ports)?;
    net.play(alloc, event)?;
    let changes = changes_since::<P>(alloc, setting, &before, net.node(v))?;
    Ok(Effects { changes, sends })
}

/// How many ports a node has.
fn degree(graph: &Graph, v: u32) -> u32
    requires low { 1 ≤ v }
    requires high { v ≤ graph.now.nodes }
    ensures { result ≡ length (ports_of graph.now.keys v) }
{
    // Read for its clause: a graph's nodes have few ports.
    let _ = graph.nodes();
    graph.ports(v).len() as u32
}

/// How many messages were sent.
fn total<P: Spoken>(net: &Net<P>) -> u128
    ensures { result ≡ in_all P.rules (net_of P.rules net.now).sent }
{
    in_total(net.ledger().sent)
}
