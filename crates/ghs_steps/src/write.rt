//! The steps of a whole run, written out.
ghost use Rattle.std.specs.Prelude.{◌≡◌, ◌≤◌, ◌<◌, ◌^◌, ◌++◌, ◌∷◌, [], false, length, slice_index, IfErr, IfOk, OnOk, MatchResult};
ghost use Rattle.std.specs.Io.KnownBytes.{Appends};
ghost use Rattle.std.specs.List.{flat_map};
ghost use Rattle.ghs_protocol.specs.Ledger.{in_all};
ghost use Rattle.peer_network.specs.Events.{event_node};
ghost use Rattle.peer_network.specs.Network.{network_of};
ghost use Rattle.ghs_protocol.specs.Run.{IsRun};
ghost use Rattle.ghs_core.specs.NetState.{net_of, work_at, IsAnswer, IsLawful};
ghost use Rattle.ghs_node.specs.Reaction.{IsReaction};
ghost use Rattle.ghs_node.specs.Rows.{Row};
ghost use Rattle.ghs_steps.specs.Step.{step, steps};
ghost use Rattle.ghs_steps.specs.Lines.{line_in, lines, shown};
ghost use Rattle.ghs_report.specs.Written.{IsFront, is_write};

use crate::change::{Change, changes};
use crate::json::step_json;
use crate::line::step_line;
use crate::moment::Moment;
use crate::sent::{Sent, sent_by};
use ghs_choices::choice::Choice;
use ghs_choices::form::Form;
use ghs_core::event::{Event, node_of};
use ghs_core::net::Net;
use ghs_gr::device::Sink;
use ghs_graph::graph::Graph;
use ghs_node::delta::Delta;
use ghs_node::react::react;
use ghs_node::row_name::row_of;
use ghs_report::portions::{WriteFault, send_off, send_portion};
use peer_steps::moment::far_end;
use std::alloc::{AllocError, Global};

/// Writes a line for each chosen event of a run, in order, in the form that is asked for. The lines go out by portions,
/// so the memory that it takes doesn't grow with the text. At a fault what is out is a front of the text.
pub fn write_run<W: Sink>(
    alloc: Global,
    graph: Graph,
    events: &[Event],
    choice: &Choice,
    form: Form,
    writer: &mut W,
) -> Result<(), WriteFault>
    requires run { IsRun (network_of graph) events.now }
    requires few { length events.now ≤ 2 ^ 40 }
    requires sound { W.has_failed writer.old ≡ false }
    ensures ok { OnOk result (Appends (W.held writer.old) (W.held writer.new) (lines form graph events.now choice.now)) }
    ensures err { IfErr result (λ fault. IsFront (W.held writer.old) (W.held writer.new) (lines form graph events.now choice.now) fault) }
    ensures failed { MatchResult result (λ _. W.has_failed writer.new ≡ false) (λ fault. W.has_failed writer.new ≡ is_write fault) }
{
    let mut net = match Net::open(alloc, graph) {
        Ok(net) => net,
        Err(_) => return Err(WriteFault::Memory),
    };
    let mut text = Vec::new(alloc);
    let mut gone = 0;
    for event in events {
        match show(alloc, &mut net, *event, choice, form, &mut text) {
            Ok(()) => {}
            Err(_) => return Err(WriteFault::Memory),
        }
        gone = match send_portion(writer, &mut text, gone) {
            Ok(now) => now,
            Err(fault) => return Err(fault),
        };
    }
    match send_off(writer, &mut text, gone) {
        Ok(_) => Ok(()),
        Err(fault) => Err(fault),
    }
}

/// Plays a run from the opening on and appends the line of each of its events, in the form that is asked for. Answers the
/// net that it leaves. Refusal: out of memory.
pub fn put_lines(
    alloc: Global,
    graph: Graph,
    events: &[Event],
    form: Form,
    text: &mut Vec<u8>,
) -> Result<Net, AllocError>
    requires run { IsRun (network_of graph) events.now }
    requires few { length events.now ≤ 2 ^ 40 }
    ensures graph { IfOk result (λ net. net.graph ≡ graph) }
    ensures trace { IfOk result (λ net. net.trace ≡ events.now) }
    ensures text { OnOk result (text.new.items ≡ text.old.items ++ flat_map (line_in form) (steps graph events.now)) }
{
    let mut net = match Net::open(alloc, graph) {
        Ok(net) => net,
        Err((_, error)) => return Err(error),
    };
    for event in events {
        let delta = answer(alloc, &net, *event)?;
        put_step(alloc, &mut net, *event, &delta, form, text)?;
    }
    Ok(net)
}

/// The event happens, and its line is appended if it is chosen.
fn show(
    alloc: Global,
    net: &mut Net,
    event: Event,
    choice: &Choice,
    form: Form,
    text: &mut Vec<u8>,
) -> Result<(), AllocError>
    requires lawful { IsLawful net.old event }
    requires few { length net.old.trace < 2 ^ 40 }
    ensures graph { OnOk result (net.new.graph ≡ net.old.graph) }
    ensures trace { OnOk result (net.new.trace ≡ net.old.trace ++ event ∷ []) }
    ensures text { OnOk result (text.new.items ≡ text.old.items ++ shown form net.old.graph net.old.trace event choice.now) }
{
    let delta = answer(alloc, net, event)?;
    if choice.has(net.events() + 1, node_of(event)) {
        put_step(alloc, net, event, &delta, form, text)
    } else {
        play(net, event, &delta)
    }
}

/// What the event's node does. A lawful event has a rule, so only memory can run out.
pub fn answer(alloc: Global, net: &Net, event: Event) -> Result<Delta, AllocError>
    requires { IsLawful net.now event }
    ensures answer { IfOk result (λ d. IsAnswer net.now event d) }
    ensures row { IfOk result (λ d. Row ((net_of net.now).node (event_node event)) (work_at (net_of net.now) event) d) }
    ensures applicable { IfOk result (λ d. IsReaction ((net_of net.now).node (event_node event)) d) }
{
    let work = net.work(event);
    match react(alloc, net.node(node_of(event)), work) {
        Ok(delta) => Ok(delta),
        Err(_) => Err(AllocError),
    }
}

/// The event happens, and its line is appended.
fn put_step(
    alloc: Global,
    net: &mut Net,
    event: Event,
    delta: &Delta,
    form: Form,
    text: &mut Vec<u8>,
) -> Result<(), AllocError>
    requires lawful { IsLawful net.old event }
    requires few { length net.old.trace < 2 ^ 40 }
    requires answer { IsAnswer net.old event delta.now }
    requires row { Row ((net_of net.old).node (event_node event)) (work_at (net_of net.old) event) delta.now }
    requires applicable { IsReaction ((net_of net.old).node (event_node event)) delta.now }
    ensures graph { OnOk result (net.new.graph ≡ net.old.graph) }
    ensures trace { OnOk result (net.new.trace ≡ net.old.trace ++ event ∷ []) }
    ensures text { OnOk result (text.new.items ≡ text.old.items ++ line_in form (step net.old.graph net.old.trace event)) }
{
    let number = net.events() + 1;
    let row = row_of(net.node(node_of(event)), net.work(event));
    let work = net.work(event);
    let changes = changes(alloc, net.node(node_of(event)), delta)?;
    let sends = sent_by(alloc, net.graph(), node_of(event), delta.sends.as_slice())?;
    let far = far_end(net.graph(), event);
    play(net, event, delta)?;
    let moment = Moment {
        number,
        event,
        far,
        work,
        row,
        fate: delta.fate,
        total: total(net),
    };
    put_line(text, form, &moment, &changes, &sends)?;
    Ok(())
}

/// The line of a step, in the form that is asked for.
#[tactic(auto, unfolding(crate::specs::StepLine::step_line, crate::specs::Json::step_json))]
fn put_line(
    text: &mut Vec<u8>,
    form: Form,
    moment: &Moment,
    changes: &[Change],
    sends: &[Sent],
) -> Result<(), AllocError>
    ensures { IfOk result (λ _. text.new.items ≡ text.old.items ++ line_in form (record { moment = moment.now; changes = changes.now; sends = sends.now })) }
{
    match form {
        Form::Text => step_line(text, moment, changes, sends),
        Form::Json => step_json(text, moment, changes, sends),
    }
}

/// The event happens. Refusal: out of memory.
pub fn play(net: &mut Net, event: Event, delta: &Delta) -> Result<(), AllocError>
    requires lawful { IsLawful net.old event }
    requires answer { IsAnswer net.old event delta.now }
    requires few { length net.old.trace < 2 ^ 40 }
    ensures graph { OnOk result (net.new.graph ≡ net.old.graph) }
    ensures trace { OnOk result (net.new.trace ≡ net.old.trace ++ event ∷ []) }
{
    net.reserve(event, delta)?;
    net.play(event, delta);
    Ok(())
}

/// How many messages were sent for the first time.
fn total(net: &Net) -> u128
    ensures { result ≡ in_all (net_of net.now).sent }
{
    in_total(&net.ledger().sent)
}

fn in_total(sent: &[u64; 7]) -> u128
    ensures { result ≡ in_all (λ k. slice_index sent.now k) }
{
    u128::from(sent[0])
        + u128::from(sent[1])
        + u128::from(sent[2])
        + u128::from(sent[3])
        + u128::from(sent[4])
        + u128::from(sent[5])
        + u128::from(sent[6])
}
