//! The text of a verdict.
ghost use Rattle.ghs_core.specs.NetState.{IsAnswer, IsLawful, net_of, work_at};
ghost use Rattle.ghs_node.specs.Rows.{Row};
ghost use Rattle.own_book.specs.Sends.{Sending};
ghost use Rattle.own_judge.specs.Deed.{DeedState};
ghost use Rattle.own_judge.specs.Report.{agreed_text, amiss_text, counted, deed_text, difference_text, event_text, exchange, deferral, fault_words, halt, labelled, row_text, send_text, sends_text, work_words};
ghost use Rattle.own_judge.specs.Verdict.{line};
ghost use Rattle.peer_network.specs.Events.{event_node};
ghost use Rattle.std.specs.List.{flat_map};
ghost use Rattle.std.specs.Prelude.{◌≡◌, ◌≤◌, ◌++◌, IfOk};

use crate::deed::Deed;
use crate::look::{Amiss, Difference};
use ghs_core::net::Net;
use ghs_graph::graph::Graph;
use ghs_lines::numbers::put_number;
use ghs_node::delta::Delta;
use ghs_node::row_name::row_of;
use ghs_node::work::Work;
use ghs_steps::words::{row_word, says};
use own_book::answer_fault::AnswerFault;
use own_book::sends::Posted;
use peer_network::event::{Event, node_of};
use peer_steps::sent::port_at;
use peer_words::text::put_message;
use std::alloc::{AllocError, Global};

/// Appends what is printed where all events agree.
pub(crate) fn put_agreed(text: &mut Vec<u8>, events: usize) -> Result<(), AllocError>
    ensures { IfOk result (λ _. text.new.items ≡ text.old.items ++ agreed_text events) }
{
    put_counted(
        text,
        b"the node agrees with the protocol at all ",
        events as u64,
        b" events\n",
    )
}

/// Appends a text, a number and a text.
#[tactic(auto, unfolding(crate::specs::Report::counted))]
fn put_counted(text: &mut Vec<u8>, front: &[u8], number: u64, back: &[u8]) -> Result<(), AllocError>
    ensures { IfOk result (λ _. text.new.items ≡ text.old.items ++ counted front.now number back.now) }
{
    text.extend_from_slice(front)?;
    put_number(text, u128::from(number))?;
    text.extend_from_slice(back)
}

/// Appends a line.
pub(crate) fn put_line(text: &mut Vec<u8>, bytes: &[u8]) -> Result<(), AllocError>
    ensures { IfOk result (λ _. text.new.items ≡ text.old.items ++ line bytes.now) }
{
    text.extend_from_slice(bytes)?;
    text.extend_from_slice(b"\n")
}

/// Appends an answer's fault, with the question, the answer and its line.
#[tactic(auto, unfolding(crate::specs::Report::amiss_text))]
pub(crate) fn put_amiss(text: &mut Vec<u8>, amiss: &Amiss) -> Result<(), AllocError>
    ensures { IfOk result (λ _. text.new.items ≡ text.old.items ++ amiss_text amiss.now) }
{
    text.extend_from_slice(fault_words(amiss.fault))?;
    put_exchange(text, amiss.question.bytes(), amiss.answer.bytes())?;
    put_counted(text, b"line of the book: ", amiss.line, b"\n")
}

/// Appends a question and its answer.
#[tactic(auto, unfolding(crate::specs::Report::exchange))]
fn put_exchange(text: &mut Vec<u8>, question: &[u8], answer: &[u8]) -> Result<(), AllocError>
    ensures { IfOk result (λ _. text.new.items ≡ text.old.items ++ exchange question.now answer.now) }
{
    put_labelled(text, b"question: ", question)?;
    put_labelled(text, b"answer: ", answer)
}

/// Appends a line that begins with a label.
#[tactic(auto, unfolding(crate::specs::Report::labelled))]
fn put_labelled(text: &mut Vec<u8>, label: &[u8], bytes: &[u8]) -> Result<(), AllocError>
    ensures { IfOk result (λ _. text.new.items ≡ text.old.items ++ labelled label.now bytes.now) }
{
    text.extend_from_slice(label)?;
    text.extend_from_slice(bytes)?;
    text.extend_from_slice(b"\n")
}

/// A fault's name, and what it means.
fn fault_words(fault: AnswerFault) -> &'static [u8]
    ensures { result.now ≡ fault_words fault }
{
    match fault {
        AnswerFault::GivesUp => b"GIVES_UP: the node has no rule for this\n",
        AnswerFault::Garbled => b"GARBLED: this is no answer to the question\n",
        AnswerFault::StillAsleep => b"STILL_ASLEEP: the node got work and is still asleep\n",
        AnswerFault::NoPort => b"NO_PORT: the node has no such port\n",
        AnswerFault::NoKind => b"NO_KIND: the greeting names no such kind of messages\n",
    }
}

/// Appends the line of an event that is lawful now.
#[tactic(auto, unfolding(crate::specs::Report::event_text))]
pub(crate) fn put_event(text: &mut Vec<u8>, net: &Net, event: Event) -> Result<(), AllocError>
    requires { IsLawful net.now event }
    ensures { IfOk result (λ _. text.new.items ≡ text.old.items ++ event_text net.now.graph net.now.trace event) }
{
    text.extend_from_slice(b"event ")?;
    put_number(text, u128::from(net.events()) + 1)?;
    text.extend_from_slice(b": node ")?;
    put_number(text, u128::from(node_of(event)))?;
    put_work(text, net.graph(), node_of(event), net.work(event))?;
    text.extend_from_slice(b"\n")
}

/// Appends what an event brings to node `v`.
fn put_work(text: &mut Vec<u8>, graph: &Graph, v: u32, work: Work) -> Result<(), AllocError>
    requires low { 1 ≤ v }
    requires high { v ≤ graph.now.nodes }
    ensures { IfOk result (λ _. text.new.items ≡ text.old.items ++ work_words graph.now v work) }
{
    match work {
        Work::Wake => text.extend_from_slice(b" wakes"),
        Work::Deliver { port, message } => {
            text.extend_from_slice(b" takes ")?;
            let saying = says(*text.allocator(), &message)?;
            put_message(text, &saying)?;
            text.extend_from_slice(b" at port ")?;
            put_number(text, u128::from(port))?;
            text.extend_from_slice(b", from node ")?;
            put_number(text, u128::from(port_at(graph, v, port).far))
        }
    }
}

/// Appends the row by which the proved node reacts, and what it does.
#[tactic(auto, unfolding(crate::specs::Report::row_text))]
pub(crate) fn put_row(
    alloc: Global,
    text: &mut Vec<u8>,
    net: &Net,
    event: Event,
    delta: &Delta,
) -> Result<(), AllocError>
    requires lawful { IsLawful net.now event }
    requires answer { IsAnswer net.now event delta.now }
    requires row { Row ((net_of net.now).node (event_node event)) (work_at (net_of net.now) event) delta.now }
    ensures { IfOk result (λ _. text.new.items ≡ text.old.items ++ row_text net.now.graph net.now.trace event) }
{
    let row = row_of(net.node(node_of(event)), net.work(event));
    text.extend_from_slice(b"the protocol, by row ")?;
    text.extend_from_slice(row_word(row))?;
    text.extend_from_slice(b":\n")?;
    put_deed(
        text,
        net.graph(),
        node_of(event),
        &Deed::of_delta(alloc, delta)?,
    )
}

/// Appends what the book's node `v` does, and its state before that.
#[tactic(auto, unfolding(crate::specs::Report::difference_text))]
pub(crate) fn put_difference(
    text: &mut Vec<u8>,
    graph: &Graph,
    v: u32,
    difference: &Difference,
) -> Result<(), AllocError>
    requires low { 1 ≤ v }
    requires high { v ≤ graph.now.nodes }
    ensures { IfOk result (λ _. text.new.items ≡ text.old.items ++ difference_text graph.now v difference.now) }
{
    put_counted(
        text,
        b"your node, by line ",
        difference.line,
        b" of the book:\n",
    )?;
    put_deed(text, graph, v, &difference.deed)?;
    put_labelled(text, b"its state before: ", difference.before.bytes())
}

/// Appends what node `v` does, a line for each thing.
#[tactic(auto, unfolding(crate::specs::Report::deed_text))]
fn put_deed(text: &mut Vec<u8>, graph: &Graph, v: u32, deed: &Deed) -> Result<(), AllocError>
    requires low { 1 ≤ v }
    requires high { v ≤ graph.now.nodes }
    ensures { IfOk result (λ _. text.new.items ≡ text.old.items ++ deed_text graph.now v deed.now) }
{
    put_deferral(text, deed.waits())?;
    put_sends(text, graph, v, deed.sends())?;
    put_halt(text, deed.halts())
}

/// Appends a line where the node defers the message.
#[tactic(auto, unfolding(crate::specs::Report::deferral))]
fn put_deferral(text: &mut Vec<u8>, waits: bool) -> Result<(), AllocError>
    ensures { IfOk result (λ _. text.new.items ≡ text.old.items ++ deferral waits) }
{
    if waits {
        text.extend_from_slice(b"  defers the message\n")
    } else {
        Ok(())
    }
}

/// Appends a line where the node halts.
#[tactic(auto, unfolding(crate::specs::Report::halt))]
fn put_halt(text: &mut Vec<u8>, halts: bool) -> Result<(), AllocError>
    ensures { IfOk result (λ _. text.new.items ≡ text.old.items ++ halt halts) }
{
    if halts {
        text.extend_from_slice(b"  halts\n")
    } else {
        Ok(())
    }
}

/// Appends a line for each message that node `v` sends.
fn put_sends(text: &mut Vec<u8>, graph: &Graph, v: u32, sends: &[Posted]) -> Result<(), AllocError>
    requires low { 1 ≤ v }
    requires high { v ≤ graph.now.nodes }
    ensures { IfOk result (λ _. text.new.items ≡ text.old.items ++ sends_text graph.now v sends.now) }
{
    if sends.is_empty() {
        return text.extend_from_slice(b"  sends nothing\n");
    }
    put_each(text, graph, v, sends)
}

fn put_each(text: &mut Vec<u8>, graph: &Graph, v: u32, sends: &[Posted]) -> Result<(), AllocError>
    requires low { 1 ≤ v }
    requires high { v ≤ graph.now.nodes }
    ensures { IfOk result (λ _. text.new.items ≡ text.old.items ++ flat_map (send_text graph.now v) sends.now) }
{
    for send in sends {
        put_send(text, graph, v, send)?;
    }
    Ok(())
}

/// One of them.
#[tactic(auto, unfolding(crate::specs::Report::send_text))]
fn put_send(text: &mut Vec<u8>, graph: &Graph, v: u32, send: &Posted) -> Result<(), AllocError>
    requires low { 1 ≤ v }
    requires high { v ≤ graph.now.nodes }
    ensures { IfOk result (λ _. text.new.items ≡ text.old.items ++ send_text graph.now v send.now) }
{
    text.extend_from_slice(b"  sends ")?;
    text.extend_from_slice(send.message())?;
    text.extend_from_slice(b" at port ")?;
    put_number(text, u128::from(send.port()))?;
    text.extend_from_slice(b", to node ")?;
    put_number(text, u128::from(port_at(graph, v, send.port()).far))?;
    text.extend_from_slice(b"\n")
}
