//! The judge: a book beside the proved net, event by event.
ghost use Rattle.ghs_core.specs.NetState.{IsAnswer, IsLawful, net_of, work_at};
ghost use Rattle.ghs_node.specs.Rows.{Row};
ghost use Rattle.ghs_protocol.specs.Run.{IsRun, IsRunUnder};
ghost use Rattle.own_book.specs.Answer.{are_kinds};
ghost use Rattle.own_judge.specs.Judging.{CantJudge, HasDecided, HasWeighed, IsTold, carried, is_open};
ghost use Rattle.own_judge.specs.Report.{IsJudgement};
ghost use Rattle.own_judge.specs.Verdict.{looks, question_line};
ghost use Rattle.own_judge.specs.declared.look.Own.TheVariants as own;
ghost use Rattle.peer_network.specs.Events.{event_node};
ghost use Rattle.peer_network.specs.Network.{network_of};
ghost use Rattle.peer_network.specs.Wakes.{may_wake};
ghost use Rattle.peer_texts.specs.declared.trace.TheConstants.{EVENT_LIMIT};
ghost use Rattle.std.specs.Prelude.{◌≡◌, ◌≤◌, ◌++◌, ◌^◌, [], IfErr, IfOk, OnOk, false, length, replicate, true};

use crate::asking::{greet, look_at};
use crate::end::End;
use crate::look::{Greeting, Look, Own};
use crate::report::{put_agreed, put_amiss, put_difference, put_event, put_line, put_row};
use ghs_core::net::Net;
use ghs_graph::graph::Graph;
use ghs_node::delta::Delta;
use ghs_sched::replay::replay;
use ghs_steps::write::{answer, play};
use own_book::book::Book;
use peer_network::event::{Event, node_of};
use peer_network::wake_set::WakeSet;
use peer_schedule::fault::ReplayFault;
use std::alloc::{AllocError, Global};

/// How the judging of a run ends, and what is printed of that.
#[derive(Drop)]
pub struct Judgement {
    pub end: End,
    pub text: Vec<u8>,
}

/// Judges a stored run by a book. The run is judged first. Refusals: the first event that isn't lawful, by its number; out of
/// memory.
pub fn judge_stored(
    alloc: Global,
    graph: Graph,
    wake: WakeSet,
    events: &[Event],
    book: &Book,
) -> Result<Judgement, ReplayFault>
    requires few { length events.now ≤ EVENT_LIMIT }
    ensures run { OnOk result (IsRunUnder (may_wake graph wake) (network_of graph) events.now) }
    ensures judged { IfOk result (λ j. IsJudgement book.now graph events.now j.end j.text.items) }
    ensures fault { IfErr result (λ fault. CantJudge graph wake events.now fault) }
{
    let world = match replay(alloc, graph, wake, events) {
        Ok(world) => world,
        Err((_, fault)) => return Err(fault),
    };
    // Read for its clause: the events are a run.
    let _ = world.trace();
    match judge(alloc, world.into_graph(), events, book) {
        Ok(judgement) => Ok(judgement),
        Err(_) => Err(ReplayFault::Memory),
    }
}

/// Judges a run by a book: beside each node of the proved net stands what the book says of its state, and at each event the
/// book is asked the same work. The earliest event at which its answer isn't the reaction decides; behind a question that is
/// open the run is gone on with, for the other nodes' questions. Refusal: out of memory.
///
/// ```text
/// let judgement = judge(alloc, graph, &events, &book)?;
/// // of a run of two events and the book of a node that does as the table: End::Agrees, and
/// // b"the node agrees with the protocol at all 2 events\n"
/// ```
pub fn judge(
    alloc: Global,
    graph: Graph,
    events: &[Event],
    book: &Book,
) -> Result<Judgement, AllocError>
    requires run { IsRun (network_of graph) events.now }
    requires few { length events.now ≤ 2 ^ 40 }
    ensures { IfOk result (λ j. IsJudgement book.now graph events.now j.end j.text.items) }
{
    let mut text = Vec::new(alloc);
    match greet(alloc, book)? {
        Greeting::Kinds(kinds) => go_over(alloc, graph, events, book, kinds.bytes(), false, text),
        Greeting::Open(question) => {
            put_line(&mut text, question.bytes())?;
            go_over(alloc, graph, events, book, b"", true, text)
        }
        Greeting::Fails(amiss) => {
            put_amiss(&mut text, &amiss)?;
            Ok(Judgement {
                end: End::Fails,
                text,
            })
        }
    }
}

/// Goes over the events, where the greeting names these kinds of messages. Whether a question has been open is `asked`; then
/// the text has the questions, and without that it's empty.
fn go_over(
    alloc: Global,
    graph: Graph,
    events: &[Event],
    book: &Book,
    kinds: &[u8],
    mut asked: bool,
    mut text: Vec<u8>,
) -> Result<Judgement, AllocError>
    requires run { IsRun (network_of graph) events.now }
    requires few { length events.now ≤ 2 ^ 40 }
    requires kinds { are_kinds kinds.now ≡ true }
    requires unasked { asked ≡ false → text.items ≡ [] }
    ensures { IfOk result (λ j. IsTold graph events.now (carried asked text.items 0 (looks book.now kinds.now graph events.now)) j.end j.text.items) }
{
    let mut owns = unopened(alloc, graph.nodes())?;
    let mut net = match Net::open(alloc, graph) {
        Ok(net) => net,
        Err((_, error)) => return Err(error),
    };
    for event in events {
        let delta = answer(alloc, &net, *event)?;
        let place = node_of(*event) as usize - 1;
        let look = look_at(alloc, book, kinds, &net, *event, &delta, &owns[place])?;
        let ends = weigh(alloc, &mut text, &mut asked, &net, *event, &delta, &look)?;
        match ends {
            Some(end) => return Ok(Judgement { end, text }),
            None => {}
        }
        owns[place] = look.into_own();
        play(&mut net, *event, &delta)?;
    }
    if asked {
        return Ok(Judgement {
            end: End::Asks,
            text,
        });
    }
    put_agreed(&mut text, events.len())?;
    Ok(Judgement {
        end: End::Agrees,
        text,
    })
}

/// What comes of an event: it ends the judging, or a question is open, or the judging goes on. Where a question has been open
/// before, nothing ends it.
fn weigh(
    alloc: Global,
    text: &mut Vec<u8>,
    asked: &mut bool,
    net: &Net,
    event: Event,
    delta: &Delta,
    look: &Look,
) -> Result<Option<End>, AllocError>
    requires lawful { IsLawful net.now event }
    requires answer { IsAnswer net.now event delta.now }
    requires row { Row ((net_of net.now).node (event_node event)) (work_at (net_of net.now) event) delta.now }
    requires unasked { asked.old ≡ false → text.old.items ≡ [] }
    ensures { IfOk result (λ ends. HasWeighed net.now.graph net.now.trace event look.now asked.old text.old.items asked.new text.new.items ends) }
{
    if *asked {
        put_question(text, look)?;
        return Ok(None);
    }
    let ends = decide(alloc, text, net, event, delta, look)?;
    if ends.is_none() {
        *asked = put_question(text, look)?;
    }
    Ok(ends)
}

/// Appends what is printed of an event that decides, and says how the judging ends there; none where it decides nothing.
fn decide(
    alloc: Global,
    text: &mut Vec<u8>,
    net: &Net,
    event: Event,
    delta: &Delta,
    look: &Look,
) -> Result<Option<End>, AllocError>
    requires lawful { IsLawful net.now event }
    requires answer { IsAnswer net.now event delta.now }
    requires row { Row ((net_of net.now).node (event_node event)) (work_at (net_of net.now) event) delta.now }
    ensures { IfOk result (λ ends. HasDecided net.now.graph net.now.trace event look.now text.old.items text.new.items ends) }
{
    match look {
        Look::Fails(amiss) => {
            put_event(text, net, event)?;
            put_amiss(text, amiss)?;
            Ok(Some(End::Fails))
        }
        Look::Differs(difference) => {
            put_event(text, net, event)?;
            put_row(alloc, text, net, event, delta)?;
            put_difference(text, net.graph(), node_of(event), difference)?;
            Ok(Some(End::Differs))
        }
        Look::Agrees(_) | Look::Open(_) | Look::Silent => Ok(None),
    }
}

/// Appends the line of a question that is open, and says whether one is.
fn put_question(text: &mut Vec<u8>, look: &Look) -> Result<bool, AllocError>
    ensures asked { IfOk result (λ asked. asked ≡ is_open look.now) }
    ensures text { IfOk result (λ _. text.new.items ≡ text.old.items ++ question_line look.now) }
{
    match look {
        Look::Open(question) => {
            put_line(text, question.bytes())?;
            Ok(true)
        }
        _ => Ok(false),
    }
}

/// Nothing known of any node but that it hasn't been opened.
fn unopened<'a>(alloc: Global, nodes: u32) -> Result<Vec<Own<'a>>, AllocError>
    ensures { IfOk result (λ owns. owns.items ≡ replicate nodes own.Unopened) }
{
    let mut owns = Vec::with_capacity(alloc, nodes as usize)?;
    for node in 0..nodes {
        owns.push(Own::Unopened)?;
    }
    Ok(owns)
}
