//! The book is asked the work of an event.
ghost use Rattle.ghs_core.specs.NetState.{IsAnswer, IsLawful};
ghost use Rattle.own_book.specs.Answer.{are_kinds, are_sends, saying};
ghost use Rattle.own_judge.specs.Deed.{deed_in, deed_of};
ghost use Rattle.own_judge.specs.Look.{HasKinds, amiss, by_reaction, compared, greeting_of, in_state, look_at, look_by, reaction_fault};
ghost use Rattle.own_judge.specs.Question.{greeting_text, work_asked};
ghost use Rattle.own_judge.specs.declared.look.Own.TheVariants as own;
ghost use Rattle.std.specs.Prelude.{◌≡◌, IfOk, true};

use crate::deed::{Deed, agree};
use crate::look::{Amiss, Difference, Greeting, Look, Own};
use crate::question::{asked_for, open_question, work_question};
use crate::text::{Question, Text};
use ghs_core::net::Net;
use ghs_graph::port::Port;
use ghs_node::delta::Delta;
use ghs_node::work::Work;
use own_book::answer::{Answer, read_answer};
use own_book::answer_fault::AnswerFault;
use own_book::book::Book;
use own_book::question::Asked;
use own_book::sends::sends_fault;
use own_book::variables::says_asleep;
use peer_network::event::{Event, node_of};
use std::alloc::{AllocError, Global};
use std::marker::Model;

/// What is asked at an event.
#[derive(Drop)]
pub struct Asking<'s> {
    /// The kinds of messages that the greeting names.
    kinds: &'s [u8],
    node: u32,
    ports: &'s [Port],
    degree: u32,
    work: Work,
    /// The reaction of the proved node.
    delta: &'s Delta,
}

impl<'s> Model for Asking<'s> {
    ghost use Rattle.own_judge.specs.Look.{Asking};
    ghost use Rattle.own_judge.specs.Deed.{deed_of};

    ghost Value = { Asking };

    ghost view = { λ a. record { kinds = a.kinds.now; node = a.node; ports = a.ports.now; degree = a.degree; work = a.work; theirs = deed_of a.delta.now } };
}

impl<'s> Asking<'s> {
    /// That the greeting names these kinds of messages, and this node of so many ports gets this work, to which the proved node
    /// reacts by this delta.
    pub fn of(
        kinds: &'s [u8],
        node: u32,
        ports: &'s [Port],
        degree: u32,
        work: Work,
        delta: &'s Delta,
    ) -> Asking<'s>
        ensures { result ≡ record { kinds = kinds.entry.now; node = node; ports = ports.entry.now; degree = degree; work = work; theirs = deed_of delta.entry.now } }
    {
        Asking {
            kinds,
            node,
            ports,
            degree,
            work,
            delta,
        }
    }
}

/// What the book says to the question after the greeting. Refusal: out of memory.
pub fn greet<'a>(alloc: Global, book: &'a Book) -> Result<Greeting<'a>, AllocError>
    ensures greeting { IfOk result (λ greeting. greeting ≡ greeting_of book.entry.now) }
    ensures kinds { IfOk result (λ greeting. HasKinds greeting) }
{
    let Some((line, answer)) = book.told(b"own 1") else {
        return Ok(Greeting::Open(own_1(alloc)?));
    };
    match read_answer(Asked::Greeting, answer) {
        Some(Answer::Greeting { name: _, kinds }) => Ok(Greeting::Kinds(Text::of(kinds))),
        Some(Answer::GivesUp(_)) => Ok(Greeting::Fails(Amiss::new(
            AnswerFault::GivesUp,
            own_1(alloc)?,
            line,
            answer,
        ))),
        _ => Ok(Greeting::Fails(Amiss::new(AnswerFault::Garbled, own_1(alloc)?, line, answer))),
    }
}

/// The question after the greeting.
fn own_1(alloc: Global) -> Result<Question, AllocError>
    ensures { IfOk result (λ question. question ≡ greeting_text) }
{
    Ok(Question::of(Vec::from_slice(alloc, b"own 1")?))
}

/// What comes of an event that is lawful now and to which the proved node reacts by this delta. Refusal: out of memory.
pub(crate) fn look_at<'a>(
    alloc: Global,
    book: &'a Book,
    kinds: &[u8],
    net: &Net,
    event: Event,
    delta: &Delta,
    own: &Own<'a>,
) -> Result<Look<'a>, AllocError>
    requires kinds { are_kinds kinds.now ≡ true }
    requires lawful { IsLawful net.now event }
    requires answer { IsAnswer net.now event delta.now }
    ensures { IfOk result (λ look. look ≡ look_at book.entry.now kinds.now net.now.graph net.now.trace event own.now) }
{
    let node = node_of(event);
    let asking = Asking {
        kinds,
        node,
        ports: net.graph().ports(node),
        degree: net.node(node).degree(),
        work: net.work(event),
        delta,
    };
    look_by(alloc, book, &asking, own)
}

/// What comes of it where this is known of the node. Refusal: out of memory.
pub fn look_by<'a>(
    alloc: Global,
    book: &'a Book,
    asking: &Asking,
    own: &Own<'a>,
) -> Result<Look<'a>, AllocError>
    requires { are_kinds asking.now.kinds ≡ true }
    ensures { IfOk result (λ look. look ≡ look_by book.entry.now asking.now own.now) }
{
    match own {
        Own::Known(state) => in_state(alloc, book, asking, state.bytes()),
        Own::Unopened => at_first(alloc, book, asking),
        Own::Unknown => Ok(Look::Silent),
    }
}

/// The same of a node that hasn't been opened.
fn at_first<'a>(alloc: Global, book: &'a Book, asking: &Asking) -> Result<Look<'a>, AllocError>
    requires { are_kinds asking.now.kinds ≡ true }
    ensures { IfOk result (λ look. look ≡ look_by book.entry.now asking.now own.Unopened) }
{
    let question = open_question(alloc, asking.node, asking.ports)?;
    let Some((line, answer)) = book.told(question.bytes()) else {
        return Ok(Look::Open(question));
    };
    match read_answer(Asked::Opening, answer) {
        Some(Answer::State(state)) => in_state(alloc, book, asking, state),
        Some(Answer::GivesUp(_)) => Ok(failing(AnswerFault::GivesUp, question, line, answer)),
        _ => Ok(failing(AnswerFault::Garbled, question, line, answer)),
    }
}

/// The same of a node in this state.
fn in_state<'a>(
    alloc: Global,
    book: &'a Book,
    asking: &Asking,
    before: &'a [u8],
) -> Result<Look<'a>, AllocError>
    requires { are_kinds asking.now.kinds ≡ true }
    ensures { IfOk result (λ look. look ≡ in_state book.entry.now asking.now before.entry.now) }
{
    let question = work_question(alloc, asking.node, &asking.work, before)?;
    let Some((line, answer)) = book.told(question.bytes()) else {
        return Ok(Look::Open(question));
    };
    by_reaction(alloc, asking, question, before, line, answer)
}

/// The same where this line answers.
fn by_reaction<'a>(
    alloc: Global,
    asking: &Asking,
    question: Question,
    before: &'a [u8],
    line: u64,
    answer: &'a [u8],
) -> Result<Look<'a>, AllocError>
    requires { are_kinds asking.now.kinds ≡ true }
    ensures { IfOk result (λ look. look ≡ by_reaction asking.now question before.entry.now (line, answer.entry.now) (saying (work_asked asking.now.work) answer.entry.now)) }
{
    match read_answer(asked_for(&asking.work), answer) {
        Some(
            Answer::Reaction {
                state,
                waits,
                sends,
            },
        ) => match reaction_fault(asking, state, sends) {
            Some(fault) => Ok(failing(fault, question, line, answer)),
            None => compared(alloc, asking, before, line, state, waits, sends),
        },
        Some(Answer::GivesUp(_)) => Ok(failing(AnswerFault::GivesUp, question, line, answer)),
        _ => Ok(failing(AnswerFault::Garbled, question, line, answer)),
    }
}

/// An answer with a fault.
fn failing<'a>(fault: AnswerFault, question: Question, line: u64, answer: &'a [u8]) -> Look<'a>
    ensures { result ≡ Look.Fails (amiss question (line, answer.entry.now) fault) }
{
    Look::Fails(Amiss::new(fault, question, line, answer))
}

/// Why a reaction is none of a node, if so.
fn reaction_fault(asking: &Asking, after: &[u8], sends: &[u8]) -> Option<AnswerFault>
    requires kinds { are_kinds asking.now.kinds ≡ true }
    requires sends { are_sends sends.now ≡ true }
    ensures { result ≡ reaction_fault asking.now after.now sends.now }
{
    if says_asleep(after) {
        return Some(AnswerFault::StillAsleep);
    }
    sends_fault(asking.kinds, asking.degree, sends)
}

/// What comes of a reaction without a fault. Refusal: out of memory.
fn compared<'a>(
    alloc: Global,
    asking: &Asking,
    before: &'a [u8],
    line: u64,
    after: &'a [u8],
    waits: bool,
    sends: &[u8],
) -> Result<Look<'a>, AllocError>
    requires { are_sends sends.now ≡ true }
    ensures { IfOk result (λ look. look ≡ compared asking.now before.entry.now line after.entry.now (deed_in before.entry.now after.entry.now waits sends.now)) }
{
    let theirs = Deed::of_delta(alloc, asking.delta)?;
    if agree(Deed::of_answer(alloc, before, after, waits, sends)?, theirs)? {
        return Ok(Look::Agrees(Text::of(after)));
    }
    // The comparison takes what it compares, and differences are told once in a run.
    Ok(Look::Differs(Difference {
        before: Text::of(before),
        line,
        deed: Deed::of_answer(alloc, before, after, waits, sends)?,
    }))
}
