//! What the book is asked of a node.
ghost use Rattle.own_book.specs.Asking.{open_text};
ghost use Rattle.own_judge.specs.Question.{work_asked, work_text};
ghost use Rattle.peer_words.specs.Text.{message_text};
ghost use Rattle.ghs_steps.specs.Words.{says};
ghost use Rattle.std.specs.Prelude.{◌≡◌, IfOk};

use crate::text::Question;
use ghs_graph::port::Port;
use ghs_node::message::Message;
use ghs_node::work::Work;
use ghs_steps::words::says;
use own_book::asking::{put_open, put_take, put_wake};
use own_book::question::Asked;
use peer_words::text::put_message;
use std::alloc::{AllocError, Global};

/// The question what the first state of a node with these ports is. Refusal: out of memory.
pub fn open_question(alloc: Global, node: u32, ports: &[Port]) -> Result<Question, AllocError>
    ensures { IfOk result (λ question. question ≡ open_text node ports.now) }
{
    let mut text = Vec::new(alloc);
    put_open(&mut text, node, ports)?;
    Ok(Question::of(text))
}

/// The question what a node in this state does with its work. Refusal: out of memory.
///
/// ```text
/// let question = work_question(alloc, 1, &Work::Wake, b"asleep=yes")?;     // b"wake 1 asleep=yes"
/// ```
pub fn work_question(
    alloc: Global,
    node: u32,
    work: &Work,
    state: &[u8],
) -> Result<Question, AllocError>
    ensures { IfOk result (λ question. question ≡ work_text node work.now state.now) }
{
    let mut text = Vec::new(alloc);
    match work {
        Work::Wake => put_wake(&mut text, node, state)?,
        Work::Deliver { port, message } => {
            let spelled = spelled(alloc, message)?;
            put_take(&mut text, node, *port, &spelled, state)?;
        }
    }
    Ok(Question::of(text))
}

/// A message as an answer spells it. Refusal: out of memory.
pub(crate) fn spelled(alloc: Global, message: &Message) -> Result<Vec<u8>, AllocError>
    ensures { IfOk result (λ text. text.items ≡ message_text (says message.now)) }
{
    let mut text = Vec::new(alloc);
    put_message(&mut text, &says(alloc, message)?)?;
    Ok(text)
}

/// What the question of some work asks for.
pub(crate) fn asked_for(work: &Work) -> Asked
    ensures { result ≡ work_asked work.now }
{
    match work {
        Work::Wake => Asked::Wake,
        Work::Deliver {
            port: _,
            message: _,
        } => Asked::Take,
    }
}
