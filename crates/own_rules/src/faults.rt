//! What is said of nodes that have stopped by an answer.
ghost use Rattle.own_book.specs.Answer.{saying};
ghost use Rattle.own_book.specs.Entry.{told_in};
ghost use Rattle.own_book.specs.declared.question.Asked.TheVariants.{Greeting};
ghost use Rattle.own_rules.specs.Faults.{counted, exchange, exchanged, fault_by, fault_line, fault_text, faults, greeting_fault, labelled, misgreeted};
ghost use Rattle.own_rules.specs.Stops.{AreWithin, question_of};
ghost use Rattle.own_rules.specs.Words.{reason_word};
ghost use Rattle.std.specs.Prelude.{IfOk, codes, ◌++◌, ◌≡◌, ◌≤◌};

use crate::node::{Lookup, Reason, Stop};
use crate::rulebook::Rulebook;
use crate::spoken::reason_word;
use crate::stops::put_question;
use ghs_graph::graph::Graph;
use ghs_lines::numbers::put_number;
use own_book::answer::{Answer, read_answer};
use own_book::question::Asked;
use std::alloc::{AllocError, Global};

/// What is said of a greeting that names no kinds, and of each of these nodes of the graph that has stopped by an answer: its
/// fault, the question, the answer and the line of the book. Refusal: out of memory.
///
/// ```text
/// let text = faults_text(alloc, &rules, &graph, &stops)?;
/// // of a node 2 that answers a ping with a send at a port that it lacks, `node 2: NO_PORT`, and then the lines
/// // `question: take 2 0 ping asleep=yes`, `answer: asleep=no done 7>ping` and `line of the book: 4`
/// ```
pub fn faults_text(
    alloc: Global,
    rules: &Rulebook,
    graph: &Graph,
    stops: &[(u32, Stop)],
) -> Result<Vec<u8>, AllocError>
    requires { AreWithin graph.now.nodes stops.now }
    ensures { IfOk result (λ text. text.items ≡ faults rules.now graph.now stops.now) }
{
    let mut text = Vec::new(alloc);
    put_greeting_fault(&mut text, rules)?;
    for (node, stop) in stops {
        put_fault(alloc, &mut text, rules, graph, *node, *stop)?;
    }
    Ok(text)
}

/// What is said of the greeting, where the book answers it with something else.
fn put_greeting_fault(text: &mut Vec<u8>, rules: &Rulebook) -> Result<(), AllocError>
    ensures { IfOk result (λ _. text.new.items ≡ text.old.items ++ greeting_fault (told_in rules.now (codes "own 1"))) }
{
    match rules.told(b"own 1") {
        None => Ok(()),
        Some((line, answer)) => put_misgreeted(text, line, answer),
    }
}

/// The same by the answer.
fn put_misgreeted(text: &mut Vec<u8>, line: u64, answer: &[u8]) -> Result<(), AllocError>
    ensures { IfOk result (λ _. text.new.items ≡ text.old.items ++ misgreeted (line, answer.now) (saying Greeting answer.now)) }
{
    match read_answer(Asked::Greeting, answer) {
        Some(Answer::Greeting { name: _, kinds: _ }) => return Ok(()),
        Some(Answer::GivesUp(_)) => text.extend_from_slice(b"GIVES_UP\n")?,
        _ => text.extend_from_slice(b"GARBLED\n")?,
    }
    put_exchange(text, b"own 1", line, answer)
}

/// What is said of a node that has stopped, where an answer is the reason.
fn put_fault(
    alloc: Global,
    text: &mut Vec<u8>,
    rules: &Rulebook,
    graph: &Graph,
    node: u32,
    stop: Stop,
) -> Result<(), AllocError>
    requires low { 1 ≤ node }
    requires high { node ≤ graph.now.nodes }
    ensures { IfOk result (λ _. text.new.items ≡ text.old.items ++ fault_text rules.now graph.now (node, stop)) }
{
    match stop.reason {
        Reason::Unanswered => Ok(()),
        Reason::Fails(_) | Reason::Spent => {
            put_fault_line(text, node, reason_word(stop.reason).letters())?;
            put_asked(alloc, text, rules, graph, node, stop.asked)
        }
    }
}

/// A node and its fault.
#[tactic(auto, unfolding(crate::specs::Faults::fault_line))]
fn put_fault_line(text: &mut Vec<u8>, node: u32, word: &[u8]) -> Result<(), AllocError>
    ensures { IfOk result (λ _. text.new.items ≡ text.old.items ++ fault_line node word.now) }
{
    text.extend_from_slice(b"node ")?;
    put_number(text, u128::from(node))?;
    text.extend_from_slice(b": ")?;
    text.extend_from_slice(word)?;
    text.extend_from_slice(b"\n")
}

/// The question at which a node has stopped, and what the book says to it.
fn put_asked(
    alloc: Global,
    text: &mut Vec<u8>,
    rules: &Rulebook,
    graph: &Graph,
    node: u32,
    asked: Option<Lookup>,
) -> Result<(), AllocError>
    requires low { 1 ≤ node }
    requires high { node ≤ graph.now.nodes }
    ensures { IfOk result (λ _. text.new.items ≡ text.old.items ++ exchanged (question_of rules.now graph.now node asked) (told_in rules.now (question_of rules.now graph.now node asked))) }
{
    let mut question = Vec::new(alloc);
    put_question(&mut question, rules, graph, node, asked)?;
    match rules.told(&question) {
        None => Ok(()),
        Some((line, answer)) => put_exchange(text, &question, line, answer),
    }
}

/// A question, with what the book says to it and in which line.
#[tactic(auto, unfolding(crate::specs::Faults::exchange))]
fn put_exchange(
    text: &mut Vec<u8>,
    question: &[u8],
    line: u64,
    answer: &[u8],
) -> Result<(), AllocError>
    ensures { IfOk result (λ _. text.new.items ≡ text.old.items ++ exchange question.now (line, answer.now)) }
{
    put_labelled(text, b"question: ", question)?;
    put_labelled(text, b"answer: ", answer)?;
    put_counted(text, b"line of the book: ", line, b"\n")
}

/// A line that begins with a label.
#[tactic(auto, unfolding(crate::specs::Faults::labelled))]
fn put_labelled(text: &mut Vec<u8>, label: &[u8], bytes: &[u8]) -> Result<(), AllocError>
    ensures { IfOk result (λ _. text.new.items ≡ text.old.items ++ labelled label.now bytes.now) }
{
    text.extend_from_slice(label)?;
    text.extend_from_slice(bytes)?;
    text.extend_from_slice(b"\n")
}

/// A text, a number and a text.
#[tactic(auto, unfolding(crate::specs::Faults::counted))]
fn put_counted(text: &mut Vec<u8>, front: &[u8], number: u64, back: &[u8]) -> Result<(), AllocError>
    ensures { IfOk result (λ _. text.new.items ≡ text.old.items ++ counted front.now number back.now) }
{
    text.extend_from_slice(front)?;
    put_number(text, u128::from(number))?;
    text.extend_from_slice(back)
}
