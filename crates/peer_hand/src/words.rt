//! A fault as a line of JSON.
ghost use Rattle.peer_hand.specs.Words.{between, counts_words, event_words, fault_json, fault_members, graph_words, line_words, other_words, trace_words};
ghost use Rattle.std.specs.Prelude.{◌≡◌, ◌++◌, IfOk};

use crate::fault::HandFault;
use ghs_gr::fault::GrFault;
use ghs_lines::numbers::put_number;
use peer_texts::fault::TraceFault;
use peer_trace::protocol::Protocol;
use std::alloc::{AllocError, Global};

/// The line of a fault: what has it, and its words, which are those of the program. Refusal: out of memory.
///
/// ```text
/// let text = fault_line(alloc, HandFault::NotLawful(3))?;
/// // {"fault":"event","words":"event 3 is not lawful"}
/// ```
#[tactic(auto, unfolding(crate::specs::Words::fault_json))]
pub fn fault_line(alloc: Global, fault: HandFault) -> Result<Vec<u8>, AllocError>
    ensures { IfOk result (λ text. text.items ≡ fault_json fault) }
{
    let mut text = Vec::new(alloc);
    text.extend_from_slice(b"{\"fault\":\"")?;
    put_members(&mut text, fault)?;
    text.extend_from_slice(b"\"}\n")?;
    Ok(text)
}

#[tactic(auto, unfolding(crate::specs::Words::fault_members))]
fn put_members(text: &mut Vec<u8>, fault: HandFault) -> Result<(), AllocError>
    ensures { IfOk result (λ _. text.new.items ≡ text.old.items ++ fault_members fault) }
{
    match fault {
        HandFault::Graph(fault) => {
            text.extend_from_slice(b"graph\",\"words\":\"")?;
            put_graph_words(text, fault)
        }
        HandFault::Trace(fault) => {
            text.extend_from_slice(b"trace\",\"words\":\"")?;
            put_trace_words(text, fault)
        }
        HandFault::Other(protocol) => put_other(text, protocol),
        HandFault::Own => put_words(text, b"trace\",\"words\":\"the trace is of --protocol own"),
        HandFault::NotLawful(event) => put_event(text, event),
        HandFault::TurnLimit => put_words(text, b"run\",\"words\":\"turn limit reached"),
        HandFault::Memory => put_words(text, b"memory\",\"words\":\"out of memory"),
    }
}

#[tactic(auto, unfolding(crate::specs::Words::graph_words))]
fn put_graph_words(text: &mut Vec<u8>, fault: GrFault) -> Result<(), AllocError>
    ensures { IfOk result (λ _. text.new.items ≡ text.old.items ++ graph_words fault) }
{
    match fault {
        GrFault::Read => text.extend_from_slice(b"read failed"),
        GrFault::TooLong => text.extend_from_slice(b"input too long"),
        GrFault::Memory => text.extend_from_slice(b"out of memory"),
        GrFault::BadLine(n) => put_line(text, u64::from(n), b"not a line of this format"),
        GrFault::ArcBeforeProblem(n) => put_line(
            text,
            u64::from(n),
            b"arc before the problem line",
        ),
        GrFault::SecondProblem(n) => put_line(text, u64::from(n), b"second problem line"),
        GrFault::Number(n) => put_line(text, u64::from(n), b"number missing or out of range"),
        GrFault::NodeRange(n) => put_line(text, u64::from(n), b"no such node"),
        GrFault::NoProblem => text.extend_from_slice(b"no problem line"),
        GrFault::ArcCount { said, found } => {
            put_counts(text, b"arcs said ", u64::from(said), u64::from(found))
        }
    }
}

#[tactic(auto, unfolding(crate::specs::Words::trace_words))]
fn put_trace_words(text: &mut Vec<u8>, fault: TraceFault) -> Result<(), AllocError>
    ensures { IfOk result (λ _. text.new.items ≡ text.old.items ++ trace_words fault) }
{
    match fault {
        TraceFault::BadLine(n) => put_line(text, n, b"not a line of this format"),
        TraceFault::Number(n) => put_line(text, n, b"number missing or out of range"),
        TraceFault::Count { said, found } => put_counts(text, b"events said ", said, found),
        TraceFault::Memory => put_words(text, b"out of memory"),
    }
}

/// The other protocol whose run a text is.
#[tactic(auto, unfolding(crate::specs::Words::other_words))]
fn put_other(text: &mut Vec<u8>, protocol: Protocol) -> Result<(), AllocError>
    ensures { IfOk result (λ _. text.new.items ≡ text.old.items ++ other_words protocol) }
{
    text.extend_from_slice(b"trace\",\"words\":\"the trace is of --protocol ")?;
    text.extend_from_slice(protocol.name().as_bytes())?;
    Ok(())
}

/// The event, counted from 1, that isn't lawful where it stands.
#[tactic(auto, unfolding(crate::specs::Words::event_words))]
fn put_event(text: &mut Vec<u8>, event: u64) -> Result<(), AllocError>
    ensures { IfOk result (λ _. text.new.items ≡ text.old.items ++ event_words event) }
{
    put_between(
        text,
        b"event\",\"words\":\"event ",
        event,
        b" is not lawful",
    )
}

/// A number between words.
fn put_between(text: &mut Vec<u8>, lead: &[u8], number: u64, tail: &[u8]) -> Result<(), AllocError>
    ensures { IfOk result (λ _. text.new.items ≡ text.old.items ++ between lead.now number tail.now) }
{
    text.extend_from_slice(lead)?;
    put_number(text, u128::from(number))?;
    text.extend_from_slice(tail)
}

fn put_words(text: &mut Vec<u8>, words: &[u8]) -> Result<(), AllocError>
    ensures { IfOk result (λ _. text.new.items ≡ text.old.items ++ words.now) }
{
    text.extend_from_slice(words)
}

/// A line's number, counted from 1, and what is wrong with it.
fn put_line(text: &mut Vec<u8>, number: u64, what: &[u8]) -> Result<(), AllocError>
    ensures { IfOk result (λ _. text.new.items ≡ text.old.items ++ line_words number what.now) }
{
    text.extend_from_slice(b"line ")?;
    put_number(text, u128::from(number))?;
    text.extend_from_slice(b": ")?;
    text.extend_from_slice(what)
}

/// How many a head has said, and how many there are.
fn put_counts(text: &mut Vec<u8>, lead: &[u8], said: u64, found: u64) -> Result<(), AllocError>
    ensures { IfOk result (λ _. text.new.items ≡ text.old.items ++ counts_words lead.now said found) }
{
    text.extend_from_slice(lead)?;
    put_number(text, u128::from(said))?;
    text.extend_from_slice(b", found ")?;
    put_number(text, u128::from(found))
}
