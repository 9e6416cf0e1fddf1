//! The text of a trace, written and read.
ghost use Rattle.peer_texts.specs.Reading.{HasEvents, HasFault};
ghost use Rattle.peer_texts.specs.Text.{event_text, trace_text};
ghost use Rattle.peer_texts.specs.declared.fault.TraceFault.TheVariants.{Memory};
ghost use Rattle.std.specs.Prelude.{IfErr, IfOk, ◌++◌, ◌≡◌, ◌≢◌};

use crate::fault::TraceFault;
use crate::line::meaning_of;
use crate::reading::Reading;
use ghs_lines::lines::next_line;
use ghs_lines::numbers::put_number;
use peer_network::event::Event;
use std::alloc::{AllocError, Global};

/// How many events a trace's text may say that there are.
pub const EVENT_LIMIT: u64 = 1_099_511_627_776;

/// The text of a list of events: how many there are, and a line for each of them.
///
/// ```text
/// let text = write_trace(alloc, &[Event::Wake(1), Event::Take(1, 0)])?;
/// // b"trace 2\nwake 1\ntake 1 0\n", of which read_trace(alloc, &text) gives the two events again
/// ```
pub fn write_trace(alloc: Global, events: &[Event]) -> Result<Vec<u8>, AllocError>
    ensures { IfOk result (λ text. text.items ≡ trace_text events.now) }
{
    let mut text = Vec::new(alloc);
    text.extend_from_slice(b"trace ")?;
    put_number(&mut text, events.len() as u128)?;
    text.extend_from_slice(b"\n")?;
    for event in events {
        put_event(&mut text, *event)?;
    }
    Ok(text)
}

/// Appends the line of one event.
fn put_event(text: &mut Vec<u8>, event: Event) -> Result<(), AllocError>
    ensures { IfOk result (λ _. text.new.items ≡ text.old.items ++ event_text event) }
{
    match event {
        Event::Wake(v) => {
            text.extend_from_slice(b"wake ")?;
            put_number(text, v as u128)?;
        }
        Event::Take(v, port) => {
            text.extend_from_slice(b"take ")?;
            put_number(text, v as u128)?;
            text.extend_from_slice(b" ")?;
            put_number(text, port as u128)?;
        }
    }
    text.extend_from_slice(b"\n")
}

/// The list of events that a text has. Of a text's faults the first one of its first faulty line comes first; a text
/// without fields is BadLine(1); Count comes where no line is faulty. Whether an event names a node or a port of a graph
/// isn't asked here.
pub fn read_trace(alloc: Global, text: &[u8]) -> Result<Vec<Event>, TraceFault>
    ensures events { IfOk result (λ events. HasEvents text.now events.items) }
    ensures fault { IfErr result (λ fault. fault ≢ Memory → HasFault text.now fault) }
{
    let mut reading = Reading::new(alloc);
    let mut rest = text;
    'lines: while let Some((line, after)) = next_line(rest) {
        reading.take(meaning_of(line))?;
        rest = after;
    }
    reading.conclude()
}
