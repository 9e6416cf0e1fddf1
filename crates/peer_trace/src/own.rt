//! The text of a stored run of a user's own protocol, written and read.
ghost use Rattle.peer_texts.specs.declared.fault.TraceFault.TheVariants.{Memory};
ghost use Rattle.peer_trace.specs.Reading.{HasOwnEvents, HasOwnFault};
ghost use Rattle.peer_trace.specs.Text.{mark_text, own_text};
ghost use Rattle.peer_trace.specs.declared.fault.StoredFault.TheVariants.{Trace};
ghost use Rattle.std.specs.Prelude.{IfErr, IfOk, drop, length, ◌++◌, ◌≡◌, ◌≢◌, ◌≤◌};

use crate::fault::StoredFault;
use crate::head::{head_line, protocol_of};
use crate::mark::{OwnMark, marked_head};
use crate::trace::read_plain;
use ghs_lines::numbers::put_number;
use peer_network::event::Event;
use peer_texts::trace::write_trace;
use std::alloc::{AllocError, Global};

/// The text of a run of a user's own protocol: the head, which has the mark and says how many events there are, and a line for
/// each of them.
///
/// ```text
/// let text = write_own_trace(alloc, &mark, &[Event::Wake(1), Event::Take(2, 0)])?;
/// // of an `echo` whose book has 4 entries: `trace own echo entries 4 sum `, 64 digits, and b" 2\nwake 1\ntake 2 0\n"
/// let (mark, events) = read_own_trace(alloc, &text)?;             // the mark and the two events again
/// let other = read_trace_of(alloc, Protocol::Ghs, &text);         // Err(StoredFault::Own)
/// ```
pub fn write_own_trace(
    alloc: Global,
    mark: &OwnMark,
    events: &[Event],
) -> Result<Vec<u8>, AllocError>
    ensures { IfOk result (λ text. text.items ≡ own_text mark.now events.now) }
{
    let text = write_trace(alloc, events)?;
    with_mark(alloc, mark, &text)
}

/// A trace's text with a mark in front of its count.
fn with_mark(alloc: Global, mark: &OwnMark, text: &[u8]) -> Result<Vec<u8>, AllocError>
    requires { 6 ≤ length text.now }
    ensures { IfOk result (λ marked. marked.items ≡ mark_text mark.now ++ drop 6 text.now) }
{
    let (_, counted) = text.split_at(b"trace ".len());
    let mut marked = Vec::from_slice(alloc, b"trace own ")?;
    marked.extend_from_slice(mark.name())?;
    marked.extend_from_slice(b" entries ")?;
    put_number(&mut marked, u128::from(mark.entries()))?;
    marked.extend_from_slice(b" sum ")?;
    marked.extend_from_slice(mark.sum())?;
    marked.extend_from_slice(b" ")?;
    marked.extend_from_slice(counted)?;
    Ok(marked)
}

/// The mark and the events of a stored run of a user's own protocol. A text whose head names another protocol is Other. If it is
/// no trace's text with a mark in its head, that is the fault which `read_trace` has for it, as if the head had no mark; the
/// number of a line is that in this text. Whether a book fits the mark isn't asked here.
pub fn read_own_trace(alloc: Global, text: &[u8]) -> Result<(OwnMark, Vec<Event>), StoredFault>
    ensures events { IfOk result (λ x. HasOwnEvents text.now x.0 x.1.items) }
    ensures fault { IfErr result (λ fault. fault ≢ Trace Memory → HasOwnFault text.now fault) }
{
    if let Some(other) = protocol_of(text) {
        return Err(StoredFault::Other(other));
    }
    let events = read_plain(alloc, text)?;
    match marked_head(head_line(text)) {
        Some(head) => Ok((head.mark(alloc)?, events)),
        // Without a mark and a name no text is a trace's.
        None => unreachable!(),
    }
}
