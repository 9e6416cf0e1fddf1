//! The text of a stored run, written and read.
ghost use Rattle.peer_texts.specs.Reading.{HaveFault, IsTrace};
ghost use Rattle.peer_texts.specs.declared.fault.TraceFault.TheVariants.{Memory};
ghost use Rattle.peer_trace.specs.Head.{has_name, mark_in, protocol_in};
ghost use Rattle.peer_trace.specs.Protocol.{name_of};
ghost use Rattle.peer_trace.specs.Reading.{HasEventsOf, HasFaultOf, IsNoOther, says};
ghost use Rattle.peer_trace.specs.Text.{stored_text};
ghost use Rattle.peer_trace.specs.declared.fault.StoredFault.TheVariants.{Trace};
ghost use Rattle.std.specs.Prelude.{IfErr, IfNone, IfOk, IfSome, None, Some, codes, drop, length, ◌++◌, ◌≡◌, ◌≢◌, ◌≤◌};

use crate::fault::StoredFault;
use crate::head::{head_line, protocol_of, without_name};
use crate::mark::marked_head;
use crate::protocol::Protocol;
use peer_network::event::Event;
use peer_texts::fault::TraceFault;
use peer_texts::trace::{read_trace, write_trace};
use std::alloc::{AllocError, Global};

/// The text of a run of this protocol: the head, which names it and says how many events there are, and a line for each of
/// them.
///
/// ```text
/// let text = write_trace_of(alloc, Protocol::Boruvka, &[Event::Wake(1), Event::Take(2, 0)])?;
/// // b"trace boruvka 2\nwake 1\ntake 2 0\n"
/// let events = read_trace_of(alloc, Protocol::Boruvka, &text);    // the two events again
/// let other = read_trace_of(alloc, Protocol::Ghs, &text);         // Err(StoredFault::Other(Protocol::Boruvka))
/// ```
pub fn write_trace_of(
    alloc: Global,
    protocol: Protocol,
    events: &[Event],
) -> Result<Vec<u8>, AllocError>
    ensures { IfOk result (λ text. text.items ≡ stored_text protocol events.now) }
{
    let text = write_trace(alloc, events)?;
    if protocol.is_in_heads() {
        return with_name(alloc, protocol, &text);
    }
    Ok(text)
}

/// A trace's text with the name of a protocol in front of its count.
fn with_name(alloc: Global, protocol: Protocol, text: &[u8]) -> Result<Vec<u8>, AllocError>
    requires { 6 ≤ length text.now }
    ensures { IfOk result (λ named. named.items ≡ codes "trace " ++ name_of protocol ++ codes " " ++ drop 6 text.now) }
{
    let (_, counted) = text.split_at(b"trace ".len());
    let mut named = Vec::from_slice(alloc, b"trace ")?;
    named.extend_from_slice(protocol.name().as_bytes())?;
    named.extend_from_slice(b" ")?;
    named.extend_from_slice(counted)?;
    Ok(named)
}

/// The events of a stored run of this protocol. A text whose head names another protocol is Other, or Own. If it is no trace's text,
/// that is the fault which `read_trace` has for it, as if the head had no name; the number of a line is that in this text.
pub fn read_trace_of(
    alloc: Global,
    protocol: Protocol,
    text: &[u8],
) -> Result<Vec<Event>, StoredFault>
    ensures events { IfOk result (λ events. HasEventsOf protocol text.now events.items) }
    ensures fault { IfErr result (λ fault. fault ≢ Trace Memory → HasFaultOf protocol text.now fault) }
{
    let named = protocol_of(text);
    if let Some(other) = other_than(protocol, named) {
        return Err(StoredFault::Other(other));
    }
    if marked_head(head_line(text)).is_some() {
        return Err(StoredFault::Own);
    }
    Ok(read_named(alloc, named, text)?)
}

/// The protocol that is named, where it is another than this one.
fn other_than(protocol: Protocol, named: Option<Protocol>) -> Option<Protocol>
    ensures other { IfSome result (λ other. (named ≡ Some other) × (other ≢ protocol)) }
    ensures own { IfNone result (IsNoOther protocol named) }
{
    let other = named?;
    if other == protocol {
        return None;
    }
    Some(other)
}

/// The events of a text whose head names this protocol, or none.
fn read_named(alloc: Global, named: Option<Protocol>, text: &[u8]) -> Result<Vec<Event>, TraceFault>
    requires named { named ≡ protocol_in text.now }
    requires unmarked { mark_in text.now ≡ None }
    ensures events { IfOk result (λ events. IsTrace (says text.now) events.items) }
    ensures fault { IfErr result (λ fault. fault ≢ Memory → HaveFault (says text.now) fault) }
{
    if !has_name(named) {
        return read_trace(alloc, text);
    }
    read_plain(alloc, text)
}

/// The events of a text, its head read without its protocol's name and its mark.
pub(crate) fn read_plain(alloc: Global, text: &[u8]) -> Result<Vec<Event>, TraceFault>
    ensures events { IfOk result (λ events. IsTrace (says text.now) events.items) }
    ensures fault { IfErr result (λ fault. fault ≢ Memory → HaveFault (says text.now) fault) }
{
    let plain = without_name(alloc, text)?;
    read_trace(alloc, &plain)
}

/// Whether a head that names this has a name in it.
fn has_name(named: Option<Protocol>) -> bool
    ensures { result ≡ has_name named }
{
    match named {
        Some(protocol) => protocol.is_in_heads(),
        None => false,
    }
}
