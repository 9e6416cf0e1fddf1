//! The head of a text: which protocol it names, or which mark it has, and the text without both.
ghost use Rattle.ghs_lines.specs.Fields.{fields_of};
ghost use Rattle.peer_trace.specs.Head.{fields_in, first_fields, head_fields, named_behind, named_by, named_so, plain_lines, plain_of, protocol_in};
ghost use Rattle.peer_trace.specs.Mark.{marked_by};
ghost use Rattle.peer_trace.specs.Protocol.{is_in_heads, name_of};
ghost use Rattle.std.specs.Prelude.{IfNone, IfOk, IfSome, None, [], codes, true, ◌∷◌, ◌≡◌};

use crate::mark::marked_head;
use crate::protocol::Protocol;
use ghs_lines::fields::{next_field, one_field, two_fields};
use ghs_lines::lines::next_line;
use std::alloc::{AllocError, Global};

/// The protocol that a text's head names.
pub(crate) fn protocol_of(text: &[u8]) -> Option<Protocol>
    ensures { result ≡ protocol_in text.now }
{
    let (protocol, _) = head_of(head_line(text))?;
    Some(protocol)
}

/// The head of a text: its first line that has fields; an empty one where none has.
pub(crate) fn head_line(text: &[u8]) -> &[u8]
    ensures { fields_of result.now ≡ first_fields (fields_in text.now) }
{
    let mut rest = text;
    'lines: while let Some((line, after)) = next_line(rest) {
        if next_field(line).is_some() {
            return line;
        }
        rest = after;
    }
    b""
}

/// The text without the name and the mark in its head, which has its lines one by one.
pub(crate) fn without_name(alloc: Global, text: &[u8]) -> Result<Vec<u8>, AllocError>
    ensures { IfOk result (λ plain. fields_in plain.items ≡ plain_lines (fields_in text.now)) }
{
    let mut plain = Vec::with_capacity(alloc, text.len())?;
    let mut rest = text;
    'lines: while let Some((line, after)) = next_line(rest) {
        if let Some(count) = count_of(line) {
            plain.extend_from_slice(b"trace ")?;
            plain.extend_from_slice(count)?;
            plain.extend_from_slice(b"\n")?;
            plain.extend_from_slice(after)?;
            return Ok(plain);
        }
        if next_field(line).is_some() {
            plain.extend_from_slice(rest)?;
            return Ok(plain);
        }
        plain.extend_from_slice(b"\n")?;
        rest = after;
    }
    Ok(plain)
}

/// The field of the count, where a line is a head.
fn count_of(line: &[u8]) -> Option<&[u8]>
    ensures some { IfSome result (λ count. plain_of (fields_of line.now) ≡ codes "trace" ∷ count.now ∷ []) }
    ensures mark { IfNone result (marked_by (fields_of line.now) ≡ None) }
    ensures name { IfNone result (named_by (fields_of line.now) ≡ None) }
{
    match marked_head(line) {
        Some(head) => Some(head.count),
        None => {
            let (_, count) = head_of(line)?;
            Some(count)
        }
    }
}

/// The protocol that a line names as a head, and the field of its count.
fn head_of(line: &[u8]) -> Option<(Protocol, &[u8])>
    ensures some { IfSome result (λ x. fields_of line.now ≡ head_fields x.0 x.1.now) }
    ensures none { IfNone result (named_by (fields_of line.now) ≡ None) }
{
    let (word, fields) = next_field(line)?;
    match word {
        b"trace" => behind_word(fields),
        _ => None,
    }
}

/// The same, from the fields behind the `trace`.
fn behind_word(fields: &[u8]) -> Option<(Protocol, &[u8])>
    ensures some { IfSome result (λ x. codes "trace" ∷ fields_of fields.now ≡ head_fields x.0 x.1.now) }
    ensures none { IfNone result (named_behind (fields_of fields.now) ≡ None) }
{
    if let Some(count) = one_field(fields) {
        return Some((Protocol::Ghs, count));
    }
    let (name, count) = two_fields(fields)?;
    Some((named_so(name)?, count))
}

/// The protocol that a head names so.
fn named_so(name: &[u8]) -> Option<Protocol>
    ensures some { IfSome result (λ p. (name.now ≡ name_of p) × (is_in_heads p ≡ true)) }
    ensures none { IfNone result (named_so name.now ≡ None) }
{
    match name {
        b"boruvka" => Some(Protocol::Boruvka),
        b"echo" => Some(Protocol::Echo),
        b"gather" => Some(Protocol::Gather),
        _ => None,
    }
}
