//! The mark of a run of a user's own protocol.
ghost use Rattle.ghs_lines.specs.Fields.{fields_of};
ghost use Rattle.peer_trace.specs.Mark.{is_lower_digit as is_lower_digit_of, is_sum as is_sum_of, mark_behind, marked, marked_by, without_mark};
ghost use Rattle.std.specs.List.{list_all};
ghost use Rattle.std.specs.Prelude.{IfNone, IfOk, IfSome, None, Some, [], codes, ◌∷◌, ◌≡◌};

use ghs_lines::fields::{next_field, two_fields};
use ghs_lines::numbers::number;
use std::alloc::{AllocError, Global};
use std::marker::Model;

/// How many entries a head may say that a book had.
pub const ENTRY_LIMIT: u64 = 1_099_511_627_776;

/// Which book a stored run goes by: the protocol's name, how many entries the book had when the run was stored, and the SHA-256
/// of the text of these entries: 64 digits in hexadecimal, in lower case. Contracts see it as a `Mark`.
#[derive(Debug, Drop)]
pub struct OwnMark {
    name: Vec<u8>,
    entries: u64,
    sum: Vec<u8>,
}

impl Model for OwnMark {
    ghost use Rattle.peer_trace.specs.Mark.{Mark, marked};

    ghost Value = { Mark };

    ghost view = { λ m. marked m.name.items m.entries m.sum.items };
}

impl OwnMark {
    /// The mark of a book of this protocol that has so many entries, with this sum of their text.
    pub fn new(name: Vec<u8>, entries: u64, sum: Vec<u8>) -> OwnMark
        ensures { result ≡ marked name.items entries sum.items }
    {
        OwnMark { name, entries, sum }
    }

    /// The protocol's name.
    pub fn name(&self) -> &[u8]
        ensures { result.now ≡ self.now.name }
    {
        &self.name
    }

    /// How many entries the book had.
    pub fn entries(&self) -> u64
        ensures { result ≡ self.now.entries }
    {
        self.entries
    }

    /// The SHA-256 of their text, in hexadecimal.
    pub fn sum(&self) -> &[u8]
        ensures { result.now ≡ self.now.sum }
    {
        &self.sum
    }
}

/// The head of a run of a user's own protocol: its mark, and the field of its count.
#[derive(Clone, Copy, Drop)]
pub(crate) struct MarkedHead<'a> {
    pub name: &'a [u8],
    pub entries: u64,
    pub sum: &'a [u8],
    pub count: &'a [u8],
}

impl MarkedHead<'_> {
    /// Its mark. Refusal: out of memory.
    pub(crate) fn mark(self, alloc: Global) -> Result<OwnMark, AllocError>
        ensures { IfOk result (λ mark. mark ≡ marked self.entry.name.now self.entry.entries self.entry.sum.now) }
    {
        Ok(OwnMark {
            name: Vec::from_slice(alloc, self.name)?,
            entries: self.entries,
            sum: Vec::from_slice(alloc, self.sum)?,
        })
    }
}

/// The head of a run of a user's own protocol that a line is.
pub(crate) fn marked_head(line: &[u8]) -> Option<MarkedHead<'_>>
    ensures some { IfSome result (λ h. marked_by (fields_of line.now) ≡ Some (marked h.name.now h.entries h.sum.now)) }
    ensures count { IfSome result (λ h. without_mark (fields_of line.now) ≡ codes "trace" ∷ h.count.now ∷ []) }
    ensures none { IfNone result (marked_by (fields_of line.now) ≡ None) }
{
    let (word, fields) = next_field(line)?;
    match word {
        b"trace" => head_behind(fields),
        _ => None,
    }
}

/// The same, from the fields behind the `trace`.
fn head_behind(fields: &[u8]) -> Option<MarkedHead<'_>>
    ensures some { IfSome result (λ h. mark_behind (fields_of fields.now) ≡ Some (marked h.name.now h.entries h.sum.now)) }
    ensures count { IfSome result (λ h. without_mark (codes "trace" ∷ fields_of fields.now) ≡ codes "trace" ∷ h.count.now ∷ []) }
    ensures none { IfNone result (mark_behind (fields_of fields.now) ≡ None) }
{
    let (own, fields) = next_field(fields)?;
    let (name, fields) = next_field(fields)?;
    let (entries_word, fields) = next_field(fields)?;
    let (entries, fields) = next_field(fields)?;
    let (sum_word, fields) = next_field(fields)?;
    let (sum, count) = two_fields(fields)?;
    if own != b"own".as_slice()
        || entries_word != b"entries".as_slice()
        || sum_word != b"sum".as_slice()
    {
        return None;
    }
    let entries = number(entries, ENTRY_LIMIT)?;
    if !is_sum(sum) {
        return None;
    }
    Some(MarkedHead {
        name,
        entries,
        sum,
        count,
    })
}

/// Whether a field is 64 digits in hexadecimal, in lower case.
fn is_sum(field: &[u8]) -> bool
    ensures { result ≡ is_sum_of field.now }
{
    field.len() == 64 && has_lower_digits(field)
}

fn has_lower_digits(field: &[u8]) -> bool
    ensures { result ≡ list_all is_lower_digit_of field.now }
{
    let mut rest = field;
    while let Some((byte, after)) = rest.split_first() {
        if !is_lower_digit(*byte) {
            return false;
        }
        rest = after;
    }
    true
}

fn is_lower_digit(byte: u8) -> bool
    ensures { result ≡ is_lower_digit_of byte }
{
    byte.is_ascii_digit() || (b'a' <= byte && byte <= b'f')
}
