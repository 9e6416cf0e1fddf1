//! What a line of a trace's text says.
ghost use Rattle.ghs_lines.specs.Fields.{fields_of};
ghost use Rattle.ghs_lines.specs.Numbers.{number_of};
ghost use Rattle.peer_texts.specs.Line.{head_of, meaning, take_of, wake_of};
ghost use Rattle.std.specs.Prelude.{◌≡◌};

use crate::trace::EVENT_LIMIT;
use ghs_lines::fields::{next_field, one_field, two_fields};
use ghs_lines::numbers::number;

/// What one line says. A number is `None` where its field is no number within its limit.
#[derive(Clone, Copy, Debug, Drop)]
pub enum Line {
    /// Nothing: a line without fields.
    Passed,
    /// Nothing that the format knows.
    Malformed,
    /// How many events there are.
    Head(Option<u64>),
    /// This node wakes.
    Wake(Option<u32>),
    /// This node takes a message at this port.
    Take(Option<u32>, Option<u32>),
}

/// What a line says.
pub fn meaning_of(line: &[u8]) -> Line
    ensures { result ≡ meaning line.now }
{
    let Some((first, more)) = next_field(line) else {
        return Line::Passed;
    };
    match first {
        b"trace" => head(more),
        b"wake" => wake(more),
        b"take" => take(more),
        _ => Line::Malformed,
    }
}

/// What a line says whose first field is `trace`, from its other fields.
fn head(fields: &[u8]) -> Line
    ensures { result ≡ head_of (fields_of fields.now) }
{
    match one_field(fields) {
        Some(count) => Line::Head(number(count, EVENT_LIMIT)),
        None => Line::Malformed,
    }
}

/// What a line says whose first field is `wake`, from its other fields.
fn wake(fields: &[u8]) -> Line
    ensures { result ≡ wake_of (fields_of fields.now) }
{
    match one_field(fields) {
        Some(node) => Line::Wake(narrow(node)),
        None => Line::Malformed,
    }
}

/// What a line says whose first field is `take`, from its other fields.
fn take(fields: &[u8]) -> Line
    ensures { result ≡ take_of (fields_of fields.now) }
{
    match two_fields(fields) {
        Some((node, port)) => Line::Take(narrow(node), narrow(port)),
        None => Line::Malformed,
    }
}

/// The number that a field is, where it is one of 32 bits.
fn narrow(field: &[u8]) -> Option<u32>
    ensures { result ≡ number_of 4294967295 field.now }
{
    let value = number(field, u32::MAX as u64)?;
    Some(value as u32)
}
