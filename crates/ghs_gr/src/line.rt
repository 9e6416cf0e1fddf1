//! What the lines of a graph text say.
ghost use Rattle.ghs_gr.specs.Arc.{arc_with};
ghost use Rattle.ghs_gr.specs.Line.{IsNumberBefore, arc_of, meaning, meanings, number_in, problem_of};
ghost use Rattle.ghs_gr.specs.Stops.{AreStops};
ghost use Rattle.ghs_gr.specs.declared.line.Line.TheVariants as line;
ghost use Rattle.ghs_lines.specs.Fields.{fields_of};
ghost use Rattle.std.specs.Prelude.{IfNone, IfSome, Some, [], length, ◌<◌, ◌≡◌, ◌≢◌, ◌∷◌};

use crate::arc::Arc;
use crate::digits::{stops_in, value_of};
use ghs_lines::fields::next_field;
use ghs_lines::lines::next_line;
use ghs_lines::numbers::number as number_up_to;

/// How many digits a plain number has at most, as those below 2^32 without leading zeros have.
const PLAIN_DIGITS: usize = 10;

/// What one line says.
#[derive(Clone, Copy, Debug, Drop)]
pub enum Line {
    /// Nothing: a line without fields, or a comment.
    Passed,
    /// Nothing that the format knows.
    Malformed,
    /// How many nodes and how many arc lines there are, each where its field is a number below 2^32.
    Problem(Option<u32>, Option<u32>),
    /// An arc, where all three fields are numbers below 2^32.
    Arc(Option<Arc>),
}

/// What the first line says, and what is behind it.
pub fn next_meaning(text: &[u8]) -> Option<(Line, &[u8])>
    ensures some { IfSome result (λ x. meanings text.now ≡ x.0 ∷ meanings x.1.now) }
    ensures shorter { IfSome result (λ x. length x.1.now < length text.now) }
    ensures none { IfNone result (text.now ≡ []) }
{
    if let Some((arc, rest)) = plain_arc(text) {
        return Some((Line::Arc(Some(arc)), rest));
    }
    let (line, rest) = next_line(text)?;
    Some((meaning_of(line), rest))
}

/// The arc of the first line, where it is an arc line in the form that nearly all have: single spaces, a line feed
/// behind it, and numbers that fit. It is read as it stands, without being cut into fields first.
fn plain_arc(text: &[u8]) -> Option<(Arc, &[u8])>
    ensures some { IfSome result (λ x. meanings text.now ≡ line.Arc (Some x.0) ∷ meanings x.1.now) }
    ensures shorter { IfSome result (λ x. length x.1.now < length text.now) }
{
    let fields = text.strip_prefix(b"a ")?;
    let (from, rest, stops) = number_before(b' ', fields, stops_in(fields))?;
    let (to, rest, stops) = number_before(b' ', rest, stops)?;
    let (weight, rest, _) = number_before(b'\n', rest, stops)?;
    Some((Arc { from, to, weight }, rest))
}

/// The plain number of the digits at the front, where this byte stands right behind them, and what is behind that byte.
/// Of both texts, bits say which bytes are no digits, as far as is known.
fn number_before(end: u8, text: &[u8], stops: u64) -> Option<(u32, &[u8], u64)>
    requires { AreStops stops text.now }
    ensures number { IfSome result (λ x. IsNumberBefore end text.now x.0 x.1.now) }
    ensures stops { IfSome result (λ x. AreStops x.2 x.1.now) }
{
    let count = stops.trailing_zeros() as usize;
    match text.first_chunk() {
        Some(front) if 1 <= count && count <= 8 && text[count] == end => {
            let (_, rest) = text.split_at(count + 1);
            Some((value_of(*front, count) as u32, rest, stops >> (count + 1)))
        }
        _ => {
            let (number, rest) = number_by_bytes(end, text)?;
            Some((number, rest, 0))
        }
    }
}

/// The same, byte by byte: of more digits than are read together, or close to the end of the text.
fn number_by_bytes(end: u8, text: &[u8]) -> Option<(u32, &[u8])>
    ensures { IfSome result (λ x. IsNumberBefore end text.now x.0 x.1.now) }
{
    let mut value = 0u64;
    for i in 0..text.len().min(PLAIN_DIGITS + 1) {
        let byte = text[i];
        if !byte.is_ascii_digit() {
            if byte != end || i == 0 || value >= 1 << 32 {
                return None;
            }
            let (_, rest) = text.split_at(i + 1);
            return Some((value as u32, rest));
        }
        value = value * 10 + (byte - b'0') as u64;
    }
    None
}

/// What a line says.
fn meaning_of(line: &[u8]) -> Line
    ensures { result ≡ meaning line.now }
{
    let Some((first, more)) = next_field(line) else {
        return Line::Passed;
    };
    match first {
        [b'c', ..] => Line::Passed,
        b"p" => problem(more),
        b"a" => arc(more),
        _ => Line::Malformed,
    }
}

/// What a line says whose first field is `p`, from its other fields.
fn problem(fields: &[u8]) -> Line
    ensures { result ≡ problem_of (fields_of fields.now) }
{
    match three_fields(fields) {
        Some((b"sp", nodes, arcs)) => Line::Problem(number(nodes), number(arcs)),
        _ => Line::Malformed,
    }
}

/// What a line says whose first field is `a`, from its other fields.
fn arc(fields: &[u8]) -> Line
    ensures { result ≡ arc_of (fields_of fields.now) }
{
    match three_fields(fields) {
        Some((from, to, weight)) => Line::Arc(arc_between(from, to, weight)),
        None => Line::Malformed,
    }
}

/// The arc of these fields, where all three are numbers.
fn arc_between(from: &[u8], to: &[u8], weight: &[u8]) -> Option<Arc>
    ensures { result ≡ arc_with (number_in from.now) (number_in to.now) (number_in weight.now) }
{
    Some(Arc {
        from: number(from)?,
        to: number(to)?,
        weight: number(weight)?,
    })
}

/// The fields, where there are just three.
fn three_fields(line: &[u8]) -> Option<(&[u8], &[u8], &[u8])>
    ensures some { IfSome result (λ x. fields_of line.now ≡ x.0.now ∷ x.1.now ∷ x.2.now ∷ []) }
    ensures none { IfNone result (length (fields_of line.now) ≢ 3) }
{
    let (first, line) = next_field(line)?;
    let (second, line) = next_field(line)?;
    let (third, line) = next_field(line)?;
    match next_field(line) {
        Some(_) => None,
        None => Some((first, second, third)),
    }
}

/// The number that a field is, where it is one.
fn number(field: &[u8]) -> Option<u32>
    ensures { result ≡ number_in field.now }
{
    let value = number_up_to(field, u32::MAX as u64)?;
    Some(value as u32)
}
