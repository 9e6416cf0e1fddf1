//! Questions, and what each asks for.
ghost use Rattle.own_book.specs.Parts.{parts_at};
ghost use Rattle.own_book.specs.Query.{asked_by, asking_of, take_asking, wake_asking};
ghost use Rattle.own_book.specs.Question.{asked, greeting_asked, opening_asked, take_asked, wake_asked};
ghost use Rattle.own_book.specs.Words.{is_key as is_key_of, is_number as is_number_of};
ghost use Rattle.std.specs.List.{list_all};
ghost use Rattle.std.specs.Option.{option_map};
ghost use Rattle.std.specs.Prelude.{IfNone, IfSome, [], length, ◌≡◌, ◌≢◌, ◌∷◌};

use crate::fault::LineFault;
use crate::parts::cut;
use crate::words::{is_key, is_message, is_state, plain_number};

/// What a question asks for.
#[derive(Clone, Copy, Debug, Drop, PartialEq, Eq)]
pub enum Asked {
    /// `own 1`: the protocol's name, and its kinds of messages.
    Greeting,
    /// `open NODE KEY ..`: a node's first state.
    Opening,
    /// `wake NODE STATE`: what a node does that wakes by itself.
    Wake,
    /// `take NODE PORT MESSAGE STATE`: what a node does with a message that came in at this port.
    Take,
}

/// What a question asks of a node at an event. Its parts are those of its text.
#[derive(Clone, Copy, Drop)]
pub enum Query<'a> {
    /// What it does in this state when it wakes by itself.
    Wake {
        node: u32,
        state: &'a [u8],
    },
    /// What it does in this state with this message, which came in at this port.
    Take {
        node: u32,
        port: u32,
        message: &'a [u8],
        state: &'a [u8],
    },
}

/// What a question asks of a node at an event; none where it asks for a greeting or an opening, or is no question.
///
/// ```text
/// let query = read_query(b"take 2 0 test(1) level=0");
/// // Some(Query::Take { node: 2, port: 0, message: b"test(1)", state: b"level=0" })
/// ```
pub fn read_query(question: &[u8]) -> Option<Query<'_>>
    ensures { option_map asked_by result ≡ asking_of question.now }
{
    let (word, rest) = cut(question, b' ')?;
    match word {
        b"wake" => wake_query(rest),
        b"take" => take_query(rest),
        _ => None,
    }
}

/// The same of what is behind `wake`.
fn wake_query(rest: &[u8]) -> Option<Query<'_>>
    ensures { option_map asked_by result ≡ wake_asking (parts_at 32 rest.now) }
{
    let (node, state) = two_parts(rest)?;
    let node = plain_number(node)?;
    Some(Query::Wake { node, state })
}

/// The same of what is behind `take`.
fn take_query(rest: &[u8]) -> Option<Query<'_>>
    ensures { option_map asked_by result ≡ take_asking (parts_at 32 rest.now) }
{
    let (node, port, message, state) = four_parts(rest)?;
    let node = plain_number(node)?;
    let port = plain_number(port)?;
    Some(Query::Take {
        node,
        port,
        message,
        state,
    })
}

/// What a question asks for, or why it is none: BadLine where its words aren't those of a question, and else the fault of its
/// first faulty field, Number for a node or a port, BadLine for any other.
///
/// ```text
/// let asked = asked_of(b"take 2 0 test(1,1:1-2) asleep=no;level=1");     // Ok(Asked::Take)
/// let none = asked_of(b"take 2 x test level=1");                         // Err(LineFault::Number)
/// ```
pub fn asked_of(question: &[u8]) -> Result<Asked, LineFault>
    ensures { result ≡ asked question.now }
{
    let Some((word, rest)) = cut(question, b' ') else {
        return Err(LineFault::BadLine);
    };
    match word {
        b"own" => greeting(rest),
        b"open" => opening(rest),
        b"wake" => wake(rest),
        b"take" => take(rest),
        _ => Err(LineFault::BadLine),
    }
}

/// The same of a question that begins with `own`, from what is behind that.
fn greeting(rest: &[u8]) -> Result<Asked, LineFault>
    ensures { result ≡ greeting_asked rest.now }
{
    match rest {
        b"1" => Ok(Asked::Greeting),
        _ => Err(LineFault::BadLine),
    }
}

/// The same of a question that begins with `open`.
fn opening(rest: &[u8]) -> Result<Asked, LineFault>
    ensures { result ≡ opening_asked (parts_at 32 rest.now) }
{
    match cut(rest, b' ') {
        Some((node, keys)) => {
            if !is_number(node) {
                return Err(LineFault::Number);
            }
            if !are_keys(keys) {
                return Err(LineFault::BadLine);
            }
            Ok(Asked::Opening)
        }
        None => {
            if !is_number(rest) {
                return Err(LineFault::Number);
            }
            Ok(Asked::Opening)
        }
    }
}

/// Whether all fields are keys.
fn are_keys(keys: &[u8]) -> bool
    ensures { result ≡ list_all is_key_of (parts_at 32 keys.now) }
{
    let mut rest = keys;
    while let Some((key, after)) = cut(rest, b' ') {
        if !is_key(key) {
            return false;
        }
        rest = after;
    }
    is_key(rest)
}

/// The same of a question that begins with `wake`.
fn wake(rest: &[u8]) -> Result<Asked, LineFault>
    ensures { result ≡ wake_asked (parts_at 32 rest.now) }
{
    let Some((node, state)) = two_parts(rest) else {
        return Err(LineFault::BadLine);
    };
    if !is_number(node) {
        return Err(LineFault::Number);
    }
    if !is_state(state) {
        return Err(LineFault::BadLine);
    }
    Ok(Asked::Wake)
}

/// The same of a question that begins with `take`.
fn take(rest: &[u8]) -> Result<Asked, LineFault>
    ensures { result ≡ take_asked (parts_at 32 rest.now) }
{
    let Some((node, port, message, state)) = four_parts(rest) else {
        return Err(LineFault::BadLine);
    };
    if !is_number(node) || !is_number(port) {
        return Err(LineFault::Number);
    }
    if !is_message(message) || !is_state(state) {
        return Err(LineFault::BadLine);
    }
    Ok(Asked::Take)
}

fn is_number(field: &[u8]) -> bool
    ensures { result ≡ is_number_of field.now }
{
    plain_number(field).is_some()
}

/// The fields, where there are just two.
fn two_parts(line: &[u8]) -> Option<(&[u8], &[u8])>
    ensures some { IfSome result (λ x. parts_at 32 line.now ≡ x.0.now ∷ x.1.now ∷ []) }
    ensures none { IfNone result (length (parts_at 32 line.now) ≢ 2) }
{
    let (first, rest) = cut(line, b' ')?;
    match cut(rest, b' ') {
        Some(_) => None,
        None => Some((first, rest)),
    }
}

/// The fields, where there are just four.
fn four_parts(line: &[u8]) -> Option<(&[u8], &[u8], &[u8], &[u8])>
    ensures some { IfSome result (λ x. parts_at 32 line.now ≡ x.0.now ∷ x.1.now ∷ x.2.now ∷ x.3.now ∷ []) }
    ensures none { IfNone result (length (parts_at 32 line.now) ≢ 4) }
{
    let (first, rest) = cut(line, b' ')?;
    let (second, rest) = cut(rest, b' ')?;
    let (third, fourth) = two_parts(rest)?;
    Some((first, second, third, fourth))
}
