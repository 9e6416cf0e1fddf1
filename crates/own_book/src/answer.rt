//! Answers, and what each says.
ghost use Rattle.own_book.specs.Answer.{IsReadable, are_sends, answered, greeting_in, is_kind as is_kind_of, is_send as is_send_of, opening_in, reaction_in, said_by, saying, sends_in, sent_by, sent_of as sent_of_field, verdict_said, waits_in};
ghost use Rattle.own_book.specs.Parts.{cut_at, parts_at};
ghost use Rattle.std.specs.List.{list_all};
ghost use Rattle.std.specs.Option.{option_map};
ghost use Rattle.std.specs.Prelude.{IfNone, IfSome, [], true, ◌≡◌, ◌∷◌};

use crate::kind::kind_of;
use crate::parts::{cut, first_part};
use crate::question::Asked;
use crate::words::{is_message, is_state, is_word, plain_number};

/// What an answer says. Its parts are those of its text.
#[derive(Clone, Copy, Drop)]
pub enum Answer<'a> {
    /// To `own 1`: the protocol's name, and its kinds of messages, a blank between two.
    Greeting {
        name: &'a [u8],
        kinds: &'a [u8],
    },
    /// To `open`: the node's first state.
    State(&'a [u8]),
    /// To `wake` and `take`: the state after it, whether the message waits, and what is sent, a blank between two.
    Reaction {
        state: &'a [u8],
        waits: bool,
        sends: &'a [u8],
    },
    /// To every question: the node has no rule for it, and says why.
    GivesUp(&'a [u8]),
}

/// A message that is sent, and the port at which it goes out.
#[derive(Clone, Copy, Drop)]
pub struct Sent<'a> {
    pub port: u32,
    pub message: &'a [u8],
}

/// The first of the messages that a reaction sends, and the others; none where nothing is sent.
pub fn next_sent(sends: &[u8]) -> Option<(Sent<'_>, &[u8])>
    requires { are_sends sends.now ≡ true }
    ensures some { IfSome result (λ x. sends_in sends.now ≡ sent_by x.0 ∷ sends_in x.1.now) }
    ensures others { IfSome result (λ x. are_sends x.1.now ≡ true) }
    ensures none { IfNone result (sends_in sends.now ≡ []) }
{
    if sends.is_empty() {
        return None;
    }
    let (field, others) = first_part(sends, b' ');
    let sent = sent_of(field)?;
    Some((sent, others))
}

/// What an answer says to what is asked for; none where it is no answer to that.
///
/// ```text
/// let answer = read_answer(Asked::Take, b"asleep=no wait 1>test(0,1:1-2)");
/// // Some(Answer::Reaction { state: b"asleep=no", waits: true, sends: b"1>test(0,1:1-2)" })
/// let none = read_answer(Asked::Wake, b"asleep=no wait");        // None: a wake has no message that could wait
/// ```
pub fn read_answer(asked: Asked, answer: &[u8]) -> Option<Answer<'_>>
    ensures says { option_map said_by result ≡ saying asked answer.now }
    ensures readable { IfSome result IsReadable }
{
    if let Some(why) = answer.strip_prefix(b"! ") {
        return Some(Answer::GivesUp(why));
    }
    match asked {
        Asked::Greeting => greeting(answer),
        Asked::Opening => opening(answer),
        Asked::Wake => reaction(false, answer),
        Asked::Take => reaction(true, answer),
    }
}

fn greeting(answer: &[u8]) -> Option<Answer<'_>>
    ensures says { option_map said_by result ≡ greeting_in answer.now }
    ensures readable { IfSome result IsReadable }
{
    let rest = answer.strip_prefix(b"own 1 ")?;
    let (name, kinds) = cut(rest, b' ')?;
    if is_word(name) && all_kinds(kinds) {
        Some(Answer::Greeting { name, kinds })
    } else {
        None
    }
}

/// Whether all fields are kinds.
fn all_kinds(kinds: &[u8]) -> bool
    ensures { result ≡ list_all is_kind_of (parts_at 32 kinds.now) }
{
    let mut rest = kinds;
    while let Some((kind, after)) = cut(rest, b' ') {
        if kind_of(kind).is_none() {
            return false;
        }
        rest = after;
    }
    kind_of(rest).is_some()
}

fn opening(answer: &[u8]) -> Option<Answer<'_>>
    ensures says { option_map said_by result ≡ opening_in answer.now }
    ensures readable { IfSome result IsReadable }
{
    if is_state(answer) {
        Some(Answer::State(answer))
    } else {
        None
    }
}

fn reaction(has_message: bool, answer: &[u8]) -> Option<Answer<'_>>
    ensures says { option_map said_by result ≡ reaction_in has_message answer.now }
    ensures readable { IfSome result IsReadable }
{
    let (state, rest) = cut(answer, b' ')?;
    if !is_state(state) {
        return None;
    }
    verdict(has_message, state, rest)
}

/// A reaction with this state, from what is behind the state.
fn verdict<'a>(has_message: bool, state: &'a [u8], rest: &'a [u8]) -> Option<Answer<'a>>
    ensures says { option_map said_by result ≡ verdict_said has_message state.now rest.now (cut_at 32 rest.now) }
    ensures readable { IfSome result IsReadable }
{
    match cut(rest, b' ') {
        Some((verdict, sends)) => {
            if !all_sends(sends) {
                return None;
            }
            let waits = waits(has_message, verdict)?;
            Some(Answer::Reaction {
                state,
                waits,
                sends,
            })
        }
        None => {
            let waits = waits(has_message, rest)?;
            Some(Answer::Reaction {
                state,
                waits,
                sends: b"",
            })
        }
    }
}

/// Whether the message waits.
fn waits(has_message: bool, verdict: &[u8]) -> Option<bool>
    ensures { result ≡ waits_in has_message verdict.now }
{
    match verdict {
        b"done" => Some(false),
        b"wait" if has_message => Some(true),
        _ => None,
    }
}

/// Whether all fields are sends.
fn all_sends(sends: &[u8]) -> bool
    ensures { result ≡ list_all is_send_of (parts_at 32 sends.now) }
{
    let mut rest = sends;
    while let Some((send, after)) = cut(rest, b' ') {
        if sent_of(send).is_none() {
            return false;
        }
        rest = after;
    }
    sent_of(rest).is_some()
}

/// The send that a field is: `PORT>MESSAGE`.
fn sent_of(field: &[u8]) -> Option<Sent<'_>>
    ensures { option_map sent_by result ≡ sent_of_field field.now }
{
    let (port, message) = cut(field, b'>')?;
    if !is_message(message) {
        return None;
    }
    let port = plain_number(port)?;
    Some(Sent { port, message })
}
