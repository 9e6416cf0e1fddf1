//! What a node sends.
ghost use Rattle.own_book.specs.Answer.{are_kinds, are_sends, sends_in};
ghost use Rattle.own_book.specs.Sends.{SameAtPorts, Sending, kind_in, names_kind, sends_fault};
ghost use Rattle.own_book.specs.Parts.{cut_at};
ghost use Rattle.std.specs.List.Sorted.{IsNonDecreasingBy};
ghost use Rattle.std.specs.Prelude.{IfOk, IsTrue, OnOk, true, ◌↔◌, ◌≡◌};

use crate::answer::next_sent;
use crate::answer_fault::AnswerFault;
use crate::kind::next_kind;
use crate::parts::cut;
use std::alloc::{AllocError, Global};
use std::marker::Model;

/// A message as its text, and the port at which it goes out.
#[derive(Drop)]
pub struct Posted {
    port: u32,
    message: Vec<u8>,
}

impl Model for Posted {
    ghost use Rattle.std.specs.Prelude.{ℕ, List};

    ghost Value = { ℕ × List ℕ };

    ghost view = { λ p. (p.port, p.message.items) };
}

impl Posted {
    /// This message at this port.
    pub fn new(port: u32, message: Vec<u8>) -> Posted
        ensures { result ≡ (port, message.items) }
    {
        Posted { port, message }
    }

    /// Its port.
    pub fn port(&self) -> u32
        ensures { result ≡ self.now.0 }
    {
        self.port
    }

    /// Its text.
    pub fn message(&self) -> &[u8]
        ensures { result.now ≡ self.now.1 }
    {
        self.message.as_slice()
    }

    /// Whether both are the same message at the same port.
    fn same(&self, other: &Posted) -> bool
        ensures { IsTrue result ↔ (self.now ≡ other.now) }
    {
        self.port == other.port && self.message.as_slice() == other.message.as_slice()
    }
}

/// Whether at each port the same messages go out, in the same order; in which order the ports have their turns is free.
/// O(n log n) comparisons of messages. Refusal: out of memory.
///
/// ```text
/// let own = posts_of(alloc, b"1>accept 0>test(1,1:1-2)")?;
/// let other = posts_of(alloc, b"0>test(1,1:1-2) 1>accept")?;
/// let same = same_at_ports(own, other)?;               // true
/// ```
pub fn same_at_ports(mut own: Vec<Posted>, mut other: Vec<Posted>) -> Result<bool, AllocError>
    ensures { IfOk result (λ same. IsTrue same ↔ SameAtPorts own.items other.items) }
{
    sort_by_port(&mut own)?;
    sort_by_port(&mut other)?;
    Ok(same_posts(&own, &other))
}

/// What an answer sends, in order. Refusal: out of memory.
pub fn posts_of(alloc: Global, sends: &[u8]) -> Result<Vec<Posted>, AllocError>
    requires { are_sends sends.now ≡ true }
    ensures { IfOk result (λ list. list.items ≡ sends_in sends.now) }
{
    let mut list = Vec::new(alloc);
    let mut rest = sends;
    'sends: while let Some((sent, after)) = next_sent(rest) {
        let message = Vec::from_slice(alloc, sent.message)?;
        list.push(Posted::new(sent.port, message))?;
        rest = after;
    }
    Ok(list)
}

/// Messages of one port keep their order.
fn sort_by_port(list: &mut Vec<Posted>) -> Result<(), AllocError>
    ensures sorted { OnOk result (IsNonDecreasingBy (λ (s : Sending). s.0) list.new.items) }
    ensures same { OnOk result (SameAtPorts list.new.items list.old.items) }
{
    list.sort_by_key(|posted| posted.port())?;
    Ok(())
}

fn same_posts(left: &[Posted], right: &[Posted]) -> bool
    ensures { IsTrue result ↔ (left.now ≡ right.now) }
{
    if left.len() != right.len() {
        return false;
    }
    for place in 0..left.len() {
        if !left[place].same(&right[place]) {
            return false;
        }
    }
    true
}

/// The fault of the first send that has one: NoPort where the node has only so many ports, NoKind where its greeting lacks the
/// kind.
///
/// ```text
/// let fault = sends_fault(b"accept()", 1, b"0>accept 0>reject");    // Some(AnswerFault::NoKind)
/// ```
pub fn sends_fault(kinds: &[u8], ports: u32, sends: &[u8]) -> Option<AnswerFault>
    requires kinds { are_kinds kinds.now ≡ true }
    requires sends { are_sends sends.now ≡ true }
    ensures { result ≡ sends_fault kinds.now ports (sends_in sends.now) }
{
    let mut rest = sends;
    'sends: while let Some((sent, after)) = next_sent(rest) {
        if sent.port >= ports {
            return Some(AnswerFault::NoPort);
        }
        if !names_kind(kinds, sent.message) {
            return Some(AnswerFault::NoKind);
        }
        rest = after;
    }
    None
}

/// Whether the kind of a message is one of these.
fn names_kind(kinds: &[u8], message: &[u8]) -> bool
    requires { are_kinds kinds.now ≡ true }
    ensures { result ≡ names_kind kinds.now message.now }
{
    let wanted = kind_in(message);
    let mut rest = kinds;
    'kinds: while let Some((kind, after)) = next_kind(rest) {
        if kind.name == wanted {
            return true;
        }
        rest = after;
    }
    false
}

/// What stands before the first `(` of a message; all of it where there is none.
fn kind_in(message: &[u8]) -> &[u8]
    ensures { result.now ≡ kind_in message.now (cut_at 40 message.now) }
{
    match cut(message, b'(') {
        Some((kind, _)) => kind,
        None => message,
    }
}
