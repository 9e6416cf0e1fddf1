//! A step as a line of JSON.
ghost use Rattle.std.specs.Prelude.{◌≡◌, ◌++◌, ◌||◌, [], codes, filter, if◌then◌else◌, IfOk};
ghost use Rattle.peer_words.specs.Json.{escaped, next, pair};
ghost use Rattle.peer_steps.specs.Json.{change_json, change_members, comma, fate_json, is_mark, is_of, json_of, listed, place_members, row_members, send_json, sends_member, way_members, work_members};

use crate::change::Change;
use crate::line::fate_word;
use crate::moment::{Moment, port_of};
use crate::sent::Sent;
use ghs_lines::numbers::put_number;
use peer_network::event::{Event, node_of};
use peer_words::json::{
    put_literal_member, put_member, put_message_members, put_number_member, put_optional_member,
    put_word, put_word_member,
};
use peer_words::value::{Saying, Word};
use std::alloc::AllocError;

/// Appends the line of a step: one JSON object without blanks, and a line feed. The total is that of all messages sent by
/// then.
pub fn step_json(
    text: &mut Vec<u8>,
    moment: &Moment,
    changes: &[Change],
    sends: &[Sent],
    total: u128,
) -> Result<(), AllocError>
    ensures { IfOk result (λ _. text.new.items ≡ text.old.items ++ json_of moment.now changes.now sends.now total) }
{
    put_place(text, moment.number, moment.event, moment.far)?;
    put_work(text, &moment.message)?;
    put_row(text, &moment.message, &moment.row, moment.waits)?;
    put_changes(text, changes)?;
    put_sends(text, sends)?;
    put_number_member(text, b",", b"total", total)?;
    text.extend_from_slice(b"}\n")
}

/// What the event brings to its node.
fn put_work(text: &mut Vec<u8>, message: &Option<Saying>) -> Result<(), AllocError>
    ensures { IfOk result (λ _. text.new.items ≡ text.old.items ++ work_members message.now) }
{
    match message {
        None => put_word_member(text, b",", b"kind", b"wake"),
        Some(message) => put_message_members(text, b",", message),
    }
}

/// The row, and what becomes of the message.
#[tactic(auto, unfolding(crate::specs::Json::row_members))]
fn put_row(
    text: &mut Vec<u8>,
    message: &Option<Saying>,
    row: &Word,
    waits: bool,
) -> Result<(), AllocError>
    ensures { IfOk result (λ _. text.new.items ≡ text.old.items ++ row_members message.now row.now waits) }
{
    put_word_member(text, b",", b"row", row.letters())?;
    put_fate(text, message, waits)
}

fn put_fate(text: &mut Vec<u8>, message: &Option<Saying>, waits: bool) -> Result<(), AllocError>
    ensures { IfOk result (λ _. text.new.items ≡ text.old.items ++ next (codes "fate") (fate_json message.now waits)) }
{
    match message {
        None => put_literal_member(text, b",", b"fate", b"null"),
        Some(_) => put_word_member(text, b",", b"fate", fate_word(waits)),
    }
}

/// What differs at the node: the marks, and the variables.
#[tactic(auto, unfolding(crate::specs::Json::change_members))]
fn put_changes(text: &mut Vec<u8>, changes: &[Change]) -> Result<(), AllocError>
    ensures { IfOk result (λ _. text.new.items ≡ text.old.items ++ change_members changes.now) }
{
    text.extend_from_slice(b",\"marks\":[")?;
    put_those(text, changes, true)?;
    text.extend_from_slice(b"],\"set\":{")?;
    put_those(text, changes, false)?;
    text.extend_from_slice(b"}")
}

/// Of the changes those of marks, or those of variables, with a comma between each and the next.
fn put_those(text: &mut Vec<u8>, changes: &[Change], marks: bool) -> Result<(), AllocError>
    ensures { IfOk result (λ _. text.new.items ≡ text.old.items ++ listed change_json (filter (is_of marks) changes.now)) }
{
    let mut begun = false;
    for change in changes {
        begun = put_if(text, begun, change, marks)?;
    }
    Ok(())
}

/// One change, if it is of those that are asked for. Answers whether any has been put by now.
fn put_if(text: &mut Vec<u8>, begun: bool, change: &Change, marks: bool) -> Result<bool, AllocError>
    ensures text { IfOk result (λ _. text.new.items ≡ text.old.items ++ (if is_of marks change.now then comma begun ++ change_json change.now else [])) }
    ensures begun { IfOk result (λ now. now ≡ (is_of marks change.now || begun)) }
{
    if is_of(change, marks) {
        put_comma(text, begun)?;
        put_change(text, change)?;
        Ok(true)
    } else {
        Ok(begun)
    }
}

fn is_of(change: &Change, marks: bool) -> bool
    ensures { result ≡ is_of marks change.now }
{
    if marks {
        is_mark(change)
    } else {
        !is_mark(change)
    }
}

fn is_mark(change: &Change) -> bool
    ensures { result ≡ is_mark change.now }
{
    matches!(change, Change::Mark(..))
}

/// What stands between a part and those before it, if there are any.
fn put_comma(text: &mut Vec<u8>, begun: bool) -> Result<(), AllocError>
    ensures { IfOk result (λ _. text.new.items ≡ text.old.items ++ comma begun) }
{
    if begun {
        text.extend_from_slice(b",")
    } else {
        Ok(())
    }
}

/// One mark or variable, with its new value.
#[tactic(auto, unfolding(crate::specs::Json::change_json))]
fn put_change(text: &mut Vec<u8>, change: &Change) -> Result<(), AllocError>
    ensures { IfOk result (λ _. text.new.items ≡ text.old.items ++ change_json change.now) }
{
    match change {
        Change::Mark(port, mark) => put_mark(text, *port, mark.letters()),
        Change::Variable(said) => put_member(text, b"", said),
        Change::Gone(name) => put_literal_member(text, b"", name.letters(), b"null"),
    }
}

/// A port, and its mark as a string.
#[tactic(auto, unfolding(peer_words::specs::Json::pair))]
fn put_mark(text: &mut Vec<u8>, port: u32, mark: &[u8]) -> Result<(), AllocError>
    ensures { IfOk result (λ _. text.new.items ≡ text.old.items ++ pair port (escaped mark.now)) }
{
    text.extend_from_slice(b"[")?;
    put_number(text, u128::from(port))?;
    text.extend_from_slice(b",")?;
    put_word(text, mark)?;
    text.extend_from_slice(b"]")
}

/// The messages that go out, with a comma between each and the next.
#[tactic(auto, unfolding(crate::specs::Json::sends_member))]
fn put_sends(text: &mut Vec<u8>, sends: &[Sent]) -> Result<(), AllocError>
    ensures { IfOk result (λ _. text.new.items ≡ text.old.items ++ sends_member sends.now) }
{
    text.extend_from_slice(b",\"send\":[")?;
    put_each_send(text, sends)?;
    text.extend_from_slice(b"]")
}

fn put_each_send(text: &mut Vec<u8>, sends: &[Sent]) -> Result<(), AllocError>
    ensures { IfOk result (λ _. text.new.items ≡ text.old.items ++ listed send_json sends.now) }
{
    let mut begun = false;
    for send in sends {
        put_comma(text, begun)?;
        put_send(text, send)?;
        begun = true;
    }
    Ok(())
}

/// One message that goes out.
#[tactic(auto, unfolding(crate::specs::Json::send_json))]
fn put_send(text: &mut Vec<u8>, send: &Sent) -> Result<(), AllocError>
    ensures { IfOk result (λ _. text.new.items ≡ text.old.items ++ send_json send.now) }
{
    put_way(text, send.port, send.to, send.at)?;
    put_message_members(text, b",", &send.message)?;
    text.extend_from_slice(b"}")
}

/// Appends what a line of JSON begins with: the event's number, its node, the port of the message taken and its far end.
#[tactic(auto, unfolding(crate::specs::Json::place_members))]
pub fn put_place(
    text: &mut Vec<u8>,
    number: u64,
    event: Event,
    far: Option<u32>,
) -> Result<(), AllocError>
    ensures { IfOk result (λ _. text.new.items ≡ text.old.items ++ place_members number event far) }
{
    put_number_member(text, b"{", b"step", u128::from(number))?;
    put_number_member(text, b",", b"node", u128::from(node_of(event)))?;
    put_optional_member(text, b",", b"port", port_of(event))?;
    put_optional_member(text, b",", b"far", far)
}

/// Appends what a message that goes out begins with: the port on which it does, and the node and its port where it will wait.
#[tactic(auto, unfolding(crate::specs::Json::way_members))]
pub fn put_way(text: &mut Vec<u8>, port: u32, to: u32, at: u32) -> Result<(), AllocError>
    ensures { IfOk result (λ _. text.new.items ≡ text.old.items ++ way_members port to at) }
{
    put_number_member(text, b"{", b"port", u128::from(port))?;
    put_number_member(text, b",", b"to", u128::from(to))?;
    put_number_member(text, b",", b"at", u128::from(at))
}
