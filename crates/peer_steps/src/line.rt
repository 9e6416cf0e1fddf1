//! A step as a line of text.
ghost use Rattle.std.specs.Prelude.{◌≡◌, ◌++◌, decimal, IfOk};
ghost use Rattle.std.specs.List.{flat_map};
ghost use Rattle.peer_words.specs.Text.{message_text, number_or_dash};
ghost use Rattle.peer_steps.specs.StepLine.{behind_semicolon, change_name, change_text, change_value, fate_word, field, joined, line_of, place_fields, send_text, work_fields};

use crate::change::Change;
use crate::moment::{Moment, port_of};
use crate::sent::Sent;
use ghs_lines::numbers::put_number;
use peer_network::event::{Event, node_of};
use peer_words::text::{put_message, put_number_or_dash, put_value};
use peer_words::value::{Saying, Word};
use std::alloc::AllocError;

/// Appends the line of a step: ten fields, one blank between them, and a line feed. The total is that of all messages sent by
/// then.
///
/// ```text
/// step_line(&mut text, &moment, &changes, &sends, 1)?;
/// // 1 2 - - wake Wakes - phase=rest;out=0 0>1:connect(0) 1
/// ```
pub fn step_line(
    text: &mut Vec<u8>,
    moment: &Moment,
    changes: &[Change],
    sends: &[Sent],
    total: u128,
) -> Result<(), AllocError>
    ensures { IfOk result (λ _. text.new.items ≡ text.old.items ++ line_of moment.now changes.now sends.now total) }
{
    put_number_field(text, moment.number)?;
    put_place(text, moment.event, moment.far)?;
    put_work(text, &moment.message, &moment.row, moment.waits)?;
    put_changes(text, changes)?;
    put_sends(text, sends)?;
    put_number(text, total)?;
    text.extend_from_slice(b"\n")
}

/// A number and a blank.
#[tactic(auto, unfolding(crate::specs::StepLine::field))]
fn put_number_field(text: &mut Vec<u8>, number: u64) -> Result<(), AllocError>
    ensures { IfOk result (λ _. text.new.items ≡ text.old.items ++ field (decimal number)) }
{
    put_number(text, u128::from(number))?;
    text.extend_from_slice(b" ")
}

/// A word and a blank.
#[tactic(auto, unfolding(crate::specs::StepLine::field))]
fn put_word_field(text: &mut Vec<u8>, word: &[u8]) -> Result<(), AllocError>
    ensures { IfOk result (λ _. text.new.items ≡ text.old.items ++ field word.now) }
{
    text.extend_from_slice(word)?;
    text.extend_from_slice(b" ")
}

/// The fields of an event's node, port and far end.
#[tactic(auto, unfolding(crate::specs::StepLine::place_fields))]
fn put_place(text: &mut Vec<u8>, event: Event, far: Option<u32>) -> Result<(), AllocError>
    ensures { IfOk result (λ _. text.new.items ≡ text.old.items ++ place_fields event far) }
{
    put_number_field(text, u64::from(node_of(event)))?;
    put_optional_field(text, port_of(event))?;
    put_optional_field(text, far)
}

/// A number or a dash, and a blank.
#[tactic(auto, unfolding(crate::specs::StepLine::field))]
fn put_optional_field(text: &mut Vec<u8>, number: Option<u32>) -> Result<(), AllocError>
    ensures { IfOk result (λ _. text.new.items ≡ text.old.items ++ field (number_or_dash number)) }
{
    put_number_or_dash(text, number)?;
    text.extend_from_slice(b" ")
}

/// The fields of the work, the row and the message's fate.
#[tactic(auto, unfolding(crate::specs::StepLine::work_fields))]
fn put_work(
    text: &mut Vec<u8>,
    message: &Option<Saying>,
    row: &Word,
    waits: bool,
) -> Result<(), AllocError>
    ensures { IfOk result (λ _. text.new.items ≡ text.old.items ++ work_fields message.now row.now waits) }
{
    match message {
        None => {
            put_word_field(text, b"wake")?;
            put_word_field(text, row.letters())?;
            put_word_field(text, b"-")
        }
        Some(message) => {
            put_message_field(text, message)?;
            put_word_field(text, row.letters())?;
            put_word_field(text, fate_word(waits))
        }
    }
}

/// A message and a blank.
#[tactic(auto, unfolding(crate::specs::StepLine::field))]
fn put_message_field(text: &mut Vec<u8>, message: &Saying) -> Result<(), AllocError>
    ensures { IfOk result (λ _. text.new.items ≡ text.old.items ++ field (message_text message.now)) }
{
    put_message(text, message)?;
    text.extend_from_slice(b" ")
}

/// The field of what differs at the node.
#[tactic(auto, unfolding(crate::specs::StepLine::field, crate::specs::StepLine::joined))]
fn put_changes(text: &mut Vec<u8>, changes: &[Change]) -> Result<(), AllocError>
    ensures { IfOk result (λ _. text.new.items ≡ text.old.items ++ field (joined change_text changes.now)) }
{
    match changes.split_first() {
        Some((first, others)) => {
            put_change(text, first)?;
            put_other_changes(text, others)?;
        }
        None => text.extend_from_slice(b"-")?,
    }
    text.extend_from_slice(b" ")
}

/// Each behind a semicolon.
#[tactic(auto, unfolding(crate::specs::StepLine::behind_semicolon))]
fn put_other_changes(text: &mut Vec<u8>, changes: &[Change]) -> Result<(), AllocError>
    ensures { IfOk result (λ _. text.new.items ≡ text.old.items ++ flat_map (behind_semicolon change_text) changes.now) }
{
    for change in changes {
        text.extend_from_slice(b";")?;
        put_change(text, change)?;
    }
    Ok(())
}

/// The field of what the event's node sends.
#[tactic(auto, unfolding(crate::specs::StepLine::field, crate::specs::StepLine::joined))]
fn put_sends(text: &mut Vec<u8>, sends: &[Sent]) -> Result<(), AllocError>
    ensures { IfOk result (λ _. text.new.items ≡ text.old.items ++ field (joined send_text sends.now)) }
{
    match sends.split_first() {
        Some((first, others)) => {
            put_send(text, first)?;
            put_other_sends(text, others)?;
        }
        None => text.extend_from_slice(b"-")?,
    }
    text.extend_from_slice(b" ")
}

/// Each behind a semicolon.
#[tactic(auto, unfolding(crate::specs::StepLine::behind_semicolon))]
fn put_other_sends(text: &mut Vec<u8>, sends: &[Sent]) -> Result<(), AllocError>
    ensures { IfOk result (λ _. text.new.items ≡ text.old.items ++ flat_map (behind_semicolon send_text) sends.now) }
{
    for send in sends {
        text.extend_from_slice(b";")?;
        put_send(text, send)?;
    }
    Ok(())
}

/// One message that goes out.
#[tactic(auto, unfolding(crate::specs::StepLine::send_text))]
fn put_send(text: &mut Vec<u8>, send: &Sent) -> Result<(), AllocError>
    ensures { IfOk result (λ _. text.new.items ≡ text.old.items ++ send_text send.now) }
{
    put_number(text, u128::from(send.port))?;
    text.extend_from_slice(b">")?;
    put_number(text, u128::from(send.to))?;
    text.extend_from_slice(b":")?;
    put_message(text, &send.message)
}

/// One variable or mark, with its new value.
#[tactic(auto, unfolding(crate::specs::StepLine::change_text))]
fn put_change(text: &mut Vec<u8>, change: &Change) -> Result<(), AllocError>
    ensures { IfOk result (λ _. text.new.items ≡ text.old.items ++ change_text change.now) }
{
    put_change_name(text, change)?;
    text.extend_from_slice(b"=")?;
    put_change_value(text, change)
}

fn put_change_name(text: &mut Vec<u8>, change: &Change) -> Result<(), AllocError>
    ensures { IfOk result (λ _. text.new.items ≡ text.old.items ++ change_name change.now) }
{
    match change {
        Change::Mark(port, _) => {
            text.extend_from_slice(b"mark.")?;
            put_number(text, u128::from(*port))
        }
        Change::Variable(said) => text.extend_from_slice(said.name.letters()),
        Change::Gone(name) => text.extend_from_slice(name.letters()),
    }
}

fn put_change_value(text: &mut Vec<u8>, change: &Change) -> Result<(), AllocError>
    ensures { IfOk result (λ _. text.new.items ≡ text.old.items ++ change_value change.now) }
{
    match change {
        Change::Mark(_, mark) => text.extend_from_slice(mark.letters()),
        Change::Variable(said) => put_value(text, &said.value),
        Change::Gone(_) => text.extend_from_slice(b"-"),
    }
}

pub(crate) fn fate_word(waits: bool) -> &'static [u8]
    ensures { result.now ≡ fate_word waits }
{
    if waits { b"waits" } else { b"done" }
}
