//! A step as a line of text.
ghost use Rattle.std.specs.Prelude.{◌≡◌, ◌++◌, decimal, IfOk};
ghost use Rattle.std.specs.List.{flat_map};
ghost use Rattle.peer_words.specs.Text.{message_text, number_or_dash};
ghost use Rattle.peer_steps.specs.StepLine.{behind_semicolon, field, joined, place_fields};
ghost use Rattle.ghs_steps.specs.StepLine.{change_name, change_text, change_value, fate_word, line_of, send_text, work_fields};
ghost use Rattle.ghs_steps.specs.Words.{says};

use crate::change::Change;
use crate::moment::Moment;
use crate::sent::Sent;
use crate::words::{mark_word, phase_word, row_word, says};
use ghs_core::event::{Event, node_of};
use ghs_lines::numbers::put_number;
use ghs_node::delta::Fate;
use ghs_node::message::Message;
use ghs_node::row_name::RowName;
use ghs_node::work::Work;
use peer_steps::moment::port_of;
use peer_words::text::{put_best, put_key_or_dash, put_message, put_number_or_dash};
use std::alloc::AllocError;

/// Appends the line of a step: ten fields, one blank between them, and a line feed.
pub fn step_line(
    text: &mut Vec<u8>,
    moment: &Moment,
    changes: &[Change],
    sends: &[Sent],
) -> Result<(), AllocError>
    ensures { IfOk result (λ _. text.new.items ≡ text.old.items ++ line_of moment.now changes.now sends.now) }
{
    put_number_field(text, moment.number)?;
    put_place(text, moment.event, moment.far)?;
    put_work(text, &moment.work, moment.row, moment.fate)?;
    put_changes(text, changes)?;
    put_sends(text, sends)?;
    put_number(text, moment.total)?;
    text.extend_from_slice(b"\n")
}

/// A number and a blank.
#[tactic(auto, unfolding(peer_steps::specs::StepLine::field))]
fn put_number_field(text: &mut Vec<u8>, number: u64) -> Result<(), AllocError>
    ensures { IfOk result (λ _. text.new.items ≡ text.old.items ++ field (decimal number)) }
{
    put_number(text, u128::from(number))?;
    text.extend_from_slice(b" ")
}

/// A word and a blank.
#[tactic(auto, unfolding(peer_steps::specs::StepLine::field))]
fn put_word_field(text: &mut Vec<u8>, word: &[u8]) -> Result<(), AllocError>
    ensures { IfOk result (λ _. text.new.items ≡ text.old.items ++ field word.now) }
{
    text.extend_from_slice(word)?;
    text.extend_from_slice(b" ")
}

/// The fields of an event's node, port and far end.
#[tactic(auto, unfolding(peer_steps::specs::StepLine::place_fields))]
fn put_place(text: &mut Vec<u8>, event: Event, far: Option<u32>) -> Result<(), AllocError>
    ensures { IfOk result (λ _. text.new.items ≡ text.old.items ++ place_fields event far) }
{
    put_number_field(text, u64::from(node_of(event)))?;
    put_optional_field(text, port_of(event))?;
    put_optional_field(text, far)
}

/// A number or a dash, and a blank.
#[tactic(auto, unfolding(peer_steps::specs::StepLine::field))]
fn put_optional_field(text: &mut Vec<u8>, number: Option<u32>) -> Result<(), AllocError>
    ensures { IfOk result (λ _. text.new.items ≡ text.old.items ++ field (number_or_dash number)) }
{
    put_number_or_dash(text, number)?;
    text.extend_from_slice(b" ")
}

/// The fields of the work, the row and the message's fate.
#[tactic(auto, unfolding(crate::specs::StepLine::work_fields))]
fn put_work(text: &mut Vec<u8>, work: &Work, row: RowName, fate: Fate) -> Result<(), AllocError>
    ensures { IfOk result (λ _. text.new.items ≡ text.old.items ++ work_fields work.now row fate) }
{
    match work {
        Work::Wake => {
            put_word_field(text, b"wake")?;
            put_word_field(text, row_word(row))?;
            put_word_field(text, b"-")
        }
        Work::Deliver { port: _, message } => {
            put_message_field(text, message)?;
            put_word_field(text, row_word(row))?;
            put_word_field(text, fate_word(fate))
        }
    }
}

pub(crate) fn fate_word(fate: Fate) -> &'static [u8]
    ensures { result.now ≡ fate_word fate }
{
    match fate {
        Fate::Consumed => b"done",
        Fate::Requeued => b"waits",
    }
}

/// A message and a blank.
#[tactic(auto, unfolding(peer_steps::specs::StepLine::field))]
fn put_message_field(text: &mut Vec<u8>, message: &Message) -> Result<(), AllocError>
    ensures { IfOk result (λ _. text.new.items ≡ text.old.items ++ field (message_text (says message.now))) }
{
    let saying = says(*text.allocator(), message)?;
    put_message(text, &saying)?;
    text.extend_from_slice(b" ")
}

/// The field of what differs at the node.
#[tactic(auto, unfolding(peer_steps::specs::StepLine::field, peer_steps::specs::StepLine::joined))]
fn put_changes(text: &mut Vec<u8>, changes: &[Change]) -> Result<(), AllocError>
    ensures { IfOk result (λ _. text.new.items ≡ text.old.items ++ field (joined change_text changes.now)) }
{
    match changes.split_first() {
        Some((first, others)) => {
            put_change(text, first)?;
            put_other_changes(text, others)?;
        }
        None => text.extend_from_slice(b"-")?,
    }
    text.extend_from_slice(b" ")
}

/// Each behind a semicolon.
#[tactic(auto, unfolding(peer_steps::specs::StepLine::behind_semicolon))]
fn put_other_changes(text: &mut Vec<u8>, changes: &[Change]) -> Result<(), AllocError>
    ensures { IfOk result (λ _. text.new.items ≡ text.old.items ++ flat_map (behind_semicolon change_text) changes.now) }
{
    for change in changes {
        text.extend_from_slice(b";")?;
        put_change(text, change)?;
    }
    Ok(())
}

/// The field of what the event's node sends.
#[tactic(auto, unfolding(peer_steps::specs::StepLine::field, peer_steps::specs::StepLine::joined))]
fn put_sends(text: &mut Vec<u8>, sends: &[Sent]) -> Result<(), AllocError>
    ensures { IfOk result (λ _. text.new.items ≡ text.old.items ++ field (joined send_text sends.now)) }
{
    match sends.split_first() {
        Some((first, others)) => {
            put_send(text, first)?;
            put_other_sends(text, others)?;
        }
        None => text.extend_from_slice(b"-")?,
    }
    text.extend_from_slice(b" ")
}

/// Each behind a semicolon.
#[tactic(auto, unfolding(peer_steps::specs::StepLine::behind_semicolon))]
fn put_other_sends(text: &mut Vec<u8>, sends: &[Sent]) -> Result<(), AllocError>
    ensures { IfOk result (λ _. text.new.items ≡ text.old.items ++ flat_map (behind_semicolon send_text) sends.now) }
{
    for send in sends {
        text.extend_from_slice(b";")?;
        put_send(text, send)?;
    }
    Ok(())
}

/// One message that goes out.
#[tactic(auto, unfolding(crate::specs::StepLine::send_text))]
fn put_send(text: &mut Vec<u8>, send: &Sent) -> Result<(), AllocError>
    ensures { IfOk result (λ _. text.new.items ≡ text.old.items ++ send_text send.now) }
{
    put_number(text, u128::from(send.port))?;
    text.extend_from_slice(b">")?;
    put_number(text, u128::from(send.to))?;
    text.extend_from_slice(b":")?;
    let saying = says(*text.allocator(), &send.message)?;
    put_message(text, &saying)
}

/// One variable or mark, with its new value.
#[tactic(auto, unfolding(crate::specs::StepLine::change_text))]
fn put_change(text: &mut Vec<u8>, change: &Change) -> Result<(), AllocError>
    ensures { IfOk result (λ _. text.new.items ≡ text.old.items ++ change_text change.now) }
{
    put_change_name(text, change)?;
    text.extend_from_slice(b"=")?;
    put_change_value(text, change)
}

fn put_change_name(text: &mut Vec<u8>, change: &Change) -> Result<(), AllocError>
    ensures { IfOk result (λ _. text.new.items ≡ text.old.items ++ change_name change.now) }
{
    match change {
        Change::Mark(port, _) => {
            text.extend_from_slice(b"mark.")?;
            put_number(text, u128::from(*port))
        }
        Change::Level(_) => text.extend_from_slice(b"level"),
        Change::Name(_) => text.extend_from_slice(b"name"),
        Change::Phase(_) => text.extend_from_slice(b"phase"),
        Change::FindCount(_) => text.extend_from_slice(b"find_count"),
        Change::InBranch(_) => text.extend_from_slice(b"in_branch"),
        Change::Best(_) => text.extend_from_slice(b"best"),
        Change::Probe(_) => text.extend_from_slice(b"probe"),
        Change::Halted => text.extend_from_slice(b"halted"),
    }
}

fn put_change_value(text: &mut Vec<u8>, change: &Change) -> Result<(), AllocError>
    ensures { IfOk result (λ _. text.new.items ≡ text.old.items ++ change_value change.now) }
{
    match change {
        Change::Mark(_, mark) => text.extend_from_slice(mark_word(*mark)),
        Change::Level(level) => put_number(text, u128::from(level.get())),
        Change::Name(name) => put_key_or_dash(text, *name),
        Change::Phase(phase) => text.extend_from_slice(phase_word(*phase)),
        Change::FindCount(count) => put_number(text, u128::from(*count)),
        Change::InBranch(port) => put_number_or_dash(text, *port),
        Change::Best(best) => put_best(text, *best),
        Change::Probe(port) => put_number_or_dash(text, *port),
        Change::Halted => text.extend_from_slice(b"yes"),
    }
}
