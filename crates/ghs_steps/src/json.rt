//! A step as a line of JSON.
ghost use Rattle.std.specs.Prelude.{◌≡◌, ◌++◌, [], codes, decimal, IfOk};
ghost use Rattle.std.specs.List.{flat_map};
ghost use Rattle.peer_steps.specs.Json.{behind_comma, listed};
ghost use Rattle.ghs_steps.specs.Json.{change_json, change_member, change_members, change_name, json_of, row_members, send_json, sends_member, set_member, work_members};

use crate::change::Change;
use crate::line::fate_word;
use crate::moment::Moment;
use crate::sent::Sent;
use crate::words::{mark_word, phase_word, row_word, says};
use ghs_lines::numbers::put_number;
use ghs_node::delta::Fate;
use ghs_node::row_name::RowName;
use ghs_node::work::Work;
use peer_steps::json::{put_place, put_way};
use peer_words::json::{
    put_best, put_key_or_null, put_literal_member, put_message_members, put_name,
    put_number_member, put_number_or_null, put_pair, put_quoted, put_word_member,
};
use std::alloc::AllocError;

/// Appends the line of a step: one JSON object without blanks, and a line feed.
pub fn step_json(
    text: &mut Vec<u8>,
    moment: &Moment,
    changes: &[Change],
    sends: &[Sent],
) -> Result<(), AllocError>
    ensures { IfOk result (λ _. text.new.items ≡ text.old.items ++ json_of moment.now changes.now sends.now) }
{
    put_place(text, moment.number, moment.event, moment.far)?;
    put_work(text, &moment.work)?;
    put_row(text, &moment.work, moment.row, moment.fate)?;
    put_changes(text, changes)?;
    put_sends_member(text, sends)?;
    put_number_member(text, b",", b"total", moment.total)?;
    text.extend_from_slice(b"}\n")
}

fn put_work(text: &mut Vec<u8>, work: &Work) -> Result<(), AllocError>
    ensures { IfOk result (λ _. text.new.items ≡ text.old.items ++ work_members work.now) }
{
    match work {
        Work::Wake => put_word_member(text, b",", b"kind", b"wake"),
        Work::Deliver { port: _, message } => {
            let saying = says(*text.allocator(), message)?;
            put_message_members(text, b",", &saying)
        }
    }
}

/// The row, and what becomes of the message.
#[tactic(auto, unfolding(crate::specs::Json::row_members))]
fn put_row(text: &mut Vec<u8>, work: &Work, row: RowName, fate: Fate) -> Result<(), AllocError>
    ensures { IfOk result (λ _. text.new.items ≡ text.old.items ++ row_members work.now row fate) }
{
    match work {
        Work::Wake => {
            put_word_member(text, b",", b"row", row_word(row))?;
            put_literal_member(text, b",", b"fate", b"null")
        }
        Work::Deliver { .. } => {
            put_word_member(text, b",", b"row", row_word(row))?;
            put_word_member(text, b",", b"fate", fate_word(fate))
        }
    }
}

/// The mark and the variables that differ.
#[tactic(auto, unfolding(crate::specs::Json::change_members))]
fn put_changes(text: &mut Vec<u8>, changes: &[Change]) -> Result<(), AllocError>
    ensures { IfOk result (λ _. text.new.items ≡ text.old.items ++ change_members changes.now) }
{
    match changes.split_first() {
        Some((Change::Mark(port, mark), others)) => {
            put_change(text, b",", &Change::Mark(*port, *mark))?;
            put_set(text, others)
        }
        _ => {
            put_literal_member(text, b",", b"mark", b"null")?;
            put_set(text, changes)
        }
    }
}

fn put_set(text: &mut Vec<u8>, changes: &[Change]) -> Result<(), AllocError>
    ensures { IfOk result (λ _. text.new.items ≡ text.old.items ++ set_member changes.now) }
{
    text.extend_from_slice(b",\"set\":{")?;
    put_each_change(text, changes)?;
    text.extend_from_slice(b"}")
}

/// The changes, with a comma between each and the next.
#[tactic(auto, unfolding(peer_steps::specs::Json::listed))]
pub(crate) fn put_each_change(text: &mut Vec<u8>, changes: &[Change]) -> Result<(), AllocError>
    ensures { IfOk result (λ _. text.new.items ≡ text.old.items ++ listed (change_member []) changes.now) }
{
    match changes.split_first() {
        Some((first, others)) => {
            put_change(text, b"", first)?;
            put_other_changes(text, others)
        }
        None => Ok(()),
    }
}

/// Each behind a comma.
#[tactic(auto, unfolding(peer_steps::specs::Json::behind_comma))]
fn put_other_changes(text: &mut Vec<u8>, changes: &[Change]) -> Result<(), AllocError>
    ensures { IfOk result (λ _. text.new.items ≡ text.old.items ++ flat_map (behind_comma (change_member [])) changes.now) }
{
    for change in changes {
        text.extend_from_slice(b",")?;
        put_change(text, b"", change)?;
    }
    Ok(())
}

/// One mark or variable, with its new value.
#[tactic(auto, unfolding(crate::specs::Json::change_member, peer_words::specs::Json::member))]
fn put_change(text: &mut Vec<u8>, lead: &[u8], change: &Change) -> Result<(), AllocError>
    ensures { IfOk result (λ _. text.new.items ≡ text.old.items ++ change_member lead.now change.now) }
{
    put_name(text, lead, change_name(change))?;
    put_change_value(text, change)
}

fn change_name(change: &Change) -> &'static [u8]
    ensures { result.now ≡ change_name change.now }
{
    match change {
        Change::Mark(..) => b"mark",
        Change::Level(_) => b"level",
        Change::Name(_) => b"name",
        Change::Phase(_) => b"phase",
        Change::FindCount(_) => b"find_count",
        Change::InBranch(_) => b"in_branch",
        Change::Best(_) => b"best",
        Change::Probe(_) => b"probe",
        Change::Halted => b"halted",
    }
}

fn put_change_value(text: &mut Vec<u8>, change: &Change) -> Result<(), AllocError>
    ensures { IfOk result (λ _. text.new.items ≡ text.old.items ++ change_json change.now) }
{
    match change {
        Change::Mark(port, mark) => put_pair(text, *port, mark_word(*mark)),
        Change::Level(level) => put_number(text, u128::from(level.get())),
        Change::Name(name) => put_key_or_null(text, *name),
        Change::Phase(phase) => put_quoted(text, phase_word(*phase)),
        Change::FindCount(count) => put_number(text, u128::from(*count)),
        Change::InBranch(port) => put_number_or_null(text, *port),
        Change::Best(best) => put_best(text, *best),
        Change::Probe(port) => put_number_or_null(text, *port),
        Change::Halted => text.extend_from_slice(b"true"),
    }
}

#[tactic(auto, unfolding(crate::specs::Json::sends_member))]
fn put_sends_member(text: &mut Vec<u8>, sends: &[Sent]) -> Result<(), AllocError>
    ensures { IfOk result (λ _. text.new.items ≡ text.old.items ++ sends_member sends.now) }
{
    text.extend_from_slice(b",\"send\":[")?;
    put_sends(text, sends)?;
    text.extend_from_slice(b"]")
}

/// The messages that go out, with a comma between each and the next.
#[tactic(auto, unfolding(peer_steps::specs::Json::listed))]
fn put_sends(text: &mut Vec<u8>, sends: &[Sent]) -> Result<(), AllocError>
    ensures { IfOk result (λ _. text.new.items ≡ text.old.items ++ listed send_json sends.now) }
{
    match sends.split_first() {
        Some((first, others)) => {
            put_send(text, first)?;
            put_other_sends(text, others)
        }
        None => Ok(()),
    }
}

/// Each behind a comma.
#[tactic(auto, unfolding(peer_steps::specs::Json::behind_comma))]
fn put_other_sends(text: &mut Vec<u8>, sends: &[Sent]) -> Result<(), AllocError>
    ensures { IfOk result (λ _. text.new.items ≡ text.old.items ++ flat_map (behind_comma send_json) sends.now) }
{
    for send in sends {
        text.extend_from_slice(b",")?;
        put_send(text, send)?;
    }
    Ok(())
}

/// One message that goes out.
#[tactic(auto, unfolding(crate::specs::Json::send_json))]
fn put_send(text: &mut Vec<u8>, send: &Sent) -> Result<(), AllocError>
    ensures { IfOk result (λ _. text.new.items ≡ text.old.items ++ send_json send.now) }
{
    put_way(text, send.port, send.to, send.at)?;
    let saying = says(*text.allocator(), &send.message)?;
    put_message_members(text, b",", &saying)?;
    text.extend_from_slice(b"}")
}
