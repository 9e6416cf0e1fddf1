//! A run's figures as a line of JSON.
ghost use Rattle.peer_sweep.specs.JsonLine.{column_member, head_members, json_text, measure_member, number_member, numbered, worded};
ghost use Rattle.std.specs.List.{flat_map};
ghost use Rattle.ghs_report.specs.Fields.{wake_word};
ghost use Rattle.std.specs.Prelude.{◌≡◌, ◌++◌, IfOk, codes};

use crate::column::Column;
use crate::figures::Figures;
use crate::line::schedule_word;
use crate::measure::Measure;
use crate::setup::Setup;
use crate::table::Table;
use ghs_report::fields::{end_word, put_wake};
use peer_network::wake_set::WakeSet;
use peer_words::json::{put_name, put_number_member, put_word_member};
use std::alloc::AllocError;

/// Puts the members of a seed's run, which are named as the columns, behind a text that has opened an object, and closes it.
#[tactic(auto, unfolding(crate::specs::JsonLine::json_text))]
pub(crate) fn put_json_line(
    text: &mut Vec<u8>,
    table: &Table,
    seed: u64,
    setup: Setup,
    figures: &Figures,
) -> Result<(), AllocError>
    ensures { IfOk result (λ _. text.new.items ≡ text.old.items ++ json_text table.now seed setup figures.now) }
{
    put_start(text, table.protocol(), seed, setup)?;
    put_numbered(text, b"nodes", u128::from(figures.nodes))?;
    put_numbered(text, b"links", u128::from(figures.links))?;
    put_columns(text, table.columns(), figures)?;
    text.extend_from_slice(b"}\n")?;
    Ok(())
}

/// Seed, protocol, schedule and wake set.
#[tactic(auto, unfolding(crate::specs::JsonLine::head_members))]
fn put_start(text: &mut Vec<u8>, protocol: &[u8], seed: u64, setup: Setup) -> Result<(), AllocError>
    ensures { IfOk result (λ _. text.new.items ≡ text.old.items ++ head_members protocol.now seed setup) }
{
    put_number_member(text, b"", b"seed", u128::from(seed))?;
    put_worded(text, b"protocol", protocol)?;
    put_worded(text, b"schedule", schedule_word(setup.schedule_kind))?;
    put_woken(text, setup.wake)
}

/// The wake set.
#[tactic(auto, unfolding(crate::specs::JsonLine::worded, peer_words::specs::Json::member, peer_words::specs::Json::quoted))]
fn put_woken(text: &mut Vec<u8>, wake: WakeSet) -> Result<(), AllocError>
    ensures { IfOk result (λ _. text.new.items ≡ text.old.items ++ worded (codes "wake") (wake_word wake)) }
{
    put_name(text, b",", b"wake")?;
    text.extend_from_slice(b"\"")?;
    put_wake(text, wake)?;
    text.extend_from_slice(b"\"")
}

/// A member for each column of whose measure the run has a value.
fn put_columns(text: &mut Vec<u8>, columns: &[Column], figures: &Figures) -> Result<(), AllocError>
    ensures { IfOk result (λ _. text.new.items ≡ text.old.items ++ flat_map (column_member figures.now) columns.now) }
{
    for column in columns {
        put_measure(text, column.name.letters(), column.measure, figures)?;
    }
    Ok(())
}

/// What the run has of a measure.
fn put_measure(
    text: &mut Vec<u8>,
    name: &[u8],
    measure: Measure,
    figures: &Figures,
) -> Result<(), AllocError>
    ensures { IfOk result (λ _. text.new.items ≡ text.old.items ++ measure_member figures.now name.now measure) }
{
    match measure {
        Measure::Halted => put_worded(text, name, end_word(figures.ended)),
        _ => put_counted(text, name, measure.value(figures)),
    }
}

/// A member, if there is a number.
fn put_counted(text: &mut Vec<u8>, name: &[u8], number: Option<u128>) -> Result<(), AllocError>
    ensures { IfOk result (λ _. text.new.items ≡ text.old.items ++ number_member name.now number) }
{
    match number {
        Some(number) => put_numbered(text, name, number),
        None => Ok(()),
    }
}

/// A member that isn't the first, and a number.
#[tactic(auto, unfolding(crate::specs::JsonLine::numbered))]
pub(crate) fn put_numbered(text: &mut Vec<u8>, name: &[u8], number: u128) -> Result<(), AllocError>
    ensures { IfOk result (λ _. text.new.items ≡ text.old.items ++ numbered name.now number) }
{
    put_number_member(text, b",", name, number)
}

/// A member that isn't the first, and a word.
#[tactic(auto, unfolding(crate::specs::JsonLine::worded))]
fn put_worded(text: &mut Vec<u8>, name: &[u8], word: &[u8]) -> Result<(), AllocError>
    ensures { IfOk result (λ _. text.new.items ≡ text.old.items ++ worded name.now word.now) }
{
    put_word_member(text, b",", name, word)
}
