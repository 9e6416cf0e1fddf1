//! A run's figures as a line of comma separated values.
ghost use Rattle.peer_sweep.specs.Line.{column_field, column_name, head_fields, head_line, line_text, measure_field, number_field, schedule_word};
ghost use Rattle.std.specs.List.{flat_map};
ghost use Rattle.std.specs.Prelude.{◌≡◌, ◌++◌, IfOk};

use crate::column::Column;
use crate::figures::Figures;
use crate::measure::Measure;
use crate::setup::Setup;
use crate::table::Table;
use ghs_choices::schedule_kind::ScheduleKind;
use ghs_lines::numbers::put_number;
use ghs_report::fields::{end_word, put_field, put_wake_field, put_word};
use std::alloc::AllocError;

/// The names of the fields before the columns.
pub const START: &[u8] = b"seed,protocol,schedule,wake,nodes,links";

/// Puts the names of a line's fields behind a text, as a line.
#[tactic(auto, unfolding(crate::specs::Line::head_line))]
pub fn put_head(text: &mut Vec<u8>, table: &Table) -> Result<(), AllocError>
    ensures { IfOk result (λ _. text.new.items ≡ text.old.items ++ head_line table.now) }
{
    text.extend_from_slice(START)?;
    put_names(text, table.columns())?;
    text.extend_from_slice(b"\n")?;
    Ok(())
}

/// The names of columns.
fn put_names(text: &mut Vec<u8>, columns: &[Column]) -> Result<(), AllocError>
    ensures { IfOk result (λ _. text.new.items ≡ text.old.items ++ flat_map column_name columns.now) }
{
    for column in columns {
        put_name(text, column)?;
    }
    Ok(())
}

/// The name of a column.
#[tactic(auto, unfolding(crate::specs::Line::column_name))]
fn put_name(text: &mut Vec<u8>, column: &Column) -> Result<(), AllocError>
    ensures { IfOk result (λ _. text.new.items ≡ text.old.items ++ column_name column.now) }
{
    text.extend_from_slice(b",")?;
    text.extend_from_slice(column.name.letters())
}

/// Puts the line of a seed's run behind a text: the seed, the protocol, the schedule, the wake set, nodes and links, and a
/// field for each column.
#[tactic(auto, unfolding(crate::specs::Line::line_text))]
pub fn put_line(
    text: &mut Vec<u8>,
    table: &Table,
    seed: u64,
    setup: Setup,
    figures: &Figures,
) -> Result<(), AllocError>
    ensures { IfOk result (λ _. text.new.items ≡ text.old.items ++ line_text table.now seed setup figures.now) }
{
    put_start(text, table.protocol(), seed, setup)?;
    put_field(text, u128::from(figures.nodes))?;
    put_field(text, u128::from(figures.links))?;
    put_columns(text, table.columns(), figures)?;
    text.extend_from_slice(b"\n")?;
    Ok(())
}

/// Seed, protocol, schedule and wake set.
#[tactic(auto, unfolding(crate::specs::Line::head_fields))]
fn put_start(text: &mut Vec<u8>, protocol: &[u8], seed: u64, setup: Setup) -> Result<(), AllocError>
    ensures { IfOk result (λ _. text.new.items ≡ text.old.items ++ head_fields protocol.now seed setup) }
{
    put_number(text, u128::from(seed))?;
    put_word(text, protocol)?;
    put_word(text, schedule_word(setup.schedule_kind))?;
    put_wake_field(text, setup.wake)
}

/// A field for each column.
fn put_columns(text: &mut Vec<u8>, columns: &[Column], figures: &Figures) -> Result<(), AllocError>
    ensures { IfOk result (λ _. text.new.items ≡ text.old.items ++ flat_map (column_field figures.now) columns.now) }
{
    for column in columns {
        put_measure(text, column.measure, figures)?;
    }
    Ok(())
}

/// What the run has of a measure.
fn put_measure(text: &mut Vec<u8>, measure: Measure, figures: &Figures) -> Result<(), AllocError>
    ensures { IfOk result (λ _. text.new.items ≡ text.old.items ++ measure_field figures.now measure) }
{
    match measure {
        Measure::Halted => put_word(text, end_word(figures.ended)),
        _ => put_number_field(text, measure.value(figures)),
    }
}

/// A field that is empty where there is no number.
fn put_number_field(text: &mut Vec<u8>, number: Option<u128>) -> Result<(), AllocError>
    ensures { IfOk result (λ _. text.new.items ≡ text.old.items ++ number_field number) }
{
    match number {
        Some(number) => put_field(text, number),
        None => text.extend_from_slice(b","),
    }
}

pub(crate) fn schedule_word(schedule_kind: ScheduleKind) -> &'static [u8]
    ensures { result.now ≡ schedule_word schedule_kind }
{
    match schedule_kind {
        ScheduleKind::Seeded => b"seeded",
        ScheduleKind::Patient => b"patient",
        ScheduleKind::Rounds => b"rounds",
        ScheduleKind::Waits => b"waits",
        ScheduleKind::Lifo => b"lifo",
        ScheduleKind::RoundRobin => b"round-robin",
    }
}
