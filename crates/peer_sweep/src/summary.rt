//! What the figures of many runs come to: a line for each measure.
ghost use Rattle.peer_sweep.specs.Figures.{LeavesRoom};
ghost use Rattle.peer_sweep.specs.Summary.{AreSummaryLines, IsMeasureLine, IsRising, high_members, listed, low_members, measure_fields, measure_line, measure_members, measure_text, name_of, percentile, rising_fields, values_of};
ghost use Rattle.std.specs.List.{sum};
ghost use Rattle.std.specs.Prelude.{◌≡◌, ◌++◌, ◌<◌, ◌≤◌, ◌^◌, All, IfOk, List, ℕ, length};

use crate::column::Column;
use crate::figures::Figures;
use crate::json_line::put_numbered;
use crate::measure::Measure;
use crate::table::Table;
use ghs_choices::form::Form;
use ghs_report::fields::put_field;
use peer_words::json::put_word_member;
use std::alloc::{AllocError, Global};

/// The names of a summary's fields, as a line.
pub const SUMMARY_HEAD: &[u8] = b"measure,runs,min,p25,p50,p75,p95,max,sum,fixed\n";

/// Puts the summary of runs behind a text: a line for each measure that the runs have, each behind the same front. There may
/// be 2^32 runs at most. Refusal: out of memory.
///
/// ```text
/// let mut text = Vec::from_slice(alloc, SUMMARY_HEAD)?;
/// put_summary(alloc, &mut text, Form::Text, bare_front(Form::Text), &table, &runs)?;
/// // of runs of GHS 19 lines more, from `events` to `longest`
/// ```
pub fn put_summary(
    alloc: Global,
    text: &mut Vec<u8>,
    form: Form,
    front: &[u8],
    table: &Table,
    runs: &[Figures],
) -> Result<(), AllocError>
    requires few { length runs.now ≤ 2 ^ 32 }
    requires small { All LeavesRoom runs.now }
    ensures { IfOk result (λ _. (lines : List ℕ) × AreSummaryLines form front.now runs.now table.now.columns lines × (text.new.items ≡ text.old.items ++ lines)) }
{
    put_measures(alloc, text, form, front, table.columns(), runs)
}

/// A line for the measure of each column behind a text.
fn put_measures(
    alloc: Global,
    text: &mut Vec<u8>,
    form: Form,
    front: &[u8],
    columns: &[Column],
    runs: &[Figures],
) -> Result<(), AllocError>
    requires few { length runs.now ≤ 2 ^ 32 }
    requires small { All LeavesRoom runs.now }
    ensures { IfOk result (λ _. (lines : List ℕ) × AreSummaryLines form front.now runs.now columns.now lines × (text.new.items ≡ text.old.items ++ lines)) }
{
    for column in columns {
        put_measure(alloc, text, form, front, column, runs)?;
    }
    Ok(())
}

/// The line of a column's measure behind a text.
fn put_measure(
    alloc: Global,
    text: &mut Vec<u8>,
    form: Form,
    front: &[u8],
    column: &Column,
    runs: &[Figures],
) -> Result<(), AllocError>
    requires few { length runs.now ≤ 2 ^ 32 }
    requires small { All LeavesRoom runs.now }
    ensures { IfOk result (λ _. (line : List ℕ) × IsMeasureLine form front.now runs.now column.now line × (text.new.items ≡ text.old.items ++ line)) }
{
    let mut values = values_of(alloc, column.measure, runs)?;
    let sum = sum_of(&values);
    values.sort_unstable();
    put_measure_line(text, form, front, column, &values, sum)?;
    Ok(())
}

/// The same, of its values in rising order and their sum.
fn put_measure_line(
    text: &mut Vec<u8>,
    form: Form,
    front: &[u8],
    column: &Column,
    rising: &[u128],
    sum: u128,
) -> Result<(), AllocError>
    requires few { length rising.now ≤ 2 ^ 32 }
    ensures { IfOk result (λ _. text.new.items ≡ text.old.items ++ measure_line form front.now column.now rising.now sum) }
{
    if rising.is_empty() {
        return Ok(());
    }
    text.extend_from_slice(front)?;
    put_measure_text(text, form, column, rising, sum)
}

/// A measure's line without its front.
fn put_measure_text(
    text: &mut Vec<u8>,
    form: Form,
    column: &Column,
    rising: &[u128],
    sum: u128,
) -> Result<(), AllocError>
    requires some { 1 ≤ length rising.now }
    requires few { length rising.now ≤ 2 ^ 32 }
    ensures { IfOk result (λ _. text.new.items ≡ text.old.items ++ measure_text form column.now rising.now sum) }
{
    match form {
        Form::Text => put_measure_fields(text, column, rising, sum),
        Form::Json => put_measure_members(text, column, rising, sum),
    }
}

/// A measure as a line: what its values come to in rising order, and their sum.
#[tactic(auto, unfolding(crate::specs::Summary::measure_fields))]
fn put_measure_fields(
    text: &mut Vec<u8>,
    column: &Column,
    rising: &[u128],
    sum: u128,
) -> Result<(), AllocError>
    requires some { 1 ≤ length rising.now }
    requires few { length rising.now ≤ 2 ^ 32 }
    ensures { IfOk result (λ _. text.new.items ≡ text.old.items ++ measure_fields column.now rising.now sum) }
{
    text.extend_from_slice(name_of(column))?;
    put_rising(text, rising)?;
    put_field(text, sum)?;
    put_field(text, u128::from(column.is_fixed))?;
    text.extend_from_slice(b"\n")
}

/// The same as members of an object, which is closed.
#[tactic(auto, unfolding(crate::specs::Summary::measure_members))]
fn put_measure_members(
    text: &mut Vec<u8>,
    column: &Column,
    rising: &[u128],
    sum: u128,
) -> Result<(), AllocError>
    requires some { 1 ≤ length rising.now }
    requires few { length rising.now ≤ 2 ^ 32 }
    ensures { IfOk result (λ _. text.new.items ≡ text.old.items ++ measure_members column.now rising.now sum) }
{
    put_word_member(text, b"", b"measure", name_of(column))?;
    put_low_members(text, rising)?;
    put_high_members(text, rising)?;
    put_numbered(text, b"sum", sum)?;
    put_numbered(text, b"fixed", u128::from(column.is_fixed))?;
    text.extend_from_slice(b"}\n")
}

/// The name of a column's measure: that of the column, but what a line says of the run's end is counted here.
fn name_of<'w>(column: &Column<'w>) -> &'w [u8]
    ensures { result.now ≡ name_of column.now }
{
    match column.measure {
        Measure::Halted => b"halted",
        _ => column.name.letters(),
    }
}

/// The values of a measure for those of the runs that have it, in rising order. Refusal: out of memory.
pub fn rising_of(alloc: Global, measure: Measure, runs: &[Figures]) -> Result<Vec<u128>, AllocError>
    requires { All LeavesRoom runs.now }
    ensures { IfOk result (λ rising. IsRising (values_of measure runs.now) rising.items) }
{
    let mut values = values_of(alloc, measure, runs)?;
    values.sort_unstable();
    Ok(values)
}

/// The values of a measure for those of the runs that have it.
fn values_of(alloc: Global, measure: Measure, runs: &[Figures]) -> Result<Vec<u128>, AllocError>
    requires { All LeavesRoom runs.now }
    ensures values { IfOk result (λ values. values.items ≡ values_of measure runs.now) }
    ensures small { IfOk result (λ values. All (λ v. v < 2 ^ 96) values.items) }
    ensures few { IfOk result (λ values. length values.items ≤ length runs.now) }
{
    let mut values = Vec::with_capacity(alloc, runs.len())?;
    for run in runs {
        push_value(&mut values, measure.value(run))?;
    }
    Ok(values)
}

/// Appends a value, if there is one.
fn push_value(values: &mut Vec<u128>, value: Option<u128>) -> Result<(), AllocError>
    ensures { IfOk result (λ _. values.new.items ≡ values.old.items ++ listed value) }
{
    match value {
        Some(value) => values.push(value)?,
        None => {}
    }
    Ok(())
}

/// Numbers added up.
fn sum_of(values: &[u128]) -> u128
    requires few { length values.now ≤ 2 ^ 32 }
    requires small { All (λ v. v < 2 ^ 96) values.now }
    ensures { result ≡ sum values.now }
{
    let mut total: u128 = 0;
    for value in values {
        total += *value;
    }
    total
}

/// How many numbers there are, the least, four percentiles, and the greatest.
#[tactic(auto, unfolding(crate::specs::Summary::rising_fields))]
fn put_rising(text: &mut Vec<u8>, rising: &[u128]) -> Result<(), AllocError>
    requires some { 1 ≤ length rising.now }
    requires few { length rising.now ≤ 2 ^ 32 }
    ensures { IfOk result (λ _. text.new.items ≡ text.old.items ++ rising_fields rising.now) }
{
    put_field(text, rising.len() as u128)?;
    put_field(text, rising[0])?;
    put_field(text, percentile(rising, 25))?;
    put_field(text, percentile(rising, 50))?;
    put_field(text, percentile(rising, 75))?;
    put_field(text, percentile(rising, 95))?;
    put_field(text, rising[rising.len() - 1])?;
    Ok(())
}

/// As members of an object: how many numbers there are, the least, and two percentiles.
#[tactic(auto, unfolding(crate::specs::Summary::low_members))]
fn put_low_members(text: &mut Vec<u8>, rising: &[u128]) -> Result<(), AllocError>
    requires some { 1 ≤ length rising.now }
    requires few { length rising.now ≤ 2 ^ 32 }
    ensures { IfOk result (λ _. text.new.items ≡ text.old.items ++ low_members rising.now) }
{
    put_numbered(text, b"runs", rising.len() as u128)?;
    put_numbered(text, b"min", rising[0])?;
    put_numbered(text, b"p25", percentile(rising, 25))?;
    put_numbered(text, b"p50", percentile(rising, 50))
}

/// Two more percentiles, and the greatest.
#[tactic(auto, unfolding(crate::specs::Summary::high_members))]
fn put_high_members(text: &mut Vec<u8>, rising: &[u128]) -> Result<(), AllocError>
    requires some { 1 ≤ length rising.now }
    requires few { length rising.now ≤ 2 ^ 32 }
    ensures { IfOk result (λ _. text.new.items ≡ text.old.items ++ high_members rising.now) }
{
    put_numbered(text, b"p75", percentile(rising, 75))?;
    put_numbered(text, b"p95", percentile(rising, 95))?;
    put_numbered(text, b"max", rising[rising.len() - 1])
}

/// The percentile of rising numbers: the one at p hundredths of their places, rounded up.
fn percentile(rising: &[u128], p: usize) -> u128
    requires some { 1 ≤ length rising.now }
    requires few { length rising.now ≤ 2 ^ 32 }
    requires part { (1 ≤ p) × (p ≤ 100) }
    ensures { result ≡ percentile p rising.now }
{
    let place = (p * rising.len() + 99) / 100;
    rising[place - 1]
}
