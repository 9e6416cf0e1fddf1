//! The line of a part of a run.
ghost use Rattle.std.specs.Prelude.{◌≡◌, ◌++◌, IfOk};
ghost use Rattle.std.specs.List.{flat_map};
ghost use Rattle.peer_parts.specs.Line.{column_field, column_member, column_name, count_field, count_member, head_line, json_text, line_behind, line_text, part_word, shown};

use crate::columns::Column;
use ghs_choices::by::By;
use ghs_choices::form::Form;
use ghs_lines::numbers::put_number;
use ghs_report::fields::put_field;
use peer_words::json::{put_number_member, put_said};
use peer_words::text::put_value;
use peer_words::value::Said;
use std::alloc::AllocError;

/// Puts the names of a line's fields behind a text, as a line.
#[tactic(auto, unfolding(crate::specs::Line::head_line))]
pub fn put_head(text: &mut Vec<u8>, by: By, columns: &[Column]) -> Result<(), AllocError>
    ensures { IfOk result (λ _. text.new.items ≡ text.old.items ++ head_line by columns.now) }
{
    text.extend_from_slice(b"seed,")?;
    text.extend_from_slice(part_word(by))?;
    put_names(text, columns)?;
    text.extend_from_slice(b"\n")
}

/// What a part is called.
pub fn part_word(by: By) -> &'static [u8]
    ensures { result.now ≡ part_word by }
{
    match by {
        By::Node => b"node",
        By::Level => b"level",
        By::Rule => b"rule",
    }
}

/// The names of columns.
fn put_names(text: &mut Vec<u8>, columns: &[Column]) -> Result<(), AllocError>
    ensures { IfOk result (λ _. text.new.items ≡ text.old.items ++ flat_map column_name columns.now) }
{
    for column in columns {
        put_name(text, column)?;
    }
    Ok(())
}

fn put_name(text: &mut Vec<u8>, column: &Column) -> Result<(), AllocError>
    ensures { IfOk result (λ _. text.new.items ≡ text.old.items ++ column_name column.now) }
{
    text.extend_from_slice(b",")?;
    text.extend_from_slice(column.name.letters())
}

/// Puts a front and the line of a part of a seed's run behind a text: what the lines of a network begin with, and in JSON an
/// object that it opens; then the seed, the part, and what the columns show of its counts.
///
/// ```text
/// put_line(&mut text, Form::Text, b"", 7, &columns, &Said::new(b"node", Value::Number(2)), &[1, 0, 3])?;
/// // `7,2,1,0,3` and a line feed, where the columns are of the places 0, 1 and 2
/// ```
pub fn put_line(
    text: &mut Vec<u8>,
    form: Form,
    front: &[u8],
    seed: u64,
    columns: &[Column],
    part: &Said,
    counts: &[u64],
) -> Result<(), AllocError>
    ensures { IfOk result (λ _. text.new.items ≡ text.old.items ++ line_behind form front.now seed columns.now part.now counts.now) }
{
    text.extend_from_slice(front)?;
    match form {
        Form::Text => put_text(text, seed, columns, part, counts),
        Form::Json => put_json(text, seed, columns, part, counts),
    }
}

/// As comma separated values.
#[tactic(auto, unfolding(crate::specs::Line::line_text))]
fn put_text(
    text: &mut Vec<u8>,
    seed: u64,
    columns: &[Column],
    part: &Said,
    counts: &[u64],
) -> Result<(), AllocError>
    ensures { IfOk result (λ _. text.new.items ≡ text.old.items ++ line_text seed part.now columns.now counts.now) }
{
    put_number(text, u128::from(seed))?;
    text.extend_from_slice(b",")?;
    put_value(text, &part.value)?;
    put_fields(text, columns, counts)?;
    text.extend_from_slice(b"\n")
}

/// A field for each column.
fn put_fields(text: &mut Vec<u8>, columns: &[Column], counts: &[u64]) -> Result<(), AllocError>
    ensures { IfOk result (λ _. text.new.items ≡ text.old.items ++ flat_map (column_field counts.now) columns.now) }
{
    for column in columns {
        put_count_field(text, shown(counts, column.place))?;
    }
    Ok(())
}

fn put_count_field(text: &mut Vec<u8>, count: Option<u64>) -> Result<(), AllocError>
    ensures { IfOk result (λ _. text.new.items ≡ text.old.items ++ count_field count) }
{
    match count {
        Some(count) => put_field(text, u128::from(count)),
        None => text.extend_from_slice(b","),
    }
}

/// As members of an object that has been opened; closes it.
#[tactic(auto, unfolding(crate::specs::Line::json_text))]
fn put_json(
    text: &mut Vec<u8>,
    seed: u64,
    columns: &[Column],
    part: &Said,
    counts: &[u64],
) -> Result<(), AllocError>
    ensures { IfOk result (λ _. text.new.items ≡ text.old.items ++ json_text seed part.now columns.now counts.now) }
{
    put_number_member(text, b"", b"seed", u128::from(seed))?;
    put_said(text, part)?;
    put_members(text, columns, counts)?;
    text.extend_from_slice(b"}\n")
}

/// A member for each column that shows a count.
fn put_members(text: &mut Vec<u8>, columns: &[Column], counts: &[u64]) -> Result<(), AllocError>
    ensures { IfOk result (λ _. text.new.items ≡ text.old.items ++ flat_map (column_member counts.now) columns.now) }
{
    for column in columns {
        put_count_member(text, column.name.letters(), shown(counts, column.place))?;
    }
    Ok(())
}

fn put_count_member(text: &mut Vec<u8>, name: &[u8], count: Option<u64>) -> Result<(), AllocError>
    ensures { IfOk result (λ _. text.new.items ≡ text.old.items ++ count_member name.now count) }
{
    match count {
        Some(count) => put_number_member(text, b",", name, u128::from(count)),
        None => Ok(()),
    }
}

/// The count that a column shows.
fn shown(counts: &[u64], place: Option<usize>) -> Option<u64>
    ensures { result ≡ shown counts.now place }
{
    match place {
        Some(place) => counts.get(place).copied(),
        None => None,
    }
}
