//! A strip of a panel: into which parts of the bound the values of a figure fall.
ghost use Rattle.ghs_chart.specs.Strip.{axis, bar, bars, column_of, count_in, most_in, strip_text, values_text};
ghost use Rattle.ghs_chart.specs.declared.strip.TheConstants.{COLUMNS};
ghost use Rattle.std.specs.Prelude.{◌≡◌, ◌++◌, ◌<◌, ◌≤◌, ◌^◌, IfOk, length};

use crate::around::put_around;
use crate::texts::{AXIS, STRIP, STRIP_END, STRIP_NAME, VALUES};
use ghs_lines::numbers::put_number;
use std::alloc::AllocError;

/// Into how many columns the numbers up to the bound are put.
const COLUMNS: u32 = 150;

/// Puts a strip behind a text: the name of a figure, its bars by the bound, and its least, median and greatest value.
#[tactic(auto, unfolding(crate::specs::Strip::strip_text))]
pub(crate) fn put_strip(
    text: &mut Vec<u8>,
    name: &[u8],
    bottom: u8,
    bound: u64,
    rising: &[u128],
) -> Result<(), AllocError>
    requires some { 1 ≤ length rising.now }
    requires few { length rising.now ≤ 2 ^ 32 }
    ensures { IfOk result (λ _. text.new.items ≡ text.old.items ++ strip_text name.now bottom bound rising.now) }
{
    put_around(text, STRIP, u128::from(bottom), STRIP_NAME)?;
    text.extend_from_slice(name)?;
    put_axis(text, bound, rising)?;
    put_values(text, rising)
}

/// The axis, and on it the bars.
#[tactic(auto, unfolding(crate::specs::Strip::axis))]
fn put_axis(text: &mut Vec<u8>, bound: u64, rising: &[u128]) -> Result<(), AllocError>
    requires few { length rising.now ≤ 2 ^ 32 }
    ensures { IfOk result (λ _. text.new.items ≡ text.old.items ++ axis bound rising.now) }
{
    text.extend_from_slice(AXIS)?;
    put_bars(text, bound, rising)
}

/// The least, the median and the greatest value.
#[tactic(auto, unfolding(crate::specs::Strip::values_text))]
fn put_values(text: &mut Vec<u8>, rising: &[u128]) -> Result<(), AllocError>
    requires some { 1 ≤ length rising.now }
    ensures { IfOk result (λ _. text.new.items ≡ text.old.items ++ values_text rising.now) }
{
    put_around(text, VALUES, rising[0], b" ")?;
    put_around(text, b"/ ", rising[(rising.len() - 1) / 2], b" ")?;
    put_around(text, b"/ ", rising[rising.len() - 1], STRIP_END)
}

/// A bar for each column into which a value falls.
fn put_bars(text: &mut Vec<u8>, bound: u64, values: &[u128]) -> Result<(), AllocError>
    requires few { length values.now ≤ 2 ^ 32 }
    ensures { IfOk result (λ _. text.new.items ≡ text.old.items ++ bars COLUMNS bound values.now (most_in bound values.now)) }
{
    let most = most_in(bound, values);
    for column in 0..COLUMNS {
        put_bar(text, column, count_in(bound, column, values), most)?;
    }
    Ok(())
}

/// The bar of a column into which so many values fall, where into another the most of all do.
#[tactic(auto, unfolding(crate::specs::Strip::bar))]
fn put_bar(text: &mut Vec<u8>, column: u32, count: u128, most: u128) -> Result<(), AllocError>
    requires column { column < COLUMNS }
    requires count { count ≤ 2 ^ 32 }
    requires most { most ≤ 2 ^ 32 }
    requires within { count ≤ most }
    ensures { IfOk result (λ _. text.new.items ≡ text.old.items ++ bar column count most) }
{
    if count == 0 {
        return Ok(());
    }
    put_around(text, b"M", u128::from(4 * column + 2), b" 0v-")?;
    put_number(text, (40 * count + (most - 1)) / most)
}

/// Into how many columns values fall at most together: the greatest count of a column.
fn most_in(bound: u64, values: &[u128]) -> u128
    ensures most { result ≡ most_in bound values.now }
    ensures few { result ≤ length values.now }
{
    let mut most = 0;
    for column in 0..COLUMNS {
        most = most.max(count_in(bound, column, values));
    }
    most
}

/// How many values fall into a column.
fn count_in(bound: u64, column: u32, values: &[u128]) -> u128
    ensures count { result ≡ count_in bound values.now column }
    ensures few { result ≤ length values.now }
{
    values
        .iter()
        .filter(|value| column_of(bound, **value) == u128::from(column))
        .count() as u128
}

/// The column of a value; those beyond the bound fall into the last.
fn column_of(bound: u64, value: u128) -> u128
    ensures { result ≡ column_of bound value }
{
    let bound = u128::from(bound);
    if value < bound {
        value * u128::from(COLUMNS) / bound
    } else if bound == 0 {
        0
    } else {
        u128::from(COLUMNS - 1)
    }
}
