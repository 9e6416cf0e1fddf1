//! What a chart begins with.
ghost use Rattle.ghs_chart.specs.Chart.{chart_head, height_of, opening, paper};
ghost use Rattle.std.specs.Prelude.{◌≡◌, ◌++◌, ◌≤◌, ◌^◌, IfOk};

use crate::around::put_around;
use crate::texts::{FONT, LEGEND, OPENING, PAPER, PAPER_END, SIZE, STYLE};
use ghs_lines::numbers::put_number;
use std::alloc::AllocError;

/// Puts what a chart of so many panels begins with behind a text. Behind the panels stands `CHART_TAIL`.
#[tactic(auto, unfolding(crate::specs::Chart::chart_head))]
pub fn put_chart_head(text: &mut Vec<u8>, panels: u64) -> Result<(), AllocError>
    ensures { IfOk result (λ _. text.new.items ≡ text.old.items ++ chart_head panels) }
{
    let height = height_of(panels);
    put_opening(text, height)?;
    text.extend_from_slice(STYLE)?;
    put_paper(text, height)?;
    text.extend_from_slice(LEGEND)
}

/// How high a chart of so many panels is.
fn height_of(panels: u64) -> u128
    ensures { result ≡ height_of panels }
{
    u128::from(panels) * 200 + 50
}

/// The opening tag of a picture of this height.
#[tactic(auto, unfolding(crate::specs::Chart::opening))]
fn put_opening(text: &mut Vec<u8>, height: u128) -> Result<(), AllocError>
    ensures { IfOk result (λ _. text.new.items ≡ text.old.items ++ opening height) }
{
    put_around(text, OPENING, height, SIZE)?;
    put_number(text, height)?;
    text.extend_from_slice(FONT)
}

/// What all of it stands on.
#[tactic(auto, unfolding(crate::specs::Chart::paper))]
fn put_paper(text: &mut Vec<u8>, height: u128) -> Result<(), AllocError>
    ensures { IfOk result (λ _. text.new.items ≡ text.old.items ++ paper height) }
{
    put_around(text, PAPER, height, PAPER_END)
}
