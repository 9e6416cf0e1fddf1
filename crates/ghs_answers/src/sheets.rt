//! Sheets: what is printed of the runs of a sweep, as lines.
ghost use Rattle.ghs_answers.specs.Sheets.{AreSheetLines, count_of, head_of, setup_of};
ghost use Rattle.ghs_commands.specs.Job.{AreSweepLimits};
ghost use Rattle.peer_sweep.specs.Figures.{LeavesRoom};
ghost use Rattle.std.specs.Prelude.{◌≡◌, ◌++◌, All, List, ℕ, length, IfOk};

use ghs_choices::form::Form;
use ghs_commands::job::{Sheet, SweepOptions};
use ghs_commands::values::Seeds;
use peer_sweep::figures::Figures;
use peer_sweep::line::put_head;
use peer_sweep::lines::put_runs;
use peer_sweep::setup::Setup;
use peer_sweep::summary::{SUMMARY_HEAD, put_summary};
use peer_sweep::table::Table;
use std::alloc::{AllocError, Global};

/// What the runs of a sweep have in common.
pub fn setup_of(options: &SweepOptions) -> Setup
    ensures { result ≡ setup_of options.now }
{
    Setup {
        schedule_kind: options.schedule_kind,
        wake: options.wake,
        turns: options.turns,
    }
}

/// The names of the columns, as a line; lines of JSON say them with each value.
pub fn put_head_of(
    text: &mut Vec<u8>,
    table: &Table,
    options: &SweepOptions,
) -> Result<(), AllocError>
    ensures { IfOk result (λ _. text.new.items ≡ text.old.items ++ head_of table.now options.now.form options.now.sheet) }
{
    match (options.form, options.sheet) {
        (Form::Text, Sheet::Runs) => put_head(text, table),
        (Form::Text, Sheet::Summary) => text.extend_from_slice(SUMMARY_HEAD),
        (Form::Text, Sheet::Chart) => Ok(()),
        (Form::Json, _) => Ok(()),
    }
}

/// Puts what is printed of the runs of a sweep behind a text, each line behind the same front. A chart has no lines:
/// where one is asked for, it is made elsewhere, and this isn't called.
pub fn put_sheet(
    alloc: Global,
    text: &mut Vec<u8>,
    options: &SweepOptions,
    setup: Setup,
    table: &Table,
    front: &[u8],
    runs: &[Figures],
) -> Result<(), AllocError>
    requires limits { AreSweepLimits options.now }
    requires all { length runs.now ≡ count_of options.now }
    requires small { All LeavesRoom runs.now }
    ensures { IfOk result (λ _. (lines : List ℕ) × AreSheetLines options.now.sheet options.now.form front.now table.now setup options.now.seeds.first runs.now lines × (text.new.items ≡ text.old.items ++ lines)) }
{
    match options.sheet {
        Sheet::Runs => put_lines(text, options, setup, table, front, runs),
        Sheet::Summary => put_measures(alloc, text, options, setup, table, front, runs),
        Sheet::Chart => Ok(()),
    }
}

/// The lines of the runs.
fn put_lines(
    text: &mut Vec<u8>,
    options: &SweepOptions,
    setup: Setup,
    table: &Table,
    front: &[u8],
    runs: &[Figures],
) -> Result<(), AllocError>
    requires limits { AreSweepLimits options.now }
    requires all { length runs.now ≡ count_of options.now }
    requires sheet { options.now.sheet ≡ Sheet.Runs }
    ensures { IfOk result (λ _. (lines : List ℕ) × AreSheetLines options.now.sheet options.now.form front.now table.now setup options.now.seeds.first runs.now lines × (text.new.items ≡ text.old.items ++ lines)) }
{
    let Seeds { first, last } = options.seeds;
    prove!(first <= last);
    put_runs(text, options.form, front, table, setup, first, runs)?;
    Ok(())
}

/// The lines of their summary.
fn put_measures(
    alloc: Global,
    text: &mut Vec<u8>,
    options: &SweepOptions,
    setup: Setup,
    table: &Table,
    front: &[u8],
    runs: &[Figures],
) -> Result<(), AllocError>
    requires limits { AreSweepLimits options.now }
    requires all { length runs.now ≡ count_of options.now }
    requires small { All LeavesRoom runs.now }
    requires sheet { options.now.sheet ≡ Sheet.Summary }
    ensures { IfOk result (λ _. (lines : List ℕ) × AreSheetLines options.now.sheet options.now.form front.now table.now setup options.now.seeds.first runs.now lines × (text.new.items ≡ text.old.items ++ lines)) }
{
    let Seeds { first, last } = options.seeds;
    prove!(first <= last);
    put_summary(alloc, text, options.form, front, table, runs)?;
    Ok(())
}
