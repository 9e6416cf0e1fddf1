//! Runs' figures as lines.
ghost use Rattle.peer_sweep.specs.Lines.{line_behind, run_lines};
ghost use Rattle.std.specs.Prelude.{◌≡◌, ◌+◌, ◌++◌, ◌≤◌, ◌^◌, IfOk, length};

use crate::figures::Figures;
use crate::json_line::put_json_line;
use crate::line::put_line;
use crate::setup::Setup;
use crate::table::Table;
use ghs_choices::form::Form;
use std::alloc::AllocError;

/// Puts the lines of runs whose seeds rise from the first on behind a text, each behind the same front.
///
/// ```text
/// put_head(&mut text, &table)?;
/// put_runs(&mut text, Form::Text, bare_front(Form::Text), &table, setup, 1, &runs)?;
/// // what `ghs sweep --seeds 1..3` prints, where runs are those of the seeds 1, 2 and 3
/// ```
pub fn put_runs(
    text: &mut Vec<u8>,
    form: Form,
    front: &[u8],
    table: &Table,
    setup: Setup,
    first: u64,
    runs: &[Figures],
) -> Result<(), AllocError>
    requires { first + length runs.now ≤ 2 ^ 64 }
    ensures { IfOk result (λ _. text.new.items ≡ text.old.items ++ run_lines (line_behind form front.now table.now setup) first runs.now) }
{
    for (place, run) in runs.iter().enumerate() {
        put_behind(text, form, front, table, first + place as u64, setup, run)?;
    }
    Ok(())
}

/// A front, and the line of a seed's run.
fn put_behind(
    text: &mut Vec<u8>,
    form: Form,
    front: &[u8],
    table: &Table,
    seed: u64,
    setup: Setup,
    run: &Figures,
) -> Result<(), AllocError>
    ensures { IfOk result (λ _. text.new.items ≡ text.old.items ++ line_behind form front.now table.now setup seed run.now) }
{
    text.extend_from_slice(front)?;
    match form {
        Form::Text => put_line(text, table, seed, setup, run),
        Form::Json => put_json_line(text, table, seed, setup, run),
    }
}
