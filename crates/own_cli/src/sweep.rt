//! Runs of many seeds by a user's own protocol.
ghost use Rattle.ghs_answers.specs.Causes.{IsUnwritten};
ghost use Rattle.ghs_answers.specs.Sheets.{count_of, setup_of as setup_by};
ghost use Rattle.ghs_commands.specs.Job.{AreSweepLimits};
ghost use Rattle.own_cli.specs.Sweep.{HasNoOwnSweep, HasSweptOwn, IsOwnSweep, IsQuiet, IsSheetOf, IsSoundRun, IsTroubleOf, IsTroubledAt, IsTroubledSweep, seed_line};
ghost use Rattle.own_rules.specs.declared.protocol.TheConstants.{RUNNING};
ghost use Rattle.own_runs.specs.Sweep.{AreFiguresBy, layout_by};
ghost use Rattle.peer_sweep.specs.Sweep.{AreRuns};
ghost use Rattle.std.specs.Prelude.{◌≡◌, ◌+◌, ◌++◌, ◌↔◌, [], false, length, true, IfErr, IfNone, IfOk, IfSome};

use crate::run::{OwnEnd, OwnTold};
use ghs_answers::fault::ServeFault;
use ghs_answers::sheets::{put_head_of, put_sheet, setup_of};
use ghs_choices::check::Check;
use ghs_commands::job::SweepOptions;
use ghs_commands::values::Seeds;
use ghs_gr::device::Sink;
use ghs_graph::graph::Graph;
use ghs_lines::numbers::put_number;
use ghs_report::write_out::write_out;
use own_rules::rulebook::Rulebook;
use own_runs::sweep::{BookFigures, TableFault, figures_by_book, table_by_book};
use peer_sweep::figures::Figures;
use peer_sweep::front::bare_front;
use peer_sweep::setup::Setup;
use peer_sweep::table::Table;
use std::alloc::{AllocError, Global};

/// Runs a graph by a book, seed by seed, and writes the figures of the runs, or what they come to, with a column for each kind of the
/// greeting. It says how that ends: at the first seed whose run lacks an answer, has a node that stopped by one, or ends otherwise than the
/// check asks, what that is goes out in their place. The text is made whole before its first byte goes out. Faults: the greeting has more than eight kinds; lack of
/// memory; and then a write that fails.
///
/// ```text
/// let end = sweep_by_book(alloc, &options, &graph, &rules, None, &mut out)?;
/// // OwnEnd::Ended, and standard output has a line for each seed; of an empty book OwnEnd::Asks
/// ```
pub fn sweep_by_book<W: Sink>(
    alloc: Global,
    options: &SweepOptions,
    graph: &Graph,
    rules: &Rulebook,
    check: Option<Check>,
    out: &mut W,
) -> Result<OwnEnd, ServeFault>
    requires out { W.has_failed out.old ≡ false }
    requires limits { AreSweepLimits options.now }
    ensures swept { HasSweptOwn options.now check graph.now rules.now (W.held out.old) (W.held out.new) result }
    ensures write { IsUnwritten result ↔ (W.has_failed out.new ≡ true) }
{
    let told = swept(alloc, options, graph, rules, check)?;
    write_out(out, &told.text)?;
    Ok(told.end)
}

/// What goes out, and how that ends.
fn swept(
    alloc: Global,
    options: &SweepOptions,
    graph: &Graph,
    rules: &Rulebook,
    check: Option<Check>,
) -> Result<OwnTold, ServeFault>
    requires { AreSweepLimits options.now }
    ensures told { IfOk result (λ told. IsOwnSweep options.now check graph.now rules.now told.end told.text.items) }
    ensures fault { IfErr result (HasNoOwnSweep rules.now) }
{
    let table = table_of(alloc, rules)?;
    let mut runs = Vec::new(alloc);
    match troubled(alloc, options, graph, rules, check, &mut runs)? {
        Some(told) => Ok(told),
        None => Ok(OwnTold {
            end: OwnEnd::Ended,
            text: sheet_of(alloc, options, graph, rules, check, &table, &runs)?,
        }),
    }
}

/// The columns of the lines.
fn table_of(alloc: Global, rules: &Rulebook) -> Result<Table<'_>, ServeFault>
    ensures table { IfOk result (λ t. t ≡ layout_by rules.now) }
    ensures fault { IfErr result (HasNoOwnSweep rules.now) }
{
    match table_by_book(alloc, rules) {
        Ok(table) => Ok(table),
        Err(TableFault::TooManyKinds) => Err(ServeFault::TooManyKinds),
        Err(TableFault::Memory) => Err(ServeFault::Memory),
    }
}

/// Puts the figures of the runs of all seeds in the list; where one isn't sound only of those before it, and says what is printed.
fn troubled(
    alloc: Global,
    options: &SweepOptions,
    graph: &Graph,
    rules: &Rulebook,
    check: Option<Check>,
    runs: &mut Vec<Figures>,
) -> Result<Option<OwnTold>, AllocError>
    requires limits { AreSweepLimits options.now }
    requires none { runs.old.items ≡ [] }
    ensures some { IfOk result (λ found. IfSome found (λ told. IsTroubledSweep options.now check graph.now rules.now told.end told.text.items)) }
    ensures none { IfOk result (λ found. IfNone found (AreRuns (IsSoundRun rules.now check) graph.now (setup_by options.now) options.now.seeds.first runs.new.items × (length runs.new.items ≡ count_of options.now))) }
{
    let Seeds { first, last } = options.seeds;
    let setup = setup_of(options);
    for done in 0..last - first + 1 {
        if let Some(told) = next_run(
            alloc,
            setup,
            graph,
            rules,
            check,
            first,
            first + done,
            runs,
        )? {
            return Ok(Some(told));
        }
    }
    Ok(None)
}

/// Puts the figures of a seed's run behind those before it, where it is sound, and else says what is printed of it.
fn next_run(
    alloc: Global,
    setup: Setup,
    graph: &Graph,
    rules: &Rulebook,
    check: Option<Check>,
    first: u64,
    seed: u64,
    runs: &mut Vec<Figures>,
) -> Result<Option<OwnTold>, AllocError>
    requires before { AreRuns (IsSoundRun rules.now check) graph.now setup first runs.old.items }
    requires next { seed ≡ first + length runs.old.items }
    ensures some { IfOk result (λ found. IfSome found (λ told. IsTroubledAt rules.now check graph.now setup first runs.old.items told.end told.text.items)) }
    ensures none { IfOk result (λ found. IfNone found (AreRuns (IsSoundRun rules.now check) graph.now setup first runs.new.items × (length runs.new.items ≡ length runs.old.items + 1))) }
{
    let ran = figures_by_book(alloc, rules, graph, setup.wake, seed, setup.turns, check)?;
    match trouble_of(alloc, seed, &ran)? {
        Some(told) => Ok(Some(told)),
        None => {
            runs.push(ran.figures)?;
            Ok(None)
        }
    }
}

/// What is printed of the run of a seed that isn't sound.
fn trouble_of(alloc: Global, seed: u64, ran: &BookFigures) -> Result<Option<OwnTold>, AllocError>
    ensures some { IfOk result (λ found. IfSome found (λ told. IsTroubleOf seed ran.now told.end told.text.items)) }
    ensures none { IfOk result (λ found. IfNone found (IsQuiet ran.now)) }
{
    if !ran.lacking.is_empty() {
        return Ok(Some(OwnTold {
            end: OwnEnd::Asks,
            text: Vec::from_slice(alloc, &ran.lacking)?,
        }));
    }
    if !ran.faults.is_empty() {
        return Ok(Some(OwnTold {
            end: OwnEnd::Fails,
            text: failed(alloc, seed, &ran.faults)?,
        }));
    }
    if ran.figures.ended && !ran.wrong.is_empty() {
        return Ok(Some(OwnTold {
            end: OwnEnd::Misses,
            text: failed(alloc, seed, &ran.wrong)?,
        }));
    }
    Ok(None)
}

/// The seed, and what is said of answers in its run, or of its end.
#[tactic(auto, unfolding(crate::specs::Sweep::seed_line))]
fn failed(alloc: Global, seed: u64, faults: &[u8]) -> Result<Vec<u8>, AllocError>
    ensures { IfOk result (λ text. text.items ≡ seed_line seed ++ faults.now) }
{
    let mut text = Vec::new(alloc);
    text.extend_from_slice(b"seed ")?;
    put_number(&mut text, u128::from(seed))?;
    text.extend_from_slice(b"\n")?;
    text.extend_from_slice(faults)?;
    Ok(text)
}

/// What is printed of the runs of all seeds.
fn sheet_of(
    alloc: Global,
    options: &SweepOptions,
    graph: &Graph,
    rules: &Rulebook,
    check: Option<Check>,
    table: &Table,
    runs: &[Figures],
) -> Result<Vec<u8>, AllocError>
    requires limits { AreSweepLimits options.now }
    requires table { table.now ≡ layout_by rules.now }
    requires runs { AreRuns (IsSoundRun rules.now check) graph.now (setup_by options.now) options.now.seeds.first runs.now }
    requires all { length runs.now ≡ count_of options.now }
    ensures { IfOk result (λ text. IsSheetOf options.now check graph.now rules.now text.items) }
{
    let mut text = Vec::new(alloc);
    put_head_of(&mut text, table, options)?;
    let setup = setup_of(options);
    let front = bare_front(options.form);
    put_sheet(alloc, &mut text, options, setup, table, front, runs)?;
    Ok(text)
}
