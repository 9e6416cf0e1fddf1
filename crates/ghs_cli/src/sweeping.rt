//! Sweeps: the figures of many seeds' runs, or what they come to.
ghost use Rattle.ghs_commands.specs.Job.{AreSweepLimits};
ghost use Rattle.ghs_cli.specs.Charts.{IsSweepText};
ghost use Rattle.ghs_cli.specs.Serving.{IsGraphCause, IsOfText};
ghost use Rattle.ghs_answers.specs.Causes.{is_write};
ghost use Rattle.ghs_cli.specs.Swept.{AreRunsBy, part_columns};
ghost use Rattle.ghs_answers.specs.Sheets.{count_of, setup_of};
ghost use Rattle.ghs_cli.specs.Sweeping.{AreLines, AreLinesBy, AreSweptLines, IsSwept, first_of, head_by, heads_of};
ghost use Rattle.peer_parts.specs.Line.{head_line as part_head};
ghost use Rattle.ghs_answers.specs.declared.fault.ServeFault.{ServeFault};
ghost use Rattle.std.specs.Prelude.{◌≡◌, ◌≤◌, ◌++◌, ◌↔◌, List, ℕ, false, length, true, IfErr, IfOk, IfSome, IsErrOf};

use crate::charting::nameless_chart;
use crate::fronts::{front_by, protocol_head, says_protocol};
use crate::parting::{Parting, put_parted};
use crate::progress::tell_seeds;
use crate::reading::graph_of;
use crate::swept::{part_columns, run_seeds_by, table_by};
use ghs_answers::fault::ServeFault;
use ghs_answers::sheets::{put_head_of, put_sheet, setup_of};
use ghs_choices::by::By;
use ghs_choices::form::Form;
use ghs_commands::job::{Sheet, SweepOptions};
use ghs_commands::values::Seeds;
use ghs_gr::device::Source;
use ghs_graph::graph::Graph;
use peer_parts::line as part_line;
use peer_sweep::figures::Figures;
use peer_sweep::front::bare_front;
use peer_sweep::table::Table;
use peer_trace::protocol::Protocol;
use std::alloc::{AllocError, Global};
use std::thread::Threads;

/// How many events the runs of one thread have in a batch, more or less: about a second's.
const BATCH: u64 = 4_000_000;

/// The text of the sweeps by protocols of the graph that the device gives.
pub(crate) fn sweep_text_of<S: Source, R: Threads + Sync + Eprint>(
    rt: &R,
    alloc: Global,
    protocols: &[Protocol],
    options: &SweepOptions,
    graph: &mut S,
) -> Result<Vec<u8>, ServeFault>
    requires limits { AreSweepLimits options.now }
    requires graph { S.has_failed graph.old ≡ false }
    ensures text { IfOk result (λ text. IfSome (S.left graph.old) (λ input. IsOfText options.now.wake (IsSweepText protocols.now options.now.sheet options.now) input text.items)) }
    ensures fault { IfErr result (λ fault. IfSome (S.left graph.old) (λ input. IsGraphCause options.now.wake input fault)) }
    ensures early { IfErr result (λ fault. is_write fault ≡ false) }
    ensures read { IsErrOf result ServeFault.Read ↔ (S.has_failed graph.new ≡ true) }
{
    let graph = graph_of(alloc, options.wake, graph)?;
    Ok(sweep_text(rt, alloc, protocols, options, &graph)?)
}

/// What a sweep of a graph by protocols prints: lines, or a chart.
fn sweep_text<R: Threads + Sync + Eprint>(
    rt: &R,
    alloc: Global,
    protocols: &[Protocol],
    options: &SweepOptions,
    graph: &Graph,
) -> Result<Vec<u8>, AllocError>
    requires { AreSweepLimits options.now }
    ensures { IfOk result (λ text. IsSweepText protocols.now options.now.sheet options.now graph.now text.items) }
{
    match options.sheet {
        Sheet::Runs | Sheet::Summary => swept_text(rt, alloc, protocols, options, graph),
        Sheet::Chart => nameless_chart(rt, alloc, protocols, options, graph),
    }
}

/// The text of the sweep of a graph.
fn swept_text<R: Threads + Sync + Eprint>(
    rt: &R,
    alloc: Global,
    protocols: &[Protocol],
    options: &SweepOptions,
    graph: &Graph,
) -> Result<Vec<u8>, AllocError>
    requires { AreSweepLimits options.now }
    ensures { IfOk result (λ text. IsSwept protocols.now options.now graph.now text.items) }
{
    let mut text = Vec::new(alloc);
    put_heads(alloc, &mut text, protocols, options)?;
    let front = bare_front(options.form);
    put_lines_by(rt, alloc, &mut text, protocols, options, front, graph)?;
    Ok(text)
}

/// Puts the names of the columns behind a text, as a line. They are the same for each protocol. Refusal: out of memory.
pub(crate) fn put_heads(
    alloc: Global,
    text: &mut Vec<u8>,
    protocols: &[Protocol],
    options: &SweepOptions,
) -> Result<(), AllocError>
    ensures { IfOk result (λ _. text.new.items ≡ text.old.items ++ heads_of protocols.now options.now) }
{
    let table = table_by(alloc, Protocol::Ghs)?;
    let says = says_protocol(options.sheet, options.by, protocols);
    text.extend_from_slice(protocol_head(says, options.form))?;
    put_head_by(alloc, text, &table, says, first_of(protocols), options)
}

/// The first of the protocols.
fn first_of(protocols: &[Protocol]) -> Protocol
    ensures { result ≡ first_of protocols.now }
{
    match protocols {
        [first, ..] => *first,
        [] => Protocol::Ghs,
    }
}

/// The same without a protocol's, of runs or of their parts.
fn put_head_by(
    alloc: Global,
    text: &mut Vec<u8>,
    table: &Table,
    says: bool,
    first: Protocol,
    options: &SweepOptions,
) -> Result<(), AllocError>
    ensures { IfOk result (λ _. text.new.items ≡ text.old.items ++ head_by says first table.now options.now.by options.now.form options.now.sheet) }
{
    match (options.by, options.form) {
        (None, _) => put_head_of(text, table, options),
        (Some(by), Form::Text) => put_part_head(alloc, text, says, first, by),
        (Some(_), Form::Json) => Ok(()),
    }
}

/// The same of parts.
fn put_part_head(
    alloc: Global,
    text: &mut Vec<u8>,
    says: bool,
    first: Protocol,
    by: By,
) -> Result<(), AllocError>
    ensures { IfOk result (λ _. text.new.items ≡ text.old.items ++ part_head by (part_columns says first by)) }
{
    let columns = part_columns(alloc, says, first, by)?;
    part_line::put_head(text, by, &columns)
}

/// Puts the lines of the sweeps of a graph by protocols behind a text, each behind the same front. Refusal: out of memory.
pub(crate) fn put_lines_by<R: Threads + Sync + Eprint>(
    rt: &R,
    alloc: Global,
    text: &mut Vec<u8>,
    protocols: &[Protocol],
    options: &SweepOptions,
    front: &[u8],
    graph: &Graph,
) -> Result<(), AllocError>
    requires { AreSweepLimits options.now }
    ensures { IfOk result (λ _. (lines : List ℕ) × AreLinesBy protocols.now options.now front.now graph.now lines × (text.new.items ≡ text.old.items ++ lines)) }
{
    let says = says_protocol(options.sheet, options.by, protocols);
    for protocol in protocols {
        let own = front_by(alloc, says, options.form, front, *protocol)?;
        put_lines_of(rt, alloc, text, says, *protocol, options, &own, graph)?;
    }
    Ok(())
}

/// Puts the lines of the sweep of a graph by a protocol behind a text, of its runs or of their parts, each behind the same
/// front.
fn put_lines_of<R: Threads + Sync + Eprint>(
    rt: &R,
    alloc: Global,
    text: &mut Vec<u8>,
    says: bool,
    protocol: Protocol,
    options: &SweepOptions,
    front: &[u8],
    graph: &Graph,
) -> Result<(), AllocError>
    requires { AreSweepLimits options.now }
    ensures { IfOk result (λ _. (lines : List ℕ) × AreLines says protocol options.now.by options.now front.now graph.now lines × (text.new.items ≡ text.old.items ++ lines)) }
{
    match options.by {
        None => put_swept(rt, alloc, text, protocol, options, front, graph),
        Some(by) => {
            let several = says;
            let parting = Parting {
                protocol,
                by,
                several,
            };
            put_parted(rt, alloc, text, options, parting, front, graph)
        }
    }
}

/// Puts the lines of the runs of a graph behind a text, each behind the same front. Refusal: out of memory.
fn put_swept<R: Threads + Sync + Eprint>(
    rt: &R,
    alloc: Global,
    text: &mut Vec<u8>,
    protocol: Protocol,
    options: &SweepOptions,
    front: &[u8],
    graph: &Graph,
) -> Result<(), AllocError>
    requires { AreSweepLimits options.now }
    ensures { IfOk result (λ _. (lines : List ℕ) × AreSweptLines protocol options.now front.now graph.now lines × (text.new.items ≡ text.old.items ++ lines)) }
{
    let table = table_by(alloc, protocol)?;
    let runs = runs_of(rt, alloc, protocol, graph, options)?;
    let setup = setup_of(options);
    put_sheet(alloc, text, options, setup, &table, front, &runs)?;
    Ok(())
}

/// The figures of the runs of a sweep, batch by batch. Where that is asked for, standard error is told after each batch
/// but the last how many of the seeds have been run.
pub(crate) fn runs_of<R: Threads + Sync + Eprint>(
    rt: &R,
    alloc: Global,
    protocol: Protocol,
    graph: &Graph,
    options: &SweepOptions,
) -> Result<Vec<Figures>, AllocError>
    requires { AreSweepLimits options.now }
    ensures runs { IfOk result (λ runs. AreRunsBy protocol graph.now (setup_of options.now) options.now.seeds.first runs.items) }
    ensures all { IfOk result (λ runs. length runs.items ≡ count_of options.now) }
{
    let Seeds { first, last } = options.seeds;
    let count = last - first + 1;
    let threads = options.workers.max(1);
    let setup = setup_of(options);
    let mut runs = Vec::new(alloc);
    let mut left = count;
    while left > 0 {
        let batch = batch_of(&runs, threads).min(left);
        run_seeds_by(
            rt, alloc, protocol, graph, setup, first, &mut runs, batch, threads,
        )?;
        left -= batch;
        tell_seeds(rt, options.progress, left, count);
    }
    Ok(runs)
}

/// How many seeds the next batch has: for each thread as many as make some `BATCH` events, by what the last run took, and
/// one at least.
fn batch_of(runs: &[Figures], threads: u32) -> u64
    requires { (1 ≤ threads) × (threads ≤ 64) }
    ensures { 1 ≤ result }
{
    let each = match runs.last() {
        Some(run) => BATCH / run.events.max(1),
        None => 1,
    };
    each.max(1) * u64::from(threads)
}
