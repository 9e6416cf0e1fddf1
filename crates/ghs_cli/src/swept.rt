//! How each protocol is swept. A further protocol has a line in each function by protocols here.
ghost use Rattle.ghs_cli.specs.Swept.{AreRunsBy, IsBoundBy, kind_columns, layout_by, part_columns, part_names};
ghost use Rattle.peer_sweep.specs.Sweep.{HasTurns};
ghost use Rattle.std.specs.Prelude.{◌≡◌, ◌+◌, ◌≤◌, ◌^◌, IfOk, OnErr, length};

use crate::gathered::Gathered;
use boruvka::protocol::Boruvka;
use echo::protocol::Echo;
use gather::protocol::message_bound;
use ghs_choices::by::By;
use ghs_graph::bounds::bound;
use ghs_graph::graph::Graph;
use ghs_sweep::seeded::Ghs;
use peer_machine::protocol::Protocol as Rules;
use peer_parts::columns::{Column, columns_by, names_of};
use peer_sweep::figures::Figures;
use peer_sweep::rules::ByRules;
use peer_sweep::runs::run_seeds;
use peer_sweep::setup::Setup;
use peer_sweep::table::Table;
use peer_trace::protocol::Protocol;
use peer_words::value::Word;
use std::alloc::{AllocError, Global};
use std::thread::Threads;

/// The names of the columns of kinds of messages: those of GHS, and behind them those that only others have.
fn kind_columns() -> [Word<'static>; 12]
    ensures { result ≡ kind_columns }
{
    [
        Word::of(b"connect"),
        Word::of(b"initiate"),
        Word::of(b"test"),
        Word::of(b"accept"),
        Word::of(b"reject"),
        Word::of(b"report"),
        Word::of(b"changeroot"),
        Word::of(b"name"),
        Word::of(b"explore"),
        Word::of(b"echo"),
        Word::of(b"back"),
        Word::of(b"tree"),
    ]
}

/// How the lines of a protocol's runs are laid out. Refusal: out of memory.
pub(crate) fn table_by(alloc: Global, protocol: Protocol) -> Result<Table<'static>, AllocError>
    ensures { IfOk result (λ t. t ≡ layout_by protocol) }
{
    let kinds = kind_columns();
    match protocol {
        Protocol::Ghs => Table::of::<Ghs>(alloc, &kinds),
        Protocol::Boruvka => Table::of::<ByRules<Boruvka>>(alloc, &kinds),
        Protocol::Echo => Table::of::<ByRules<Echo>>(alloc, &kinds),
        Protocol::Gather => Table::of::<Gathered>(alloc, &kinds),
    }
}

/// Goes on with the runs of seeds by a protocol, as `run_seeds` does. Refusal: out of memory; then those that there are stay.
pub(crate) fn run_seeds_by<R: Threads + Sync>(
    rt: &R,
    alloc: Global,
    protocol: Protocol,
    graph: &Graph,
    setup: Setup,
    first: u64,
    runs: &mut Vec<Figures>,
    count: u64,
    threads: u32,
) -> Result<(), AllocError>
    requires turns { HasTurns setup }
    requires before { AreRunsBy protocol graph.now setup first runs.old.items }
    requires some { 1 ≤ count }
    requires seeds { first + length runs.old.items + count ≤ 2 ^ 64 }
    requires threads { 1 ≤ threads }
    ensures runs { IfOk result (λ _. AreRunsBy protocol graph.now setup first runs.new.items) }
    ensures count { IfOk result (λ _. length runs.new.items ≡ length runs.old.items + count) }
    ensures err { OnErr result (runs.new.items ≡ runs.old.items) }
{
    match protocol {
        Protocol::Ghs => {
            run_seeds::<Ghs, R>(rt, alloc, graph, setup, first, runs, count, threads)
        }
        Protocol::Boruvka => {
            run_seeds::<ByRules<Boruvka>, R>(rt, alloc, graph, setup, first, runs, count, threads)
        }
        Protocol::Echo => run_seeds::<ByRules<Echo>, R>(
            rt, alloc, graph, setup, first, runs, count, threads,
        ),
        Protocol::Gather => {
            run_seeds::<Gathered, R>(rt, alloc, graph, setup, first, runs, count, threads)
        }
    }
}

/// The bound on the messages of a run of a graph.
pub(crate) fn bound_by(protocol: Protocol, graph: &Graph) -> u64
    ensures { IsBoundBy protocol graph.now result }
{
    match protocol {
        Protocol::Ghs => bound(graph.nodes(), graph.links()),
        Protocol::Boruvka => Boruvka::bound_of((), graph),
        Protocol::Echo => Echo::bound_of((), graph),
        Protocol::Gather => message_bound(graph),
    }
}

/// The columns of the counts of a protocol's parts: of its own kinds of messages, or of those of all where there are several
/// protocols. Refusal: out of memory.
pub(crate) fn part_columns(
    alloc: Global,
    several: bool,
    protocol: Protocol,
    by: By,
) -> Result<Vec<Column>, AllocError>
    ensures { IfOk result (λ columns. columns.items ≡ part_columns several protocol by) }
{
    let names = part_names(alloc, several, protocol)?;
    match protocol {
        Protocol::Ghs => columns_by::<Ghs>(alloc, by, &names),
        Protocol::Boruvka => columns_by::<ByRules<Boruvka>>(alloc, by, &names),
        Protocol::Echo => columns_by::<ByRules<Echo>>(alloc, by, &names),
        Protocol::Gather => columns_by::<Gathered>(alloc, by, &names),
    }
}

/// The names of these kinds.
fn part_names(
    alloc: Global,
    several: bool,
    protocol: Protocol,
) -> Result<Vec<Word<'static>>, AllocError>
    ensures { IfOk result (λ names. names.items ≡ part_names several protocol) }
{
    if several {
        return Ok(Vec::from_array(alloc, kind_columns())?);
    }
    match protocol {
        Protocol::Ghs => names_of::<Ghs>(alloc),
        Protocol::Boruvka => names_of::<ByRules<Boruvka>>(alloc),
        Protocol::Echo => names_of::<ByRules<Echo>>(alloc),
        Protocol::Gather => names_of::<Gathered>(alloc),
    }
}
