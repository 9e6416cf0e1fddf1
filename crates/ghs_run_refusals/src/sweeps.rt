//! Sweeps, and the figures that they are made of.
ghost use Rattle.ghs_sweep.specs.Sweep.{AreFiguresOf};
ghost use Rattle.peer_sweep.specs.Figures.{LeavesRoom};
ghost use Rattle.peer_sweep.specs.Sweep.{AreRuns, HasTurns};
ghost use Rattle.std.specs.Prelude.{◌≡◌, ◌≤◌, ◌^◌, All, IfOk, length};

use crate::comparing::assert_same;
use boruvka::protocol::Boruvka;
use ghs_choices::form::Form;
use ghs_choices::schedule_kind::ScheduleKind;
use ghs_core::event::Event;
use ghs_graph::graph::Graph;
use ghs_refusing::orders::{Turn, order, refuse, turn_of};
use ghs_refusing::scenes::{events_of_run, five, is_after, is_five, let_go, world_after};
use ghs_sweep::figures::figures_of;
use ghs_sweep::seeded::{Ghs, figures_of_seed};
use ghs_world::world::World;
use peer_network::wake_set::WakeSet;
use peer_sweep::figures::Figures;
use peer_sweep::front::{bare_front, front_of};
use peer_sweep::line::{put_head, put_line};
use peer_sweep::lines::put_runs;
use peer_sweep::rules::ByRules;
use peer_sweep::runs::run_seeds;
use peer_sweep::setup::Setup;
use peer_sweep::summary::put_summary;
use peer_sweep::swept::Swept;
use peer_sweep::table::Table;
use peer_texts::trace::EVENT_LIMIT;
use peer_words::value::Word;
use std::alloc::{AllocError, Global};
use std::process::Abort;
use std::test::Fail;
use std::thread::Threads;

const SETUP: Setup = Setup {
    schedule_kind: ScheduleKind::Patient,
    wake: WakeSet::All,
    turns: EVENT_LIMIT,
};

/// How lines of GHS are laid out that have a column for a kind of its own and one for another's.
fn table(alloc: Global) -> Result<Table<'static>, AllocError> {
    Table::of::<Ghs>(alloc, &[Word::of(b"connect"), Word::of(b"echo")])
}

/// The figures of a world's net, which has no more events than the world has turns.
fn figures_in(alloc: Global, world: &World) -> Result<Figures, AllocError> {
    let _ = world.turns();
    figures_of(alloc, world.net())
}

/// These are the figures of a world's net.
fn assert_figures_in(rt: &impl Abort, alloc: Global, world: &World, figures: &Figures) {
    let whole = figures_in(alloc, world).expect(rt, "figures");
    assert!(rt; *figures == whole);
}

/// The figures that are taken of a world's net are those that it has where nothing is refused.
fn figures_refused(rt: &impl Abort, alloc: Global, world: &World, k: usize) -> Turn {
    order(alloc, k);
    let answer = figures_in(alloc, world);
    let turn = turn_of(alloc, k, &answer);
    if let Ok(figures) = answer {
        assert_figures_in(rt, alloc, world, &figures);
    }
    turn
}

/// The same; the world stands.
fn take_figures(rt: &impl Abort, alloc: Global, events: &[Event], k: usize) -> Turn {
    let world = world_after(alloc, events).expect(rt, "a run");
    let turn = figures_refused(rt, alloc, &world, k);
    assert!(rt; is_after(alloc, &world, events));
    let_go(world);
    turn
}

/// The figures of one seed's run.
fn figures_by(rt: &impl Abort, alloc: Global, graph: &Graph, seed: u64) -> Figures {
    figures_of_seed(alloc, graph, SETUP, seed).expect(rt, "figures")
}

/// These are the figures of one seed's run.
fn assert_figures_by(rt: &impl Abort, alloc: Global, graph: &Graph, seed: u64, figures: &Figures) {
    let own = figures_by(rt, alloc, graph, seed);
    assert!(rt; *figures == own);
}

/// The figures of one seed's run are those that it has where nothing is refused.
fn seed_figures_refused(rt: &impl Abort, alloc: Global, graph: &Graph, k: usize) -> Turn {
    order(alloc, k);
    let answer = figures_of_seed(alloc, graph, SETUP, 7);
    let turn = turn_of(alloc, k, &answer);
    if let Ok(figures) = answer {
        assert_figures_by(rt, alloc, graph, 7, &figures);
    }
    turn
}

/// The figures of one seed's run by Borůvka in step.
fn figures_in_step(alloc: Global, graph: &Graph) -> Result<Figures, AllocError> {
    ByRules::<Boruvka>::figures_of_seed(alloc, graph, SETUP, 7)
}

/// They are those that it has where nothing is refused, and the graph stands.
fn take_figures_in_step(rt: &impl Abort, alloc: Global, k: usize) -> Turn {
    let graph = five(alloc).expect(rt, "a graph");
    let whole = figures_in_step(alloc, &graph).expect(rt, "figures");
    order(alloc, k);
    let answer = figures_in_step(alloc, &graph);
    let turn = turn_of(alloc, k, &answer);
    if let Ok(figures) = answer {
        assert!(rt; figures == whole);
    }
    assert!(rt; is_five(alloc, &graph));
    turn
}

/// The same; the graph stands.
fn take_seed_figures(rt: &impl Abort, alloc: Global, k: usize) -> Turn {
    let graph = five(alloc).expect(rt, "a graph");
    let turn = seed_figures_refused(rt, alloc, &graph, k);
    assert!(rt; is_five(alloc, &graph));
    turn
}

/// The figures of the runs of so many seeds, from 1 on.
fn first_runs<R: Threads + Sync>(
    rt: &R,
    alloc: Global,
    graph: &Graph,
    setup: Setup,
    count: u64,
) -> Result<Vec<Figures>, AllocError>
    requires turns { HasTurns setup }
    requires count { (1 ≤ count) × (count ≤ 9) }
    ensures runs { IfOk result (λ runs. AreRuns AreFiguresOf graph.now setup 1 runs.items) }
    ensures count { IfOk result (λ runs. length runs.items ≡ count) }
    ensures small { IfOk result (λ runs. All LeavesRoom runs.items) }
{
    let mut runs = Vec::new(alloc);
    run_seeds::<Ghs, R>(rt, alloc, graph, setup, 1, &mut runs, count, 1)?;
    Ok(runs)
}

/// Three runs behind the first one.
fn go_on<R: Threads + Sync + Abort>(
    rt: &R,
    alloc: Global,
    graph: &Graph,
    threads: u32,
    k: usize,
) -> (Turn, Vec<Figures>) {
    assert!(rt; threads >= 1);
    let mut runs = first_runs(rt, alloc, graph, SETUP, 1).expect(rt, "a run");
    order(alloc, k);
    let answer = run_seeds::<Ghs, R>(rt, alloc, graph, SETUP, 1, &mut runs, 3, threads);
    (turn_of(alloc, k, &answer), runs)
}

/// These are the runs of so many seeds, from 1 on.
fn assert_runs(rt: &impl Abort, alloc: Global, graph: &Graph, runs: &[Figures], count: usize) {
    assert!(rt; runs.len() == count);
    for (place, run) in runs.iter().enumerate() {
        let seed = (place as u64).saturating_add(1);
        assert_figures_by(rt, alloc, graph, seed, run);
    }
}

/// Runs have their text.
fn assert_text(rt: &impl Abort, alloc: Global, runs: &[Figures]) {
    assert!(rt; runs.len() <= 4);
    let table = table(alloc).expect(rt, "a table");
    let mut text = Vec::new(alloc);
    assert!(rt; put_runs(&mut text, Form::Text, b"", &table, SETUP, 1, runs).is_ok());
}

/// Three runs behind the first one; refused, that one stands, and has its text. The graph stands.
fn sweep_on<R: Threads + Sync + Abort>(rt: &R, alloc: Global, threads: u32, k: usize) -> Turn {
    let graph = five(alloc).expect(rt, "a graph");
    let (turn, runs) = go_on(rt, alloc, &graph, threads, k);
    let stand = if turn == Turn::Refused { 1 } else { 4 };
    assert_runs(rt, alloc, &graph, &runs, stand);
    assert_text(rt, alloc, &runs);
    assert!(rt; is_five(alloc, &graph));
    turn
}

/// The lines of runs, or of their summary.
#[derive(Clone, Copy)]
enum Sheet {
    Lines(Form),
    Summary(Form),
}

/// The lines of the runs of a network whose name needs quotes.
fn lines_of(alloc: Global, form: Form, runs: &[Figures]) -> Result<Vec<u8>, AllocError>
    requires { length runs.now ≤ 2 ^ 32 }
{
    let front = front_of(alloc, form, "a \"five\", or so")?;
    let table = table(alloc)?;
    let mut text = Vec::new(alloc);
    put_head(&mut text, &table)?;
    put_runs(&mut text, form, &front, &table, SETUP, 1, runs)?;
    Ok(text)
}

/// Their summary.
fn summary_of(alloc: Global, form: Form, runs: &[Figures]) -> Result<Vec<u8>, AllocError>
    requires few { length runs.now ≤ 2 ^ 32 }
    requires small { All LeavesRoom runs.now }
{
    let table = table(alloc)?;
    let mut text = Vec::new(alloc);
    put_summary(alloc, &mut text, form, bare_front(form), &table, runs)?;
    Ok(text)
}

/// What is printed of runs.
fn sheet_of(alloc: Global, sheet: Sheet, runs: &[Figures]) -> Result<Vec<u8>, AllocError>
    requires few { length runs.now ≤ 2 ^ 32 }
    requires small { All LeavesRoom runs.now }
{
    match sheet {
        Sheet::Lines(form) => lines_of(alloc, form, runs),
        Sheet::Summary(form) => summary_of(alloc, form, runs),
    }
}

/// The figures of the first two runs of the five nodes.
fn two_runs<R: Threads + Sync + Abort>(rt: &R, alloc: Global) -> Vec<Figures>
    ensures count { length result.items ≡ 2 }
    ensures small { All LeavesRoom result.items }
{
    let graph = five(alloc).expect(rt, "a graph");
    first_runs(rt, alloc, &graph, SETUP, 2).expect(rt, "runs")
}

/// What is printed of two runs is what is printed where nothing is refused.
fn print_sheet<R: Threads + Sync + Abort>(rt: &R, alloc: Global, sheet: Sheet, k: usize) -> Turn {
    let runs = two_runs(rt, alloc);
    let whole = sheet_of(alloc, sheet, &runs).expect(rt, "a text");
    order(alloc, k);
    let answer = sheet_of(alloc, sheet, &runs);
    let turn = turn_of(alloc, k, &answer);
    assert_same(rt, answer, &whole);
    turn
}

/// The figures of the seventh seed's run of the five nodes.
fn seventh(rt: &impl Abort, alloc: Global) -> Figures {
    let graph = five(alloc).expect(rt, "a graph");
    figures_by(rt, alloc, &graph, 7)
}

/// A line is whole behind what there was, unless it was refused.
fn assert_line(rt: &impl Abort, text: &[u8], turn: Turn) {
    let is_whole = text.ends_with(b",halted,14,306,15\n");
    assert!(rt; text.starts_with(b"head\n") && is_whole == (turn != Turn::Refused));
}

/// A run's line behind what there is.
fn put_figures(rt: &impl Abort, alloc: Global, k: usize) -> Turn {
    let figures = seventh(rt, alloc);
    let table = table(alloc).expect(rt, "a table");
    let mut text = Vec::from_slice(alloc, b"head\n").expect(rt, "memory");
    order(alloc, k);
    let answer = put_line(&mut text, &table, 7, SETUP, &figures);
    let turn = turn_of(alloc, k, &answer);
    assert_line(rt, &text, turn);
    turn
}

#[test]
fn figures_of_runs(host: HostRuntime) -> Result<(), Fail> {
    let (rt, alloc) = (&host, host.alloc());
    let events = events_of_run(alloc).expect(rt, "a run");
    refuse(
        rt,
        alloc,
        "figures_of",
        |k| take_figures(rt, alloc, &events, k),
    )?;
    refuse(
        rt,
        alloc,
        "figures_of_seed",
        |k| take_seed_figures(rt, alloc, k),
    )?;
    refuse(
        rt,
        alloc,
        "figures_of_seed(boruvka)",
        |k| take_figures_in_step(rt, alloc, k),
    )?;
    refuse(rt, alloc, "put_line", |k| put_figures(rt, alloc, k))
}

#[test]
fn sweeps(host: HostRuntime) -> Result<(), Fail> {
    let (rt, alloc) = (&host, host.alloc());
    refuse(rt, alloc, "run_seeds(1)", |k| sweep_on(rt, alloc, 1, k))?;
    refuse(rt, alloc, "run_seeds(2)", |k| sweep_on(rt, alloc, 2, k))
}

static SHEETS: [(&str, Sheet); 4] = [
    ("put_runs(text)", Sheet::Lines(Form::Text)),
    ("put_runs(json)", Sheet::Lines(Form::Json)),
    ("put_summary(text)", Sheet::Summary(Form::Text)),
    ("put_summary(json)", Sheet::Summary(Form::Json)),
];

fn refuse_sheets<R: Threads + Sync + Print + Abort>(
    rt: &R,
    alloc: Global,
    rows: &[(&str, Sheet)],
) -> Result<(), Fail> {
    for (name, sheet) in rows {
        refuse(rt, alloc, name, |k| print_sheet(rt, alloc, *sheet, k))?;
    }
    Ok(())
}

#[test]
fn sheets(host: HostRuntime) -> Result<(), Fail> {
    refuse_sheets(&host, host.alloc(), &SHEETS)
}
