//! Runs by part.
use crate::comparing::assert_same;
use boruvka::protocol::Boruvka;
use ghs_choices::by::By;
use ghs_choices::form::Form;
use ghs_choices::schedule_kind::ScheduleKind;
use ghs_core::event::Event;
use ghs_graph::graph::Graph;
use ghs_parts::lines::put_run;
use ghs_parts::part::Part;
use ghs_parts::parts::parts_of;
use ghs_refusing::orders::{Turn, order, refuse, turn_of};
use ghs_refusing::scenes::{events_of_run, five, is_after, let_go, world_after};
use ghs_sweep::seeded::Ghs;
use ghs_world::world::World;
use peer_network::wake_set::WakeSet;
use peer_parts::columns::{columns_by, names_of};
use peer_parts::seeded::put_seed;
use peer_sweep::rules::ByRules;
use peer_sweep::setup::Setup;
use peer_texts::trace::EVENT_LIMIT;
use std::alloc::{AllocError, Global};
use std::process::Abort;
use std::test::Fail;

/// The figures of a world's run by part.
fn parts_in(alloc: Global, world: &World, by: By) -> Result<Vec<Part>, AllocError> {
    let _ = world.turns();
    parts_of(alloc, world.graph(), world.trace(), by)
}

/// Parts that are found are those of a world where nothing is refused.
fn assert_parts(rt: &impl Abort, alloc: Global, world: &World, by: By, parts: &[Part]) {
    let whole = parts_in(alloc, world, by).expect(rt, "parts");
    assert!(rt; parts == whole.as_slice());
}

/// The figures of a world's run by part.
fn parts_refused(rt: &impl Abort, alloc: Global, world: &World, by: By, k: usize) -> Turn {
    order(alloc, k);
    let answer = parts_in(alloc, world, by);
    let turn = turn_of(alloc, k, &answer);
    if let Ok(parts) = answer {
        assert_parts(rt, alloc, world, by, &parts);
    }
    turn
}

/// The same; the world stands.
fn take_parts(rt: &impl Abort, alloc: Global, events: &[Event], by: By, k: usize) -> Turn {
    let world = world_after(alloc, events).expect(rt, "a run");
    let turn = parts_refused(rt, alloc, &world, by, k);
    assert!(rt; is_after(alloc, &world, events));
    let_go(world);
    turn
}

/// The lines of a world's run by part.
fn lines_in(alloc: Global, world: &World, form: Form, by: By) -> Result<Vec<u8>, AllocError> {
    let mut text = Vec::from_slice(alloc, b"head\n")?;
    let columns = columns_by::<Ghs>(alloc, by, &names_of::<Ghs>(alloc)?)?;
    let _ = world.turns();
    put_run(
        alloc,
        &mut text,
        form,
        b"front,",
        by,
        7,
        &columns,
        world.graph(),
        world.trace(),
    )?;
    Ok(text)
}

/// The lines are those that are put where nothing is refused.
fn lines_refused(rt: &impl Abort, alloc: Global, world: &World, form: Form, k: usize) -> Turn {
    let whole = lines_in(alloc, world, form, By::Level).expect(rt, "lines");
    order(alloc, k);
    let answer = lines_in(alloc, world, form, By::Level);
    let turn = turn_of(alloc, k, &answer);
    assert_same(rt, answer, &whole);
    turn
}

fn put_lines(rt: &impl Abort, alloc: Global, events: &[Event], form: Form, k: usize) -> Turn {
    let world = world_after(alloc, events).expect(rt, "a run");
    let turn = lines_refused(rt, alloc, &world, form, k);
    let_go(world);
    turn
}

static BYS: [(&str, By); 3] = [
    ("parts_of(node)", By::Node),
    ("parts_of(level)", By::Level),
    ("parts_of(rule)", By::Rule),
];

fn refuse_parts<R: Print + Abort>(
    rt: &R,
    alloc: Global,
    events: &[Event],
    rows: &[(&str, By)],
) -> Result<(), Fail> {
    for (name, by) in rows {
        refuse(rt, alloc, name, |k| take_parts(rt, alloc, events, *by, k))?;
    }
    Ok(())
}

#[test]
fn parts(host: HostRuntime) -> Result<(), Fail> {
    let (rt, alloc) = (&host, host.alloc());
    let events = events_of_run(alloc).expect(rt, "a run");
    refuse_parts(rt, alloc, &events, &BYS)
}

static FORMS: [(&str, Form); 2] = [("put_run", Form::Text), ("put_run(JSON)", Form::Json)];

fn refuse_lines<R: Print + Abort>(
    rt: &R,
    alloc: Global,
    events: &[Event],
    rows: &[(&str, Form)],
) -> Result<(), Fail> {
    for (name, form) in rows {
        refuse(rt, alloc, name, |k| put_lines(rt, alloc, events, *form, k))?;
    }
    Ok(())
}

#[test]
fn lines_of_parts(host: HostRuntime) -> Result<(), Fail> {
    let (rt, alloc) = (&host, host.alloc());
    let events = events_of_run(alloc).expect(rt, "a run");
    refuse_lines(rt, alloc, &events, &FORMS)
}

const SETUP: Setup = Setup {
    schedule_kind: ScheduleKind::Seeded,
    wake: WakeSet::All,
    turns: EVENT_LIMIT,
};

/// The lines of a seed's run by Borůvka in step, by part.
fn seed_in(alloc: Global, graph: &Graph, by: By) -> Result<Vec<u8>, AllocError> {
    let mut text = Vec::from_slice(alloc, b"head\n")?;
    let names = names_of::<ByRules<Boruvka>>(alloc)?;
    let columns = columns_by::<ByRules<Boruvka>>(alloc, by, &names)?;
    put_seed::<Boruvka>(
        alloc,
        (),
        &mut text,
        Form::Text,
        b"front,",
        by,
        &columns,
        graph,
        SETUP,
        7,
    )?;
    Ok(text)
}

/// They are those that are put where nothing is refused.
fn seed_refused(rt: &impl Abort, alloc: Global, by: By, k: usize) -> Turn {
    let graph = five(alloc).expect(rt, "a graph");
    let whole = seed_in(alloc, &graph, by).expect(rt, "lines");
    order(alloc, k);
    let answer = seed_in(alloc, &graph, by);
    let turn = turn_of(alloc, k, &answer);
    assert_same(rt, answer, &whole);
    turn
}

static SEEDS: [(&str, By); 2] = [("put_seed(node)", By::Node), ("put_seed(rule)", By::Rule)];

fn refuse_seeds<R: Print + Abort>(rt: &R, alloc: Global, rows: &[(&str, By)]) -> Result<(), Fail> {
    for (name, by) in rows {
        refuse(rt, alloc, name, |k| seed_refused(rt, alloc, *by, k))?;
    }
    Ok(())
}

#[test]
fn parts_in_step(host: HostRuntime) -> Result<(), Fail> {
    let (rt, alloc) = (&host, host.alloc());
    refuse_seeds(rt, alloc, &SEEDS)
}
