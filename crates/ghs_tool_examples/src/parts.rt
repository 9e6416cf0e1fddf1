//! A worked run, counted by hand from what its steps say.
use crate::fixtures::{events_of_text, replayed};
use ghs_choices::by::By;
use ghs_choices::form::Form;
use ghs_parts::lines::put_run;
use ghs_refusing::scenes::let_go;
use ghs_sweep::seeded::Ghs;
use ghs_test_graphs::graphs::TRIANGLE;
use ghs_test_graphs::traces::TRIANGLE_TRACE;
use ghs_world::world::World;
use peer_network::wake_set::WakeSet;
use peer_parts::columns::{Column, columns_by, names_of};
use peer_parts::line::put_head;
use std::alloc::Global;
use std::process::Abort;

const BY_NODE: &str = "\
seed,node,connect,initiate,test,accept,reject,report,changeroot\n\
7,1,1,1,1,0,0,1,0\n\
7,2,1,2,1,0,0,1,0\n\
7,3,1,0,1,0,1,1,0\n\
";

const BY_LEVEL: &str = "\
seed,level,connect,initiate,test,accept,reject,report,changeroot\n\
7,0,3,2,0,0,0,0,0\n\
7,1,0,1,3,0,1,3,0\n\
";

const BY_RULE: &str = "\
seed,rule,times\n\
7,Wakes,1\n\
7,Wakes_alone,0\n\
7,Woken_merges,1\n\
7,Woken_connect_waits,0\n\
7,Woken_test_waits,1\n\
7,Woken_accepts,0\n\
7,Connect_absorbed,1\n\
7,Connect_waits,0\n\
7,Connect_merges,1\n\
7,Initiate_rests,0\n\
7,Initiate_searches,3\n\
7,Test_waits,1\n\
7,Test_accepted,0\n\
7,Test_rejected,1\n\
7,Tests_cross,2\n\
7,Accept_heard,0\n\
7,Reject_heard,1\n\
7,Report_heard,1\n\
7,Report_waits,0\n\
7,Report_moves_root,0\n\
7,Root_moves,0\n\
7,Report_halts,1\n\
7,Report_passes,0\n\
";

const BY_NODE_JSON: &str = "\
{\"seed\":7,\"node\":1,\"connect\":1,\"initiate\":1,\"test\":1,\"accept\":0,\"reject\":0,\"report\":1,\"changeroot\":0}\n\
{\"seed\":7,\"node\":2,\"connect\":1,\"initiate\":2,\"test\":1,\"accept\":0,\"reject\":0,\"report\":1,\"changeroot\":0}\n\
{\"seed\":7,\"node\":3,\"connect\":1,\"initiate\":0,\"test\":1,\"accept\":0,\"reject\":1,\"report\":1,\"changeroot\":0}\n\
";

const BY_LEVEL_JSON: &str = "\
{\"seed\":7,\"level\":0,\"connect\":3,\"initiate\":2,\"test\":0,\"accept\":0,\"reject\":0,\"report\":0,\"changeroot\":0}\n\
{\"seed\":7,\"level\":1,\"connect\":0,\"initiate\":1,\"test\":3,\"accept\":0,\"reject\":1,\"report\":3,\"changeroot\":0}\n\
";

/// The world after the run of the triangle.
fn triangle_run(rt: &impl Abort, alloc: Global) -> World {
    let events = events_of_text(rt, alloc, TRIANGLE_TRACE);
    replayed(rt, alloc, TRIANGLE, WakeSet::All, &events)
}

/// The columns by a kind of part.
fn columns(rt: &impl Abort, alloc: Global, by: By) -> Vec<Column> {
    let names = names_of::<Ghs>(alloc).expect(rt, "memory");
    columns_by::<Ghs>(alloc, by, &names).expect(rt, "memory")
}

/// Their names, as a line.
fn head(rt: &impl Abort, alloc: Global, by: By) -> Vec<u8> {
    let mut text = Vec::new(alloc);
    put_head(&mut text, by, &columns(rt, alloc, by)).expect(rt, "memory");
    text
}

/// Puts the lines of a run, each behind a front, behind a text.
fn put_lines(
    rt: &impl Abort,
    alloc: Global,
    text: &mut Vec<u8>,
    form: Form,
    front: &[u8],
    by: By,
    world: &World,
) {
    let columns = columns(rt, alloc, by);
    let _ = world.turns();
    let put = put_run(
        alloc,
        text,
        form,
        front,
        by,
        7,
        &columns,
        world.graph(),
        world.trace(),
    );
    assert!(rt; put.is_ok());
}

/// A text, and behind it the lines of the run of the triangle, each behind a front.
fn text_of(
    rt: &impl Abort,
    alloc: Global,
    head: &[u8],
    form: Form,
    front: &[u8],
    by: By,
) -> Vec<u8> {
    let world = triangle_run(rt, alloc);
    let mut text = Vec::from_slice(alloc, head).expect(rt, "memory");
    put_lines(rt, alloc, &mut text, form, front, by, &world);
    let_go(world);
    text
}

fn assert_text(rt: &impl Abort, found: &[u8], text: &str) {
    assert_eq!(rt; found, text.as_bytes());
}

/// The lines by a kind of part, behind their head.
fn assert_lines(rt: &impl Abort, alloc: Global, by: By, lines: &str) {
    let text = text_of(rt, alloc, &head(rt, alloc, by), Form::Text, b"", by);
    assert_text(rt, &text, lines);
}

#[test]
fn whole_runs(rt: HostRuntime) {
    assert_lines(&rt, rt.alloc(), By::Node, BY_NODE);
    assert_lines(&rt, rt.alloc(), By::Level, BY_LEVEL);
    assert_lines(&rt, rt.alloc(), By::Rule, BY_RULE);
}

fn assert_json_lines(rt: &impl Abort, alloc: Global, by: By, lines: &str) {
    let text = text_of(rt, alloc, b"", Form::Json, b"{", by);
    assert_text(rt, &text, lines);
}

/// The same as JSON.
#[test]
fn json_lines(rt: HostRuntime) {
    assert_json_lines(&rt, rt.alloc(), By::Node, BY_NODE_JSON);
    assert_json_lines(&rt, rt.alloc(), By::Level, BY_LEVEL_JSON);
}

const FRONT: &str = "{\"graph\":\"t\",";

const FIRST_RULES: &str =
    "{\"graph\":\"t\",\"seed\":7,\"rule\":\"Wakes\",\"times\":1}\n{\"graph\":\"t\",\"seed\":7,\"rule\":\"Wakes_alone\",\"times\":0}\n";

/// Of a row of the table its word and how often it applied, behind the front of a network's lines.
#[test]
fn json_rules(rt: HostRuntime) {
    let front = FRONT.as_bytes();
    let text = text_of(&rt, rt.alloc(), b"", Form::Json, front, By::Rule);
    assert!(rt; text.starts_with(FIRST_RULES.as_bytes()));
}
