//! Worked runs of Borůvka in step, line by line.
use crate::playing::graph_of_text;
use crate::runs::{FOUR_RUN, PAIR_RUN, PATH_RUN, TRIANGLE_RUN};
use boruvka::protocol::Boruvka;
use ghs_choices::choice::Choice;
use ghs_choices::form::Form;
use ghs_gr::device::Device;
use ghs_test_graphs::graphs::{LONE_NODE, PAIR, PATH_OF_FOUR, PATH_OF_THREE, TRIANGLE};
use peer_machine::event::Event;
use peer_network::wake_set::WakeSet;
use peer_runs::replay::replay;
use peer_steps::fault::StepsFault;
use peer_steps::show::write_steps;
use peer_steps::write::put_lines;
use std::alloc::Global;
use std::process::Abort;

const ALL: Choice = Choice {
    from: 1,
    to: u64::MAX,
    node: None,
};

const PAIR_LINES: &str = "\
1 2 - - wake Wakes - phase=rest;out=0 0>1:connect(0) 1\n\
2 1 0 2 connect(0) Connect_core done mark.0=branch;level=1;name=5:1-2;phase=search 0>2:connect(0);0>2:initiate(1,5:1-2) 3\n\
3 2 0 1 connect(0) Connect_core done mark.0=asked - 3\n\
4 2 0 1 initiate(1,5:1-2) Initiate_enters done mark.0=branch;level=1;name=5:1-2;parent=0;out=- 0>1:report(-) 4\n\
5 1 0 2 report(-) Report_heard done phase=rest;halted=yes - 4\n\
";

const TRIANGLE_LINES: &str = "\
1 1 - - wake Wakes - phase=rest;out=0 0>2:connect(0) 1\n\
2 2 - - wake Wakes - phase=rest;out=0 0>1:connect(0) 2\n\
3 3 - - wake Wakes - phase=rest;out=0 0>2:connect(0) 3\n\
4 2 0 1 connect(0) Connect_core done mark.0=asked - 3\n\
5 1 0 2 connect(0) Connect_core done mark.0=branch;level=1;name=1:1-2;phase=search;out=- 0>2:initiate(1,1:1-2);1>3:name(1,1:1-2) 5\n\
6 2 1 3 connect(0) Connect_noted done mark.1=asked - 5\n\
7 2 0 1 initiate(1,1:1-2) Initiate_enters done mark.0=branch;mark.1=branch;level=1;name=1:1-2;phase=search;parent=0;out=- 1>3:initiate(1,1:1-2) 6\n\
8 3 0 2 initiate(1,1:1-2) Initiate_enters done mark.0=branch;level=1;name=1:1-2;phase=search;parent=0;out=- 1>1:name(1,1:1-2) 7\n\
9 3 1 1 name(1,1:1-2) Name_heard done mark.1=inside;phase=rest 0>2:report(-) 8\n\
10 1 1 3 name(1,1:1-2) Name_heard done mark.1=inside - 8\n\
11 2 1 3 report(-) Report_heard done phase=rest 0>1:report(-) 9\n\
12 1 0 2 report(-) Report_heard done phase=rest;halted=yes - 9\n\
";

/// What node 2 does in that run, its wake aside.
const TRIANGLE_LINES_OF_2: &str = "\
4 2 0 1 connect(0) Connect_core done mark.0=asked - 3\n\
6 2 1 3 connect(0) Connect_noted done mark.1=asked - 5\n\
7 2 0 1 initiate(1,1:1-2) Initiate_enters done mark.0=branch;mark.1=branch;level=1;name=1:1-2;phase=search;parent=0;out=- 1>3:initiate(1,1:1-2) 6\n\
";

const PATH_LINES: &str = "\
1 1 - - wake Wakes - phase=rest;out=0 0>2:connect(0) 1\n\
2 2 0 1 connect(0) Connect_core done mark.0=asked;phase=rest;out=0 0>1:connect(0) 2\n\
3 1 0 2 connect(0) Connect_core done mark.0=branch;level=1;name=5:1-2;phase=search;out=- 0>2:initiate(1,5:1-2) 3\n\
4 2 0 1 initiate(1,5:1-2) Initiate_enters done mark.0=branch;level=1;name=5:1-2;phase=search;parent=0;out=- 1>3:name(1,5:1-2) 4\n\
5 3 0 2 name(1,5:1-2) Name_heard done phase=rest;out=0 0>2:connect(0) 5\n\
6 2 1 3 connect(0) Connect_late done mark.1=branch 1>3:initiate(1,5:1-2) 6\n\
7 3 0 2 initiate(1,5:1-2) Initiate_enters done mark.0=branch;level=1;name=5:1-2;parent=0;out=- 0>2:report(-) 7\n\
8 2 1 3 report(-) Report_heard done phase=rest 0>1:report(-) 8\n\
9 1 0 2 report(-) Report_heard done phase=rest;halted=yes - 8\n\
";

/// From the eleventh to the seventeenth: a link is reported, the root moves to it, and node 2 enters level 2.
const FOUR_LINES: &str = "\
11 2 1 3 name(1,2:3-4) Name_heard done phase=rest;best=1@3:2-3 0>1:report(3:2-3) 10\n\
12 1 0 2 report(3:2-3) Report_heard done phase=rest;best=0@3:2-3 0>2:changeroot 11\n\
13 2 0 1 changeroot Root_moves done out=1 1>3:connect(1) 12\n\
14 3 0 4 report(-) Report_heard done - - 12\n\
15 3 1 2 name(1,1:1-2) Name_heard done phase=rest;best=1@3:2-3;out=1 1>2:connect(1) 13\n\
16 3 1 2 connect(1) Connect_core done mark.1=asked - 13\n\
17 2 1 3 connect(1) Connect_core done mark.1=branch;level=2;name=3:2-3;phase=search;parent=-;best=-;out=- 0>1:initiate(2,3:2-3);1>3:initiate(2,3:2-3) 15\n\
";

pub const PAIR_JSON: &str =
    r#"{"step":1,"node":2,"port":null,"far":null,"kind":"wake","row":"Wakes","fate":null,"marks":[],"set":{"phase":"rest","out":0},"send":[{"port":0,"to":1,"at":0,"kind":"connect","level":0}],"total":1}
{"step":2,"node":1,"port":0,"far":2,"kind":"connect","level":0,"row":"Connect_core","fate":"done","marks":[[0,"branch"]],"set":{"level":1,"name":"5:1-2","phase":"search"},"send":[{"port":0,"to":2,"at":0,"kind":"connect","level":0},{"port":0,"to":2,"at":0,"kind":"initiate","level":1,"key":"5:1-2"}],"total":3}
{"step":3,"node":2,"port":0,"far":1,"kind":"connect","level":0,"row":"Connect_core","fate":"done","marks":[[0,"asked"]],"set":{},"send":[],"total":3}
{"step":4,"node":2,"port":0,"far":1,"kind":"initiate","level":1,"key":"5:1-2","row":"Initiate_enters","fate":"done","marks":[[0,"branch"]],"set":{"level":1,"name":"5:1-2","parent":0,"out":null},"send":[{"port":0,"to":1,"at":0,"kind":"report","key":null}],"total":4}
{"step":5,"node":1,"port":0,"far":2,"kind":"report","key":null,"row":"Report_heard","fate":"done","marks":[],"set":{"phase":"rest","halted":true},"send":[],"total":4}
"#;

/// Node 2 enters: both its ports become Branch.
const TRIANGLE_JSON_7: &str =
    r#"{"step":7,"node":2,"port":0,"far":1,"kind":"initiate","level":1,"key":"1:1-2","row":"Initiate_enters","fate":"done","marks":[[0,"branch"],[1,"branch"]],"set":{"level":1,"name":"1:1-2","phase":"search","parent":0,"out":null},"send":[{"port":1,"to":3,"at":0,"kind":"initiate","level":1,"key":"1:1-2"}],"total":6}
"#;

/// A link is reported, and the root moves to it.
const FOUR_JSON: &str =
    r#"{"step":11,"node":2,"port":1,"far":3,"kind":"name","level":1,"key":"2:3-4","row":"Name_heard","fate":"done","marks":[],"set":{"phase":"rest","best":[1,"3:2-3"]},"send":[{"port":0,"to":1,"at":0,"kind":"report","key":"3:2-3"}],"total":10}
{"step":12,"node":1,"port":0,"far":2,"kind":"report","key":"3:2-3","row":"Report_heard","fate":"done","marks":[],"set":{"phase":"rest","best":[0,"3:2-3"]},"send":[{"port":0,"to":2,"at":0,"kind":"changeroot"}],"total":11}
{"step":13,"node":2,"port":0,"far":1,"kind":"changeroot","row":"Root_moves","fate":"done","marks":[],"set":{"out":1},"send":[{"port":1,"to":3,"at":1,"kind":"connect","level":1}],"total":12}
"#;

/// What is answered and written, of these events of this graph.
fn steps_of(
    rt: &impl Abort,
    alloc: Global,
    graph: &str,
    events: &[Event],
    choice: &Choice,
    form: Form,
) -> (Result<(), StepsFault>, Vec<u8>) {
    let graph = graph_of_text(rt, alloc, graph);
    let mut written = Vec::new(alloc);
    let mut writer = Device::of(&mut written);
    let answer = write_steps::<Boruvka, _>(
        alloc,
        (),
        graph,
        WakeSet::All,
        events,
        choice,
        form,
        &mut writer,
    );
    (answer, written)
}

/// The chosen lines of a run, in this form, are these.
fn assert_lines_in(
    rt: &impl Abort,
    alloc: Global,
    graph: &str,
    events: &[Event],
    choice: &Choice,
    form: Form,
    lines: &str,
) {
    let (answer, written) = steps_of(rt, alloc, graph, events, choice, form);
    assert_eq!(rt; answer, Ok(()), "of {graph:?}");
    assert_eq!(rt; written.as_slice(), lines.as_bytes(), "of {graph:?}");
}

fn assert_lines(
    rt: &impl Abort,
    alloc: Global,
    graph: &str,
    events: &[Event],
    choice: &Choice,
    lines: &str,
) {
    assert_lines_in(rt, alloc, graph, events, choice, Form::Text, lines);
}

/// The objects of one event of a run and of those behind it, up to another, are these.
fn assert_objects(
    rt: &impl Abort,
    alloc: Global,
    graph: &str,
    events: &[Event],
    from: u64,
    to: u64,
    lines: &str,
) {
    let choice = Choice {
        from,
        to,
        node: None,
    };
    assert_lines_in(rt, alloc, graph, events, &choice, Form::Json, lines);
}

/// The lines of all events of a run are these, and the net behind them has the run as its trace.
fn assert_put(
    rt: &impl Abort,
    alloc: Global,
    graph: &str,
    events: &[Event],
    form: Form,
    lines: &str,
) {
    let graph = graph_of_text(rt, alloc, graph);
    let world = match replay::<Boruvka>(alloc, (), graph, WakeSet::All, events) {
        Ok(world) => world,
        Err(_) => panic!(rt; "a run"),
    };
    // Read for its clause: the events are a run.
    let _ = world.net();
    let mut text = Vec::new(alloc);
    let net = put_lines::<Boruvka>(alloc, (), world.into_graph(), events, form, &mut text).expect(
        rt, "memory",
    );
    assert_eq!(rt; net.trace(), events);
    assert_eq!(rt; text.as_slice(), lines.as_bytes());
}

/// Events that aren't a run are refused, and nothing is written.
fn assert_refused(rt: &impl Abort, alloc: Global, graph: &str, events: &[Event], first: u64) {
    let (answer, written) = steps_of(rt, alloc, graph, events, &ALL, Form::Text);
    assert_eq!(rt; answer, Err(StepsFault::NotLawful(first)), "of {graph:?}");
    assert!(rt; written.is_empty());
}

#[test]
fn the_lines_of_a_pair(rt: HostRuntime) {
    assert_lines(&rt, rt.alloc(), PAIR, &PAIR_RUN, &ALL, PAIR_LINES);
}

#[test]
fn the_lines_of_a_triangle(rt: HostRuntime) {
    let alloc = rt.alloc();
    assert_lines(&rt, alloc, TRIANGLE, &TRIANGLE_RUN, &ALL, TRIANGLE_LINES);
    let of_2 = Choice {
        from: 3,
        to: 10,
        node: Some(2),
    };
    assert_lines(
        &rt,
        alloc,
        TRIANGLE,
        &TRIANGLE_RUN,
        &of_2,
        TRIANGLE_LINES_OF_2,
    );
}

#[test]
fn the_lines_of_a_path(rt: HostRuntime) {
    assert_lines(&rt, rt.alloc(), PATH_OF_THREE, &PATH_RUN, &ALL, PATH_LINES);
}

#[test]
fn two_pairs_that_join(rt: HostRuntime) {
    let late = Choice {
        from: 11,
        to: 17,
        node: None,
    };
    assert_lines(&rt, rt.alloc(), PATH_OF_FOUR, &FOUR_RUN, &late, FOUR_LINES);
}

#[test]
fn the_line_of_a_lone_node(rt: HostRuntime) {
    let line = "1 1 - - wake Wakes - phase=rest;halted=yes - 0\n";
    assert_lines(&rt, rt.alloc(), LONE_NODE, &[Event::Wake(1)], &ALL, line);
}

#[test]
fn the_objects_of_runs(rt: HostRuntime) {
    let alloc = rt.alloc();
    assert_objects(&rt, alloc, PAIR, &PAIR_RUN, 1, 5, PAIR_JSON);
    assert_objects(&rt, alloc, TRIANGLE, &TRIANGLE_RUN, 7, 7, TRIANGLE_JSON_7);
    assert_objects(&rt, alloc, PATH_OF_FOUR, &FOUR_RUN, 11, 13, FOUR_JSON);
}

#[test]
fn all_lines_of_a_run(rt: HostRuntime) {
    let alloc = rt.alloc();
    assert_put(&rt, alloc, PAIR, &PAIR_RUN, Form::Json, PAIR_JSON);
    assert_put(&rt, alloc, PAIR, &PAIR_RUN, Form::Text, PAIR_LINES);
}

/// A node wakes once, and takes what waits.
#[test]
fn what_is_no_run_is_refused(rt: HostRuntime) {
    let twice = [Event::Wake(1), Event::Wake(1)];
    assert_refused(&rt, rt.alloc(), PAIR, &twice, 2);
    assert_refused(&rt, rt.alloc(), PAIR, &[Event::Take(1, 0)], 1);
}
