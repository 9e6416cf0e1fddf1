//! Worked runs of the echo wave, line by line. The lines are those of `bench/echo`, which tells them from the rules alone.
use crate::playing::graph_of_text;
use crate::runs::{ROUND, WAVE};
use echo::protocol::Echo;
use ghs_choices::choice::Choice;
use ghs_choices::form::Form;
use ghs_gr::device::Device;
use ghs_test_graphs::graphs::{PATH_OF_THREE, TRIANGLE};
use peer_machine::event::Event;
use peer_network::wake_set::WakeSet;
use peer_steps::show::write_steps;
use std::alloc::Global;
use std::process::Abort;

const ALL: Choice = Choice {
    from: 1,
    to: u64::MAX,
    node: None,
};

const PATH_LINES: &str = "\
1 1 - - wake Wakes - mark.0=asked;phase=asking;awaits=1 0>2:explore 1\n\
2 2 0 1 explore Joins done mark.0=parent;mark.1=asked;phase=asking;parent=0;awaits=1 1>3:explore 2\n\
3 3 0 2 explore Joins done mark.0=parent;phase=answered;parent=0 0>2:echo 3\n\
4 2 1 3 echo Hears done phase=answered;awaits=0 0>1:echo 4\n\
5 1 0 2 echo Hears done phase=answered;awaits=0;halted=yes - 4\n\
";

const TRIANGLE_LINES: &str = "\
1 1 - - wake Wakes - mark.0=asked;mark.1=asked;phase=asking;awaits=2 0>2:explore;1>3:explore 2\n\
2 2 0 1 explore Joins done mark.0=parent;mark.1=asked;phase=asking;parent=0;awaits=1 1>3:explore 3\n\
3 3 1 1 explore Joins done mark.0=asked;mark.1=parent;phase=asking;parent=1;awaits=1 0>2:explore 4\n\
4 3 0 2 explore Hears done phase=answered;awaits=0 1>1:echo 5\n\
5 2 1 3 explore Hears done phase=answered;awaits=0 0>1:echo 6\n\
6 1 1 3 echo Hears done awaits=1 - 6\n\
7 1 0 2 echo Hears done phase=answered;awaits=0;halted=yes - 6\n\
";

/// One take of the run on the path, as an object.
const PATH_OBJECT: &str =
    r#"{"step":3,"node":3,"port":0,"far":2,"kind":"explore","row":"Joins","fate":"done","marks":[[0,"parent"]],"set":{"phase":"answered","parent":0},"send":[{"port":0,"to":2,"at":1,"kind":"echo"}],"total":3}
"#;

/// The chosen lines of a run, in this form, are these.
fn assert_lines(
    rt: &impl Abort,
    alloc: Global,
    graph: &str,
    events: &[Event],
    choice: &Choice,
    form: Form,
    lines: &str,
) {
    let graph = graph_of_text(rt, alloc, graph);
    let mut written = Vec::new(alloc);
    let mut writer = Device::of(&mut written);
    let answer = write_steps::<Echo, _>(
        alloc,
        (),
        graph,
        WakeSet::All,
        events,
        choice,
        form,
        &mut writer,
    );
    assert_eq!(rt; answer, Ok(()));
    assert_eq!(rt; written.as_slice(), lines.as_bytes());
}

#[test]
fn the_lines_of_a_path(rt: HostRuntime) {
    assert_lines(
        &rt,
        rt.alloc(),
        PATH_OF_THREE,
        &WAVE,
        &ALL,
        Form::Text,
        PATH_LINES,
    );
}

#[test]
fn the_lines_of_a_triangle(rt: HostRuntime) {
    assert_lines(
        &rt,
        rt.alloc(),
        TRIANGLE,
        &ROUND,
        &ALL,
        Form::Text,
        TRIANGLE_LINES,
    );
}

#[test]
fn the_object_of_a_take(rt: HostRuntime) {
    let third = Choice {
        from: 3,
        to: 3,
        node: None,
    };
    assert_lines(
        &rt,
        rt.alloc(),
        PATH_OF_THREE,
        &WAVE,
        &third,
        Form::Json,
        PATH_OBJECT,
    );
}
