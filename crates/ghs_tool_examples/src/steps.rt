//! Worked runs, line by line.
use crate::fixtures::{events_of_text, graph_of_text};
use ghs_choices::choice::Choice;
use ghs_choices::form::Form;
use ghs_gr::device::Device;
use ghs_steps::show::write_steps;
use ghs_test_graphs::graphs::{NODE_AND_PAIR, PARALLEL_PAIR, PATH_OF_FIVE, TRIANGLE};
use ghs_test_graphs::traces::{PATH_OF_FIVE_TRACE, TRIANGLE_TRACE};
use peer_network::wake_set::WakeSet;
use peer_steps::fault::StepsFault;
use peer_texts::trace::EVENT_LIMIT;
use std::alloc::Global;
use std::process::Abort;

const ALL: Choice = Choice {
    from: 1,
    to: u64::MAX,
    node: None,
};

/// The lines of the triangle's run.
const TRIANGLE_LINES: &str = "\
1 2 - - wake Wakes - mark.0=branch;phase=found 0>1:connect(0) 1\n\
2 1 0 2 connect(0) Woken_merges done mark.0=branch;phase=found 0>2:connect(0);0>2:initiate(1,1:1-2,find) 3\n\
3 2 0 1 connect(0) Connect_merges done - 0>1:initiate(1,1:1-2,find) 4\n\
4 1 0 2 initiate(1,1:1-2,find) Initiate_searches done level=1;name=1:1-2;phase=find;in_branch=0;probe=1 1>3:test(1,1:1-2) 5\n\
5 2 0 1 initiate(1,1:1-2,find) Initiate_searches done level=1;name=1:1-2;phase=find;in_branch=0;probe=1 1>3:test(1,1:1-2) 6\n\
6 3 1 1 test(1,1:1-2) Woken_test_waits waits mark.0=branch;phase=found 0>2:connect(0) 7\n\
7 2 1 3 connect(0) Connect_absorbed done mark.1=branch;find_count=1 1>3:initiate(1,1:1-2,find) 8\n\
8 3 0 2 test(1,1:1-2) Test_waits waits - - 8\n\
9 3 0 2 initiate(1,1:1-2,find) Initiate_searches done level=1;name=1:1-2;phase=find;in_branch=0;probe=1 1>1:test(1,1:1-2) 9\n\
10 3 1 1 test(1,1:1-2) Tests_cross done mark.1=rejected;phase=found;probe=- 0>2:report(-) 10\n\
11 3 0 2 test(1,1:1-2) Test_rejected done - 0>2:reject 11\n\
12 1 1 3 test(1,1:1-2) Tests_cross done mark.1=rejected;phase=found;probe=- 0>2:report(-) 12\n\
13 2 1 3 report(-) Report_heard done find_count=0 - 12\n\
14 2 1 3 reject Reject_heard done phase=found;probe=- 0>1:report(-) 13\n\
15 1 0 2 report(-) Report_halts done halted=yes - 13\n\
";

/// The same run, by a program that shares nothing with this one.
const TRIANGLE_JSON: &str = "\
{\"step\":1,\"node\":2,\"port\":null,\"far\":null,\"kind\":\"wake\",\"row\":\"Wakes\",\"fate\":null,\"mark\":[0,\"branch\"],\"set\":{\"phase\":\"found\"},\"send\":[{\"port\":0,\"to\":1,\"at\":0,\"kind\":\"connect\",\"level\":0}],\"total\":1}\n\
{\"step\":2,\"node\":1,\"port\":0,\"far\":2,\"kind\":\"connect\",\"level\":0,\"row\":\"Woken_merges\",\"fate\":\"done\",\"mark\":[0,\"branch\"],\"set\":{\"phase\":\"found\"},\"send\":[{\"port\":0,\"to\":2,\"at\":0,\"kind\":\"connect\",\"level\":0},{\"port\":0,\"to\":2,\"at\":0,\"kind\":\"initiate\",\"level\":1,\"key\":\"1:1-2\",\"phase\":\"find\"}],\"total\":3}\n\
{\"step\":3,\"node\":2,\"port\":0,\"far\":1,\"kind\":\"connect\",\"level\":0,\"row\":\"Connect_merges\",\"fate\":\"done\",\"mark\":null,\"set\":{},\"send\":[{\"port\":0,\"to\":1,\"at\":0,\"kind\":\"initiate\",\"level\":1,\"key\":\"1:1-2\",\"phase\":\"find\"}],\"total\":4}\n\
{\"step\":4,\"node\":1,\"port\":0,\"far\":2,\"kind\":\"initiate\",\"level\":1,\"key\":\"1:1-2\",\"phase\":\"find\",\"row\":\"Initiate_searches\",\"fate\":\"done\",\"mark\":null,\"set\":{\"level\":1,\"name\":\"1:1-2\",\"phase\":\"find\",\"in_branch\":0,\"probe\":1},\"send\":[{\"port\":1,\"to\":3,\"at\":1,\"kind\":\"test\",\"level\":1,\"key\":\"1:1-2\"}],\"total\":5}\n\
{\"step\":5,\"node\":2,\"port\":0,\"far\":1,\"kind\":\"initiate\",\"level\":1,\"key\":\"1:1-2\",\"phase\":\"find\",\"row\":\"Initiate_searches\",\"fate\":\"done\",\"mark\":null,\"set\":{\"level\":1,\"name\":\"1:1-2\",\"phase\":\"find\",\"in_branch\":0,\"probe\":1},\"send\":[{\"port\":1,\"to\":3,\"at\":0,\"kind\":\"test\",\"level\":1,\"key\":\"1:1-2\"}],\"total\":6}\n\
{\"step\":6,\"node\":3,\"port\":1,\"far\":1,\"kind\":\"test\",\"level\":1,\"key\":\"1:1-2\",\"row\":\"Woken_test_waits\",\"fate\":\"waits\",\"mark\":[0,\"branch\"],\"set\":{\"phase\":\"found\"},\"send\":[{\"port\":0,\"to\":2,\"at\":1,\"kind\":\"connect\",\"level\":0}],\"total\":7}\n\
{\"step\":7,\"node\":2,\"port\":1,\"far\":3,\"kind\":\"connect\",\"level\":0,\"row\":\"Connect_absorbed\",\"fate\":\"done\",\"mark\":[1,\"branch\"],\"set\":{\"find_count\":1},\"send\":[{\"port\":1,\"to\":3,\"at\":0,\"kind\":\"initiate\",\"level\":1,\"key\":\"1:1-2\",\"phase\":\"find\"}],\"total\":8}\n\
{\"step\":8,\"node\":3,\"port\":0,\"far\":2,\"kind\":\"test\",\"level\":1,\"key\":\"1:1-2\",\"row\":\"Test_waits\",\"fate\":\"waits\",\"mark\":null,\"set\":{},\"send\":[],\"total\":8}\n\
{\"step\":9,\"node\":3,\"port\":0,\"far\":2,\"kind\":\"initiate\",\"level\":1,\"key\":\"1:1-2\",\"phase\":\"find\",\"row\":\"Initiate_searches\",\"fate\":\"done\",\"mark\":null,\"set\":{\"level\":1,\"name\":\"1:1-2\",\"phase\":\"find\",\"in_branch\":0,\"probe\":1},\"send\":[{\"port\":1,\"to\":1,\"at\":1,\"kind\":\"test\",\"level\":1,\"key\":\"1:1-2\"}],\"total\":9}\n\
{\"step\":10,\"node\":3,\"port\":1,\"far\":1,\"kind\":\"test\",\"level\":1,\"key\":\"1:1-2\",\"row\":\"Tests_cross\",\"fate\":\"done\",\"mark\":[1,\"rejected\"],\"set\":{\"phase\":\"found\",\"probe\":null},\"send\":[{\"port\":0,\"to\":2,\"at\":1,\"kind\":\"report\",\"key\":null}],\"total\":10}\n\
{\"step\":11,\"node\":3,\"port\":0,\"far\":2,\"kind\":\"test\",\"level\":1,\"key\":\"1:1-2\",\"row\":\"Test_rejected\",\"fate\":\"done\",\"mark\":null,\"set\":{},\"send\":[{\"port\":0,\"to\":2,\"at\":1,\"kind\":\"reject\"}],\"total\":11}\n\
{\"step\":12,\"node\":1,\"port\":1,\"far\":3,\"kind\":\"test\",\"level\":1,\"key\":\"1:1-2\",\"row\":\"Tests_cross\",\"fate\":\"done\",\"mark\":[1,\"rejected\"],\"set\":{\"phase\":\"found\",\"probe\":null},\"send\":[{\"port\":0,\"to\":2,\"at\":0,\"kind\":\"report\",\"key\":null}],\"total\":12}\n\
{\"step\":13,\"node\":2,\"port\":1,\"far\":3,\"kind\":\"report\",\"key\":null,\"row\":\"Report_heard\",\"fate\":\"done\",\"mark\":null,\"set\":{\"find_count\":0},\"send\":[],\"total\":12}\n\
{\"step\":14,\"node\":2,\"port\":1,\"far\":3,\"kind\":\"reject\",\"row\":\"Reject_heard\",\"fate\":\"done\",\"mark\":null,\"set\":{\"phase\":\"found\",\"probe\":null},\"send\":[{\"port\":0,\"to\":1,\"at\":0,\"kind\":\"report\",\"key\":null}],\"total\":13}\n\
{\"step\":15,\"node\":1,\"port\":0,\"far\":2,\"kind\":\"report\",\"key\":null,\"row\":\"Report_halts\",\"fate\":\"done\",\"mark\":null,\"set\":{\"halted\":true},\"send\":[],\"total\":13}\n\
";

/// Events 40 to 54 of the run of the path of five, by that program: links are accepted, one is reported, and the core
/// moves to it.
const PATH_OF_FIVE_JSON: &str = "\
{\"step\":40,\"node\":4,\"port\":1,\"far\":3,\"kind\":\"accept\",\"row\":\"Accept_heard\",\"fate\":\"done\",\"mark\":null,\"set\":{\"phase\":\"found\",\"best\":[1,\"4:3-4\"],\"probe\":null},\"send\":[{\"port\":0,\"to\":5,\"at\":0,\"kind\":\"report\",\"key\":\"4:3-4\"}],\"total\":19}\n\
{\"step\":41,\"node\":2,\"port\":0,\"far\":1,\"kind\":\"report\",\"key\":null,\"row\":\"Report_waits\",\"fate\":\"waits\",\"mark\":null,\"set\":{},\"send\":[],\"total\":19}\n\
{\"step\":42,\"node\":5,\"port\":0,\"far\":4,\"kind\":\"report\",\"key\":\"4:3-4\",\"row\":\"Report_passes\",\"fate\":\"done\",\"mark\":null,\"set\":{},\"send\":[],\"total\":19}\n\
{\"step\":43,\"node\":3,\"port\":1,\"far\":4,\"kind\":\"accept\",\"row\":\"Accept_heard\",\"fate\":\"done\",\"mark\":null,\"set\":{\"phase\":\"found\",\"best\":[1,\"4:3-4\"],\"probe\":null},\"send\":[{\"port\":0,\"to\":2,\"at\":1,\"kind\":\"report\",\"key\":\"4:3-4\"}],\"total\":20}\n\
{\"step\":44,\"node\":2,\"port\":0,\"far\":1,\"kind\":\"report\",\"key\":null,\"row\":\"Report_waits\",\"fate\":\"waits\",\"mark\":null,\"set\":{},\"send\":[],\"total\":20}\n\
{\"step\":45,\"node\":2,\"port\":1,\"far\":3,\"kind\":\"report\",\"key\":\"4:3-4\",\"row\":\"Report_heard\",\"fate\":\"done\",\"mark\":null,\"set\":{\"phase\":\"found\",\"find_count\":0,\"best\":[1,\"4:3-4\"]},\"send\":[{\"port\":0,\"to\":1,\"at\":0,\"kind\":\"report\",\"key\":\"4:3-4\"}],\"total\":21}\n\
{\"step\":46,\"node\":2,\"port\":0,\"far\":1,\"kind\":\"report\",\"key\":null,\"row\":\"Report_moves_root\",\"fate\":\"done\",\"mark\":null,\"set\":{},\"send\":[{\"port\":1,\"to\":3,\"at\":0,\"kind\":\"changeroot\"}],\"total\":22}\n\
{\"step\":47,\"node\":1,\"port\":0,\"far\":2,\"kind\":\"report\",\"key\":\"4:3-4\",\"row\":\"Report_passes\",\"fate\":\"done\",\"mark\":null,\"set\":{},\"send\":[],\"total\":22}\n\
{\"step\":48,\"node\":3,\"port\":0,\"far\":2,\"kind\":\"changeroot\",\"row\":\"Root_moves\",\"fate\":\"done\",\"mark\":[1,\"branch\"],\"set\":{},\"send\":[{\"port\":1,\"to\":4,\"at\":1,\"kind\":\"connect\",\"level\":1}],\"total\":23}\n\
{\"step\":49,\"node\":4,\"port\":1,\"far\":3,\"kind\":\"connect\",\"level\":1,\"row\":\"Connect_waits\",\"fate\":\"waits\",\"mark\":null,\"set\":{},\"send\":[],\"total\":23}\n\
{\"step\":50,\"node\":4,\"port\":0,\"far\":5,\"kind\":\"report\",\"key\":null,\"row\":\"Report_moves_root\",\"fate\":\"done\",\"mark\":[1,\"branch\"],\"set\":{},\"send\":[{\"port\":1,\"to\":3,\"at\":1,\"kind\":\"connect\",\"level\":1}],\"total\":24}\n\
{\"step\":51,\"node\":4,\"port\":1,\"far\":3,\"kind\":\"connect\",\"level\":1,\"row\":\"Connect_merges\",\"fate\":\"done\",\"mark\":null,\"set\":{},\"send\":[{\"port\":1,\"to\":3,\"at\":1,\"kind\":\"initiate\",\"level\":2,\"key\":\"4:3-4\",\"phase\":\"find\"}],\"total\":25}\n\
{\"step\":52,\"node\":3,\"port\":1,\"far\":4,\"kind\":\"connect\",\"level\":1,\"row\":\"Connect_merges\",\"fate\":\"done\",\"mark\":null,\"set\":{},\"send\":[{\"port\":1,\"to\":4,\"at\":1,\"kind\":\"initiate\",\"level\":2,\"key\":\"4:3-4\",\"phase\":\"find\"}],\"total\":26}\n\
{\"step\":53,\"node\":3,\"port\":1,\"far\":4,\"kind\":\"initiate\",\"level\":2,\"key\":\"4:3-4\",\"phase\":\"find\",\"row\":\"Initiate_searches\",\"fate\":\"done\",\"mark\":null,\"set\":{\"level\":2,\"name\":\"4:3-4\",\"phase\":\"find\",\"find_count\":1,\"in_branch\":1,\"best\":null},\"send\":[{\"port\":0,\"to\":2,\"at\":1,\"kind\":\"initiate\",\"level\":2,\"key\":\"4:3-4\",\"phase\":\"find\"}],\"total\":27}\n\
{\"step\":54,\"node\":4,\"port\":1,\"far\":3,\"kind\":\"initiate\",\"level\":2,\"key\":\"4:3-4\",\"phase\":\"find\",\"row\":\"Initiate_searches\",\"fate\":\"done\",\"mark\":null,\"set\":{\"level\":2,\"name\":\"4:3-4\",\"phase\":\"find\",\"find_count\":1,\"in_branch\":1,\"best\":null},\"send\":[{\"port\":0,\"to\":5,\"at\":0,\"kind\":\"initiate\",\"level\":2,\"key\":\"4:3-4\",\"phase\":\"find\"}],\"total\":28}\n\
";

/// A run of the two nodes with two links.
const PARALLEL_TRACE: &str = "trace 5\nwake 1\ntake 2 0\ntake 1 0\ntake 1 0\ntake 2 1";

const PARALLEL_LINES: &str = "\
1 1 - - wake Wakes - mark.0=branch;phase=found 0>2:connect(0) 1\n\
2 2 0 1 connect(0) Woken_merges done mark.0=branch;phase=found 0>1:connect(0);0>1:initiate(1,5:1-2,find) 3\n\
3 1 0 2 connect(0) Connect_merges done - 0>2:initiate(1,5:1-2,find) 4\n\
4 1 0 2 initiate(1,5:1-2,find) Initiate_searches done level=1;name=5:1-2;phase=find;in_branch=0;probe=1 1>2:test(1,5:1-2) 5\n\
5 2 1 1 test(1,5:1-2) Test_waits waits - - 5\n\
";

/// A run of a node without links and two nodes that are joined.
const FOREST_TRACE: &str = "trace 3\nwake 1\nwake 2\ntake 3 0";

const FOREST_LINES: &str = "\
1 1 - - wake Wakes_alone - phase=found;halted=yes - 0\n\
2 2 - - wake Wakes - mark.0=branch;phase=found 0>3:connect(0) 1\n\
3 3 0 2 connect(0) Woken_merges done mark.0=branch;phase=found 0>2:connect(0);0>2:initiate(1,5:2-3,find) 3\n\
";

/// What is answered and written, of this stored run of this graph.
fn steps_of(
    rt: &impl Abort,
    alloc: Global,
    graph: &str,
    trace: &str,
    choice: &Choice,
    form: Form,
) -> (Result<(), StepsFault>, Vec<u8>) {
    let graph = graph_of_text(rt, alloc, graph);
    let events = events_of_text(rt, alloc, trace);
    assert!(rt; events.len() as u64 <= EVENT_LIMIT);
    let mut written = Vec::new(alloc);
    let mut writer = Device::of(&mut written);
    let answer = write_steps(
        alloc,
        graph,
        WakeSet::All,
        &events,
        choice,
        form,
        &mut writer,
    );
    (answer, written)
}

fn assert_answer(
    rt: &impl Abort,
    graph: &str,
    found: Result<(), StepsFault>,
    answer: Result<(), StepsFault>,
) {
    assert_eq!(rt; found, answer, "of {graph:?}");
}

fn assert_text(rt: &impl Abort, graph: &str, found: &[u8], text: &[u8]) {
    assert_eq!(rt; found, text, "of {graph:?}");
}

/// The chosen lines of a stored run are these.
fn assert_lines(
    rt: &impl Abort,
    alloc: Global,
    graph: &str,
    trace: &str,
    choice: &Choice,
    form: Form,
    lines: &str,
) {
    let (answer, written) = steps_of(rt, alloc, graph, trace, choice, form);
    assert_answer(rt, graph, answer, Ok(()));
    assert_text(rt, graph, &written, lines.as_bytes());
}

/// A stored run is refused before any line.
fn assert_refused(rt: &impl Abort, alloc: Global, graph: &str, trace: &str, fault: StepsFault) {
    let (answer, written) = steps_of(rt, alloc, graph, trace, &ALL, Form::Text);
    assert_answer(rt, graph, answer, Err(fault));
    assert_text(rt, graph, &written, b"");
}

/// All lines of a stored run are these.
fn assert_whole(rt: &impl Abort, alloc: Global, graph: &str, trace: &str, lines: &str) {
    assert_lines(rt, alloc, graph, trace, &ALL, Form::Text, lines);
}

#[test]
fn whole_runs(rt: HostRuntime) {
    let alloc = rt.alloc();
    assert_whole(&rt, alloc, TRIANGLE, TRIANGLE_TRACE, TRIANGLE_LINES);
    assert_whole(&rt, alloc, PARALLEL_PAIR, PARALLEL_TRACE, PARALLEL_LINES);
    assert_whole(&rt, alloc, NODE_AND_PAIR, FOREST_TRACE, FOREST_LINES);
}

const SOME: Choice = Choice {
    from: 6,
    to: 8,
    node: Some(3),
};

const TWO_LINES: &str =
    "6 3 1 1 test(1,1:1-2) Woken_test_waits waits mark.0=branch;phase=found 0>2:connect(0) 7\n8 3 0 2 test(1,1:1-2) Test_waits waits - - 8\n";

const NONE: Choice = Choice {
    from: 9,
    to: 8,
    node: None,
};

/// Chosen lines of the run of the triangle are these.
fn assert_chosen(rt: &impl Abort, alloc: Global, choice: &Choice, form: Form, lines: &str) {
    assert_lines(rt, alloc, TRIANGLE, TRIANGLE_TRACE, choice, form, lines);
}

/// Two lines of node 3; no line where the first number is above the last; and a run that is refused before any line.
#[test]
fn chosen_lines(rt: HostRuntime) {
    let alloc = rt.alloc();
    assert_chosen(&rt, alloc, &SOME, Form::Text, TWO_LINES);
    assert_chosen(&rt, alloc, &NONE, Form::Text, "");
    let twice = "trace 2\nwake 1\nwake 1";
    assert_refused(&rt, alloc, NODE_AND_PAIR, twice, StepsFault::NotLawful(2));
}

const FROM_40_TO_54: Choice = Choice {
    from: 40,
    to: 54,
    node: None,
};

/// Chosen lines of the run of the path of five are these.
fn assert_chosen_of_five(rt: &impl Abort, alloc: Global, choice: &Choice, lines: &str) {
    let (graph, trace) = (PATH_OF_FIVE, PATH_OF_FIVE_TRACE);
    assert_lines(rt, alloc, graph, trace, choice, Form::Json, lines);
}

/// The same as JSON.
#[test]
fn json_lines(rt: HostRuntime) {
    let alloc = rt.alloc();
    assert_chosen(&rt, alloc, &ALL, Form::Json, TRIANGLE_JSON);
    assert_chosen_of_five(&rt, alloc, &FROM_40_TO_54, PATH_OF_FIVE_JSON);
}
