//! Stored runs, event by event.
use crate::fault::Fault;
use crate::reading::{assert_text, graph_of_text};
use echo::protocol::Echo;
use ghs_choices::choice::Choice;
use ghs_choices::form::Form;
use ghs_gr::device::Device;
use ghs_graph::graph::Graph;
use ghs_test_graphs::graphs::PATH_OF_THREE;
use peer_lengths::lengths::{Lengths, lengths_of};
use peer_network::wake_set::WakeSet;
use peer_runs::replay::replay;
use peer_steps::show::write_steps;
use peer_trace::protocol::Protocol;
use peer_trace::trace::read_trace_of;
use std::alloc::Global;
use std::process::Abort;

/// What each event of a stored run does, a line each.
pub fn steps_of(alloc: Global, graph: Graph, stored: &[u8]) -> Result<Vec<u8>, Fault> {
    let events = read_trace_of(alloc, Protocol::Echo, stored)?;
    let all = Choice {
        from: 1,
        to: u64::MAX,
        node: None,
    };
    let form = Form::Text;
    let mut lines = Vec::new(alloc);
    let mut out = Device::of(&mut lines);
    write_steps::<Echo, _>(
        alloc,
        (),
        graph,
        WakeSet::All,
        &events,
        &all,
        form,
        &mut out,
    )?;
    Ok(lines)
}

/// How long the run is.
pub fn lengths_of_stored(alloc: Global, graph: Graph, stored: &[u8]) -> Result<Lengths, Fault> {
    let events = read_trace_of(alloc, Protocol::Echo, stored)?;
    let world = replay::<Echo>(alloc, (), graph, WakeSet::All, &events)?;
    let net = world.net();
    Ok(lengths_of::<Echo>(alloc, (), net.graph(), net.trace())?)
}

/// The wave on the path 1-2-3 that node 1 begins.
const WAVE: &str = "trace echo 5\nwake 1\ntake 2 0\ntake 3 0\ntake 2 1\ntake 1 0\n";

const LINES: &str = "\
1 1 - - wake Wakes - mark.0=asked;phase=asking;awaits=1 0>2:explore 1
2 2 0 1 explore Joins done mark.0=parent;mark.1=asked;phase=asking;parent=0;awaits=1 1>3:explore 2
3 3 0 2 explore Joins done mark.0=parent;phase=answered;parent=0 0>2:echo 3
4 2 1 3 echo Hears done phase=answered;awaits=0 0>1:echo 4
5 1 0 2 echo Hears done phase=answered;awaits=0;halted=yes - 4
";

#[test]
fn the_lines_of_a_wave(rt: HostRuntime) {
    let graph = graph_of_text(&rt, rt.alloc(), PATH_OF_THREE);
    assert_text(&rt, steps_of(rt.alloc(), graph, WAVE.as_bytes()), LINES);
}

/// Four messages of one bit, each sent because of the one before.
fn assert_lengths(rt: &impl Abort, found: Result<Lengths, Fault>) {
    let found = found.ok().expect(rt, "lengths");
    let wave = Lengths {
        chain: 4,
        bits: 4,
        longest: 1,
    };
    assert_eq!(rt; found, wave);
}

#[test]
fn the_lengths_of_a_wave(rt: HostRuntime) {
    let graph = graph_of_text(&rt, rt.alloc(), PATH_OF_THREE);
    assert_lengths(&rt, lengths_of_stored(rt.alloc(), graph, WAVE.as_bytes()));
}
