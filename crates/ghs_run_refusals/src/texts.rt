//! Texts: of numbers, trees, traces and steps.
ghost use Rattle.peer_texts.specs.declared.trace.TheConstants.{EVENT_LIMIT};
ghost use Rattle.std.specs.Prelude.{◌≤◌, length};

use crate::comparing::assert_same;
use ghs_choices::choice::Choice;
use ghs_choices::form::Form;
use ghs_core::event::Event;
use ghs_gr::device::Device;
use ghs_graph::key::Key;
use ghs_lines::numbers::put_number;
use ghs_node::message::Message;
use ghs_node::sends::Sends;
use ghs_refusing::orders::{Turn, order, refuse, turn_of};
use ghs_refusing::scenes::{events_of_run, five};
use ghs_report::tree_text::tree_text;
use ghs_steps::show::write_steps;
use peer_network::wake_set::WakeSet;
use peer_page::page::page;
use peer_steps::fault::StepsFault;
use peer_texts::fault::TraceFault;
use peer_texts::trace::{EVENT_LIMIT, read_trace, write_trace};
use peer_trace::fault::StoredFault;
use peer_trace::protocol::Protocol;
use peer_trace::trace::{read_trace_of, write_trace_of};
use std::alloc::{AllocError, Global};
use std::process::Abort;
use std::test::Fail;

const LINK: Key = Key {
    weight: 5,
    a: 1,
    b: 2,
};

const ALL: Choice = Choice {
    from: 1,
    to: u64::MAX,
    node: None,
};

/// The text of a tree, of a run, of one that names its protocol, and of the page round a text.
#[derive(Clone, Copy)]
enum Made {
    Tree,
    Trace,
    Stored,
    Page,
}

fn text_of(alloc: Global, events: &[Event], made: Made) -> Result<Vec<u8>, AllocError>
    requires { length events.now ≤ EVENT_LIMIT }
{
    match made {
        Made::Tree => tree_text(alloc, &[LINK; 3]),
        Made::Trace => write_trace(alloc, events),
        Made::Stored => write_trace_of(alloc, Protocol::Boruvka, events),
        Made::Page => page(alloc, b"{}\n"),
    }
}

/// A text that is made is the one that is made where nothing is refused.
fn make(rt: &impl Abort, alloc: Global, events: &[Event], made: Made, k: usize) -> Turn {
    assert!(rt; events.len() as u64 <= EVENT_LIMIT);
    let whole = text_of(alloc, events, made).expect(rt, "a text");
    order(alloc, k);
    let answer = text_of(alloc, events, made);
    let turn = turn_of(alloc, k, &answer);
    assert_same(rt, answer, &whole);
    turn
}

/// The events of a run's text.
fn read(rt: &impl Abort, alloc: Global, events: &[Event], k: usize) -> Turn {
    assert!(rt; events.len() as u64 <= EVENT_LIMIT);
    let text = write_trace(alloc, events).expect(rt, "a text");
    order(alloc, k);
    let answer = read_trace(alloc, &text);
    let turn = turn_of(alloc, k, &answer);
    match answer {
        Ok(found) => assert!(rt; found.as_slice() == events),
        Err(fault) => assert!(rt; fault == TraceFault::Memory),
    }
    turn
}

/// The events of the text of a run that names its protocol.
fn read_stored(rt: &impl Abort, alloc: Global, events: &[Event], k: usize) -> Turn {
    assert!(rt; events.len() as u64 <= EVENT_LIMIT);
    let text = write_trace_of(alloc, Protocol::Boruvka, events).expect(rt, "a text");
    order(alloc, k);
    let answer = read_trace_of(alloc, Protocol::Boruvka, &text);
    let turn = turn_of(alloc, k, &answer);
    match answer {
        Ok(found) => assert!(rt; found.as_slice() == events),
        Err(fault) => assert!(rt; fault == StoredFault::Trace(TraceFault::Memory)),
    }
    turn
}

/// How the writing of a run's steps goes with the k-th allocation refused, and what is written.
fn write(
    rt: &impl Abort,
    alloc: Global,
    events: &[Event],
    form: Form,
    k: usize,
) -> (Turn, Vec<u8>) {
    assert!(rt; events.len() as u64 <= EVENT_LIMIT);
    let graph = five(alloc).expect(rt, "a graph");
    let mut held = Vec::with_capacity(alloc, 1 << 16).expect(rt, "memory");
    let mut out = Device::of(&mut held);
    order(alloc, k);
    let answer = write_steps(alloc, graph, WakeSet::All, events, &ALL, form, &mut out);
    let turn = turn_of(alloc, k, &answer);
    if let Err(fault) = answer {
        assert!(rt; fault == StepsFault::Memory);
    }
    (turn, held)
}

/// The lines of a short run go out as one portion, once they are whole: refused, nothing is written.
fn write_lines(rt: &impl Abort, alloc: Global, events: &[Event], form: Form, k: usize) -> Turn {
    let (turn, text) = write(rt, alloc, events, form, k);
    let (_, whole) = write(rt, alloc, events, form, 0);
    match turn {
        Turn::Refused => assert!(rt; text.is_empty()),
        _ => assert!(rt; text == whole && text.ends_with(b"\n")),
    }
    turn
}

/// A number's digits behind what there is; refused, nothing was added.
fn put_digits(rt: &impl Abort, alloc: Global, k: usize) -> Turn {
    let mut text = Vec::from_slice(alloc, b"w ").expect(rt, "memory");
    order(alloc, k);
    let answer = put_number(&mut text, u128::MAX);
    let turn = turn_of(alloc, k, &answer);
    let there = if turn == Turn::Refused { 2 } else { 41 };
    assert!(rt; text.len() == there && text.starts_with(b"w "));
    turn
}

/// One message more than stands in the list itself; refused, there is none more.
fn push(rt: &impl Abort, alloc: Global, k: usize) -> Turn {
    let mut sends = Sends::none(alloc);
    for port in 0..2 {
        assert!(rt; sends.push(port, Message::Accept).is_ok());
    }
    order(alloc, k);
    let answer = sends.push(2, Message::Reject);
    let turn = turn_of(alloc, k, &answer);
    assert!(rt; (sends.as_slice().len() == 2) == (turn == Turn::Refused));
    turn
}

static MADE: [(&str, Made); 4] = [
    ("tree_text", Made::Tree),
    ("write_trace", Made::Trace),
    ("write_trace_of", Made::Stored),
    ("page", Made::Page),
];

fn refuse_made<R: Print + Abort>(
    rt: &R,
    alloc: Global,
    events: &[Event],
    rows: &[(&str, Made)],
) -> Result<(), Fail> {
    for (name, made) in rows {
        refuse(rt, alloc, name, |k| make(rt, alloc, events, *made, k))?;
    }
    Ok(())
}

#[test]
fn texts(host: HostRuntime) -> Result<(), Fail> {
    let (rt, alloc) = (&host, host.alloc());
    let events = events_of_run(alloc).expect(rt, "a run");
    refuse_made(rt, alloc, &events, &MADE)?;
    refuse(rt, alloc, "read_trace", |k| read(rt, alloc, &events, k))?;
    refuse(
        rt,
        alloc,
        "read_trace_of",
        |k| read_stored(rt, alloc, &events, k),
    )
}

fn refuse_lines<R: Print + Abort>(
    rt: &R,
    alloc: Global,
    name: &str,
    form: Form,
) -> Result<(), Fail> {
    let events = events_of_run(alloc).expect(rt, "a run");
    refuse(
        rt,
        alloc,
        name,
        |k| write_lines(rt, alloc, &events, form, k),
    )
}

#[test]
fn lines_of_steps(host: HostRuntime) -> Result<(), Fail> {
    let (rt, alloc) = (&host, host.alloc());
    refuse_lines(rt, alloc, "write_steps", Form::Text)?;
    refuse_lines(rt, alloc, "write_steps(JSON)", Form::Json)
}

#[test]
fn parts_of_texts(host: HostRuntime) -> Result<(), Fail> {
    let (rt, alloc) = (&host, host.alloc());
    refuse(rt, alloc, "put_number", |k| put_digits(rt, alloc, k))?;
    refuse(rt, alloc, "Sends::push", |k| push(rt, alloc, k))
}
