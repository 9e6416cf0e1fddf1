//! Texts of stored runs that name their protocol, with ample memory. The texts and the faults are written by hand, from the
//! format.
use peer_machine::event::Event;
use peer_texts::fault::TraceFault;
use peer_trace::fault::StoredFault;
use peer_trace::protocol::Protocol;
use peer_trace::trace::{read_trace_of, write_trace_of};
use std::alloc::Global;
use std::process::Abort;

const EVENTS: [Event; 3] = [Event::Wake(1), Event::Wake(2), Event::Take(2, 0)];

/// The three events as a run of each protocol.
const TEXTS: [(Protocol, &str); 2] = [
    (Protocol::Ghs, "trace 3\nwake 1\nwake 2\ntake 2 0\n"),
    (
        Protocol::Boruvka,
        "trace boruvka 3\nwake 1\nwake 2\ntake 2 0\n",
    ),
];

fn reads(rt: &impl Abort, alloc: Global, protocol: Protocol, text: &str, events: &[Event]) {
    let read = read_trace_of(alloc, protocol, text.as_bytes())
        .ok()
        .expect(rt, "a stored run");
    assert_eq!(rt; read.as_slice(), events, "{text}");
}

fn goes_there_and_back(rt: &impl Abort, alloc: Global, protocol: Protocol, text: &str) {
    let written = write_trace_of(alloc, protocol, &EVENTS).expect(rt, "memory for a text");
    assert_eq!(rt; written.as_slice(), text.as_bytes());
    reads(rt, alloc, protocol, text, &EVENTS);
}

#[test]
fn runs_are_stored_under_their_protocol(rt: HostRuntime) {
    for (protocol, text) in &TEXTS {
        goes_there_and_back(&rt, rt.alloc(), *protocol, text);
    }
}

#[test]
fn other_forms_are_read(rt: HostRuntime) {
    let alloc = rt.alloc();
    reads(&rt, alloc, Protocol::Boruvka, "trace boruvka 0", &[]);
    reads(&rt, alloc, Protocol::Ghs, "\n\ntrace 0", &[]);
    reads(
        &rt,
        alloc,
        Protocol::Boruvka,
        "\r\n \t\n\ttrace  boruvka\t003 \r\n\nwake 01\nwake 2\n\ntake\t2 0",
        &EVENTS,
    );
}

const FAULTS: [(Protocol, &str, StoredFault); 18] = [
    (
        Protocol::Boruvka,
        "trace 3\nwake 1\nwake 2\ntake 2 0\n",
        StoredFault::Other(Protocol::Ghs),
    ),
    (
        Protocol::Ghs,
        "trace boruvka 3\nwake 1\nwake 2\ntake 2 0\n",
        StoredFault::Other(Protocol::Boruvka),
    ),
    // another protocol comes before any other fault
    (
        Protocol::Ghs,
        "\n\ntrace boruvka x\nwake x",
        StoredFault::Other(Protocol::Boruvka),
    ),
    (
        Protocol::Boruvka,
        "trace x",
        StoredFault::Other(Protocol::Ghs),
    ),
    // here `boruvka` is a count
    (
        Protocol::Boruvka,
        "trace boruvka",
        StoredFault::Other(Protocol::Ghs),
    ),
    (
        Protocol::Ghs,
        "trace boruvka",
        StoredFault::Trace(TraceFault::Number(1)),
    ),
    (
        Protocol::Boruvka,
        "trace boruvka x",
        StoredFault::Trace(TraceFault::Number(1)),
    ),
    (
        Protocol::Boruvka,
        "trace boruvka 1099511627777",
        StoredFault::Trace(TraceFault::Number(1)),
    ),
    (
        Protocol::Boruvka,
        "",
        StoredFault::Trace(TraceFault::BadLine(1)),
    ),
    (
        Protocol::Boruvka,
        " \r\n\t\n",
        StoredFault::Trace(TraceFault::BadLine(1)),
    ),
    (
        Protocol::Boruvka,
        "trace boruvka 2\nwake 1",
        StoredFault::Trace(TraceFault::Count { said: 2, found: 1 }),
    ),
    (
        Protocol::Boruvka,
        "\n \ntrace boruvka 1\nwake x",
        StoredFault::Trace(TraceFault::Number(4)),
    ),
    (
        Protocol::Boruvka,
        "\ntrace boruvka 1\ntrace boruvka 1",
        StoredFault::Trace(TraceFault::BadLine(3)),
    ),
    (
        Protocol::Boruvka,
        "trace boruvka 1 1",
        StoredFault::Trace(TraceFault::BadLine(1)),
    ),
    (
        Protocol::Boruvka,
        "trace ghs 1\nwake 1",
        StoredFault::Trace(TraceFault::BadLine(1)),
    ),
    (
        Protocol::Ghs,
        "trace ghs 1\nwake 1",
        StoredFault::Trace(TraceFault::BadLine(1)),
    ),
    (
        Protocol::Boruvka,
        "\nwake 1\ntrace boruvka 1",
        StoredFault::Trace(TraceFault::BadLine(2)),
    ),
    (
        Protocol::Ghs,
        "trace 1\nwake 1 2",
        StoredFault::Trace(TraceFault::BadLine(2)),
    ),
];

fn assert_fault(
    rt: &impl Abort,
    alloc: Global,
    protocol: Protocol,
    text: &str,
    fault: StoredFault,
) {
    let found = read_trace_of(alloc, protocol, text.as_bytes()).err();
    assert_eq!(rt; found, Some(fault), "{text}");
}

#[test]
fn faults_are_told(rt: HostRuntime) {
    for (protocol, text, fault) in &FAULTS {
        assert_fault(&rt, rt.alloc(), *protocol, text, *fault);
    }
}

#[test]
fn protocols_have_names(rt: HostRuntime) {
    assert_eq!(rt; Protocol::Ghs.name(), "ghs");
    assert_eq!(rt; Protocol::named("boruvka"), Some(Protocol::Boruvka));
    assert_eq!(rt; Protocol::named("Boruvka"), None);
}

/// What a fault says.
fn says(rt: &impl Abort, alloc: Global, fault: StoredFault, words: &str) {
    let text = format!(in alloc; "{fault}").expect(rt, "memory for a text");
    assert_eq!(rt; text.as_str(), words);
}

#[test]
fn faults_have_texts(rt: HostRuntime) {
    let alloc = rt.alloc();
    says(
        &rt,
        alloc,
        StoredFault::Other(Protocol::Boruvka),
        "a run of boruvka",
    );
    says(
        &rt,
        alloc,
        StoredFault::Trace(TraceFault::Number(2)),
        "line 2: number missing or out of range",
    );
}
