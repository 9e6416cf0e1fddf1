//! Texts of traces, with ample memory, and picks of schedules.
use ghs_test_graphs::traces::PAIR_TRACE;
use peer_network::event::Event;
use peer_schedule::schedule::Schedule;
use peer_texts::fault::TraceFault;
use peer_texts::trace::{read_trace, write_trace};
use std::alloc::Global;
use std::process::Abort;

/// A run of the pair.
const PAIR_EVENTS: [Event; 7] = [
    Event::Wake(1),
    Event::Wake(2),
    Event::Take(1, 0),
    Event::Take(2, 0),
    Event::Take(1, 0),
    Event::Take(2, 0),
    Event::Take(1, 0),
];

fn reads(rt: &impl Abort, alloc: Global, text: &str, events: &[Event]) {
    let read = read_trace(alloc, text.as_bytes())
        .ok()
        .expect(rt, "a trace");
    assert_eq!(rt; read.as_slice(), events, "{text}");
}

fn writes(rt: &impl Abort, alloc: Global, events: &[Event], text: &str) {
    let written = write_trace(alloc, events).expect(rt, "memory for a text");
    assert_eq!(rt; written.as_slice(), text.as_bytes());
}

/// The events have this text, which reads as them.
fn goes_there_and_back(rt: &impl Abort, alloc: Global, events: &[Event], text: &str) {
    writes(rt, alloc, events, text);
    reads(rt, alloc, text, events);
}

#[test]
fn traces_are_written_and_read(rt: HostRuntime) {
    let alloc = rt.alloc();
    writes(&rt, alloc, &[], "trace 0\n");
    goes_there_and_back(&rt, alloc, &PAIR_EVENTS, PAIR_TRACE);

    let greatest = [Event::Take(u32::MAX, u32::MAX), Event::Wake(0)];
    let text = "trace 2\ntake 4294967295 4294967295\nwake 0\n";
    goes_there_and_back(&rt, alloc, &greatest, text);
}

#[test]
fn other_forms_are_read(rt: HostRuntime) {
    let alloc = rt.alloc();
    reads(&rt, alloc, "trace 0", &[]);
    reads(
        &rt,
        alloc,
        "\r\n\n\ttrace  002 \r\n \nwake 01\r\n\ntake\t1 0",
        &[Event::Wake(1), Event::Take(1, 0)],
    );
}

const FAULTS: [(&str, TraceFault); 17] = [
    ("", TraceFault::BadLine(1)),
    (" \r\n\t\n", TraceFault::BadLine(1)),
    ("trace 1", TraceFault::Count { said: 1, found: 0 }),
    ("trace x", TraceFault::Number(1)),
    ("trace 1\ntake 1", TraceFault::BadLine(2)),
    ("trace 2\nwake 1", TraceFault::Count { said: 2, found: 1 }),
    (
        "trace 1\nwake 1\ntake 1 0",
        TraceFault::Count { said: 1, found: 2 },
    ),
    ("trace 1\ntrace 1", TraceFault::BadLine(2)),
    ("wake 1", TraceFault::BadLine(1)),
    ("wake x", TraceFault::BadLine(1)),
    ("trace 1\nwake 4294967296", TraceFault::Number(2)),
    ("trace 1\ntake 0 4294967296", TraceFault::Number(2)),
    ("trace 1099511627777", TraceFault::Number(1)),
    (
        "trace 1099511627776",
        TraceFault::Count {
            said: 1_099_511_627_776,
            found: 0,
        },
    ),
    ("trace 1\nwake 1 2", TraceFault::BadLine(2)),
    ("\ntrace\nwake x", TraceFault::BadLine(2)),
    ("trace 9\nwake +1\nc", TraceFault::Number(2)),
];

fn assert_fault(rt: &impl Abort, alloc: Global, text: &str, fault: TraceFault) {
    let found = read_trace(alloc, text.as_bytes()).err();
    assert_eq!(rt; found, Some(fault), "{text}");
}

#[test]
fn names_the_first_fault(rt: HostRuntime) {
    for (text, fault) in &FAULTS {
        assert_fault(&rt, rt.alloc(), text, *fault);
    }
}

/// Seeds, and the first places that their schedules pick among a thousand.
const PICKS: [(u64, [usize; 5]); 3] = [
    (0, [503, 255, 180, 330, 874]),
    (1, [387, 965, 744, 470, 780]),
    (u64::MAX, [986, 512, 435, 187, 841]),
];

fn picks(rt: &impl Abort, schedule: &mut Schedule, places: &[usize]) {
    for place in places {
        assert_eq!(rt; schedule.pick(1000), *place);
    }
}

#[test]
fn picks_are_the_words_of_the_seed(rt: HostRuntime) {
    for (seed, places) in &PICKS {
        picks(&rt, &mut Schedule::seeded(*seed), places);
    }
}

/// A copy goes on from where the schedule stands, and leaves it there.
fn copy_picks_alike(rt: &impl Abort, seed: u64, places: &[usize; 5]) {
    let mut schedule = Schedule::seeded(seed);
    picks(rt, &mut schedule, &places[..1]);
    let mut copy = schedule.copy().expect(rt, "memory for a copy");
    picks(rt, &mut copy, &places[1..]);
    picks(rt, &mut schedule, &places[1..]);
}

#[test]
fn copies_pick_alike(rt: HostRuntime) {
    for (seed, places) in &PICKS {
        copy_picks_alike(&rt, *seed, places);
    }
}
