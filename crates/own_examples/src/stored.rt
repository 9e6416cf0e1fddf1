//! Stored runs by books: marks, texts, replays and steps. Sums are those of `sha256sum`.
use ghs_choices::choice::Choice;
use ghs_choices::form::Form;
use ghs_gr::device::Device;
use ghs_test_graphs::build::graph_of;
use own_book::book::read_book;
use own_rules::rulebook::Rulebook;
use own_rules::run::BookRun;
use own_runs::again::replay_book;
use own_runs::mark::{Misfit, fits, mark_of};
use own_runs::steps::write_steps_book;
use peer_network::event::Event;
use peer_network::wake_set::WakeSet;
use peer_schedule::fault::ReplayFault;
use peer_texts::fault::TraceFault;
use peer_trace::fault::StoredFault;
use peer_trace::own::{read_own_trace, write_own_trace};
use peer_trace::protocol::Protocol;
use peer_trace::trace::read_trace_of;
use std::alloc::Global;
use std::process::Abort;

/// Two nodes and their link.
const PAIR: &[u8] = b"p sp 2 2\na 1 2 5\na 2 1 5";

/// Node 1 pings when it wakes, and node 2 pings back.
const PINGS: &[u8] =
    b"own 1 = own 1 mine ping(node)\nopen 1 5:1-2 = asleep=yes\nopen 2 5:1-2 = asleep=yes\nwake 1 asleep=yes = a=1 done 0>ping(1)\ntake 2 0 ping(1) asleep=yes = b=1 done 0>ping(2)\ntake 1 0 ping(2) a=1 = a=2 done\n";

/// Its first four lines.
const FRONT: &[u8] =
    b"own 1 = own 1 mine ping(node)\nopen 1 5:1-2 = asleep=yes\nopen 2 5:1-2 = asleep=yes\nwake 1 asleep=yes = a=1 done 0>ping(1)\n";

/// As many lines as `FRONT`, but that node 1 sends nothing.
const OTHER: &[u8] =
    b"own 1 = own 1 mine ping(node)\nopen 1 5:1-2 = asleep=yes\nopen 2 5:1-2 = asleep=yes\nwake 1 asleep=yes = a=1 done\n";

const RUN: [Event; 3] = [Event::Wake(1), Event::Take(2, 0), Event::Take(1, 0)];

const RUN_TEXT: &[u8] =
    b"trace own mine entries 4 sum 91a0bacdb6fe89bbea72a827aaab6ff572c134bf30116bf30f5ea5476e9b6078 3\nwake 1\ntake 2 0\ntake 1 0\n";

const ACCOUNT: &[u8] = b"m ping=2\ns 2 2097152\n";

const LINES: &[u8] =
    b"1 1 - - wake goes_on - a=1;asleep=- 0>2:ping(1) 1\n2 2 0 1 ping(1) goes_on done b=1;asleep=- 0>1:ping(2) 2\n3 1 0 2 ping(2) goes_on done a=2 - 2\n";

/// Texts that are no run of a user's own protocol, each with its fault.
const FAULTS: [(&str, StoredFault); 7] = [
    ("trace 1\nwake 1\n", StoredFault::Other(Protocol::Ghs)),
    (
        "\ntrace echo 1\nwake 1\n",
        StoredFault::Other(Protocol::Echo),
    ),
    (
        "trace own 1\nwake 1\n",
        StoredFault::Trace(TraceFault::BadLine(1)),
    ),
    (
        "\ntrace own mine entries 4 sum 91a0bacd 1\nwake 1\n",
        StoredFault::Trace(TraceFault::BadLine(2)),
    ),
    (
        "trace own mine entries 4 sum 91A0BACDB6FE89BBEA72A827AAAB6FF572C134BF30116BF30F5EA5476E9B6078 1\nwake 1\n",
        StoredFault::Trace(TraceFault::BadLine(1)),
    ),
    (
        "trace own mine entries 4 sum 91a0bacdb6fe89bbea72a827aaab6ff572c134bf30116bf30f5ea5476e9b6078 2\nwake 1\n",
        StoredFault::Trace(TraceFault::Count { said: 2, found: 1 }),
    ),
    (
        "trace own mine entries 04 sum 91a0bacdb6fe89bbea72a827aaab6ff572c134bf30116bf30f5ea5476e9b6078 1\n\nwake x\n",
        StoredFault::Trace(TraceFault::Number(3)),
    ),
];

const ALL: Choice = Choice {
    from: 1,
    to: u64::MAX,
    node: None,
};

fn rules(alloc: Global, book: &[u8]) -> Option<Rulebook> {
    Rulebook::of(alloc, read_book(alloc, book).ok()?).ok()
}

/// The text of a run that is stored under a book.
fn stored(alloc: Global, book: &[u8]) -> Option<Vec<u8>> {
    let mark = mark_of(alloc, &read_book(alloc, book).ok()?).ok()?;
    write_own_trace(alloc, &mark, &RUN).ok()
}

/// Whether a book fits the mark of a stored text.
fn fitting(alloc: Global, book: &[u8], text: &[u8]) -> Option<Result<(), Misfit>> {
    let book = read_book(alloc, book).ok()?;
    let (mark, _) = read_own_trace(alloc, text).ok()?;
    Some(fits(&book, &mark))
}

fn replayed(alloc: Global, events: &[Event]) -> Option<Result<BookRun, ReplayFault>> {
    let rules = rules(alloc, PINGS)?;
    let graph = graph_of(alloc, PAIR)?;
    Some(replay_book(alloc, &rules, graph, WakeSet::First, events, None))
}

fn assert_steps(rt: &impl Abort, alloc: Global) {
    let mut written = Vec::new(alloc);
    let mut writer = Device::of(&mut written);
    match (rules(alloc, PINGS), graph_of(alloc, PAIR)) {
        (Some(rules), Some(graph)) => {
            let answer = write_steps_book(
                alloc,
                &rules,
                graph,
                WakeSet::First,
                &RUN,
                &ALL,
                Form::Text,
                &mut writer,
            );
            assert_eq!(rt; answer, Ok(()));
        }
        _ => assert!(rt; false, "book or graph"),
    }
    assert_eq!(rt; written.as_slice(), LINES);
}

fn assert_whole(rt: &impl Abort, ran: &BookRun) {
    assert_eq!(rt; ran.events.as_slice(), RUN.as_slice());
    assert!(rt; !ran.at_limit);
    assert_eq!(rt; ran.account.as_slice(), ACCOUNT);
}

/// The fault of a text as a run of a user's own protocol.
fn assert_fault(rt: &impl Abort, alloc: Global, text: &str, fault: StoredFault) {
    let found = read_own_trace(alloc, text.as_bytes()).err();
    assert_eq!(rt; found, Some(fault), "{text}");
}

#[test]
fn texts_of_no_such_run(rt: HostRuntime) {
    for (text, fault) in &FAULTS {
        assert_fault(&rt, rt.alloc(), text, *fault);
    }
}

#[test]
fn it_is_no_run_of_another_protocol(rt: HostRuntime) {
    let found = read_trace_of(rt.alloc(), Protocol::Ghs, RUN_TEXT).err();
    assert_eq!(rt; found, Some(StoredFault::Own));
}

#[test]
fn a_run_is_stored_under_its_book(rt: HostRuntime) {
    let text = stored(rt.alloc(), FRONT);
    assert!(&rt; text.is_some_and(|text| text.as_slice() == RUN_TEXT));
}

#[test]
fn a_book_with_more_answers_fits(rt: HostRuntime) {
    assert!(&rt; fitting(rt.alloc(), PINGS, RUN_TEXT) == Some(Ok(())));
}

#[test]
fn other_books_do_not_fit(rt: HostRuntime) {
    assert!(&rt; fitting(rt.alloc(), b"", RUN_TEXT) == Some(Err(Misfit::Shorter)));
    assert!(&rt; fitting(rt.alloc(), OTHER, RUN_TEXT) == Some(Err(Misfit::Another)));
}

#[test]
fn a_stored_run_is_played_again(rt: HostRuntime) {
    match replayed(rt.alloc(), &RUN) {
        Some(Ok(ran)) => assert_whole(&rt, &ran),
        _ => assert!(&rt; false, "run"),
    }
}

#[test]
fn a_front_of_a_run_goes_on(rt: HostRuntime) {
    match replayed(rt.alloc(), &[Event::Wake(1)]) {
        Some(Ok(ran)) => assert!(&rt; ran.at_limit),
        _ => assert!(&rt; false, "run"),
    }
}

#[test]
fn an_event_that_is_not_lawful(rt: HostRuntime) {
    match replayed(rt.alloc(), &[Event::Wake(1), Event::Take(1, 0)]) {
        Some(Err(fault)) => assert_eq!(&rt; fault, ReplayFault::NotLawful(2)),
        _ => assert!(&rt; false, "run"),
    }
}

#[test]
fn the_steps_of_a_stored_run(rt: HostRuntime) {
    assert_steps(&rt, rt.alloc());
}
