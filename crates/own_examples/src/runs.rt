//! Runs by books. Where the first node alone wakes, these runs are the same by every seed.
use ghs_test_graphs::build::graph_of;
use own_book::book::read_book;
use own_rules::rulebook::Rulebook;
use own_rules::run::{BookRun, run_book};
use peer_network::event::Event;
use peer_network::wake_set::WakeSet;
use std::alloc::Global;
use std::process::Abort;

/// Two nodes and their link.
const PAIR: &[u8] = b"p sp 2 2\na 1 2 5\na 2 1 5";

/// Node 1 pings when it wakes. What node 2 does with the ping isn't said.
const PING: &str =
    "own 1 = own 1 mine ping(node)\nopen 1 5:1-2 = asleep=yes\nopen 2 5:1-2 = asleep=yes\nwake 1 asleep=yes = a=1 done 0>ping(1)\n";

const ASKED: [Event; 2] = [Event::Wake(1), Event::Take(2, 0)];

const ANSWERED: [Event; 3] = [Event::Wake(1), Event::Take(2, 0), Event::Take(1, 0)];

/// The run by seed 7 of a book with these lines behind those of `PING`.
fn check(
    rt: &impl Abort,
    alloc: Global,
    lines: &str,
    events: &[Event],
    stopped: &[u32],
    lacking: &str,
) {
    let Some(mut book) = String::from_str(alloc, PING).ok() else {
        assert!(rt; false, "memory");
        return;
    };
    assert!(rt; book.push_str(lines).is_ok());
    match ran(alloc, book.as_bytes()) {
        Some(ran) => {
            assert_eq!(rt; ran.events.as_slice(), events);
            assert!(rt; are_stopped(&ran, stopped));
            assert_eq!(rt; ran.lacking.as_slice(), lacking.as_bytes());
        }
        None => assert!(rt; false, "run"),
    }
}

fn ran(alloc: Global, book: &[u8]) -> Option<BookRun> {
    let graph = graph_of(alloc, PAIR)?;
    let rules = Rulebook::of(alloc, read_book(alloc, book).ok()?).ok()?;
    run_book(alloc, &rules, graph, WakeSet::First, 7, 100, None).ok()
}

fn are_stopped(ran: &BookRun, nodes: &[u32]) -> bool {
    ran.stops.len() == nodes.len() && (0..nodes.len()).all(|at| ran.stops[at].0 == nodes[at])
}

#[test]
fn a_question_is_lacking(rt: HostRuntime) {
    check(
        &rt,
        rt.alloc(),
        "",
        &ASKED,
        &[2],
        "take 2 0 ping(1) asleep=yes\n",
    );
}

#[test]
fn a_book_that_answers_all_is_run_to_its_end(rt: HostRuntime) {
    check(
        &rt,
        rt.alloc(),
        "take 2 0 ping(1) asleep=yes = b=1 done 0>ping(2)\ntake 1 0 ping(2) a=1 = a=2 done\n",
        &ANSWERED,
        &[],
        "",
    );
}

#[test]
fn a_wrong_answer_stops_its_node(rt: HostRuntime) {
    check(
        &rt,
        rt.alloc(),
        "take 2 0 ping(1) asleep=yes = b=1 done 3>ping(2)\n",
        &ASKED,
        &[2],
        "",
    );
}

#[test]
fn a_book_that_says_nothing_lacks_all_openings(rt: HostRuntime) {
    match ran(rt.alloc(), b"") {
        Some(ran) => {
            assert_eq!(rt; ran.events.len(), 0);
            assert!(rt; are_stopped(&ran, &[1, 2]));
            assert_eq!(rt;
                ran.lacking.as_slice(),
                b"own 1\nopen 1 5:1-2\nopen 2 5:1-2\n".as_slice()
            );
        }
        None => assert!(&rt; false, "run"),
    }
}
