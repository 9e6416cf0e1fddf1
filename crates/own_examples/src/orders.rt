//! All orders of the triangle, judged by books. The books are those of nodes in Python, their states renamed; how many states
//! there are, which rows their runs follow, and how long the shortest orders are, an explorer in Python says, which shares no code with this.
ghost use Rattle.std.specs.Prelude.{◌≤◌};

use ghs_explore::fault::ExploreFault;
use ghs_test_graphs::build::graph_of;
use own_book::book::read_book;
use own_judge::end::End;
use own_judge::judge::judge_stored;
use own_judge::orders::judge_orders;
use own_judge::outcome::Outcome;
use own_judge::rows::{Rows, put_rows};
use peer_network::event::Event;
use peer_network::wake_set::WakeSet;
use std::alloc::Global;
use std::process::Abort;

/// The triangle.
const TRIANGLE: &[u8] = b"p sp 3 3\na 1 2 1\na 2 3 2\na 1 3 3\n";

/// The node that does as the table.
const RIGHT: &str =
    "own 1 = own 1 ghs connect(level) initiate(level,key,bit) test(level,key) accept() reject() report(key?) changeroot()\nopen 1 1:1-2 3:1-3 = a=0\nopen 2 1:1-2 2:2-3 = a=0\nopen 3 2:2-3 3:1-3 = a=0\nwake 1 a=0 = a=1 done 0>connect(0)\nwake 2 a=0 = a=1 done 0>connect(0)\nwake 3 a=0 = a=1 done 0>connect(0)\ntake 2 0 connect(0) a=0 = a=1 done 0>connect(0) 0>initiate(1,1:1-2,find)\ntake 1 0 connect(0) a=0 = a=1 done 0>connect(0) 0>initiate(1,1:1-2,find)\ntake 2 1 connect(0) a=0 = a=1 wait 0>connect(0)\ntake 1 0 connect(0) a=1 = a=1 done 0>initiate(1,1:1-2,find)\ntake 2 0 connect(0) a=1 = a=1 done 0>initiate(1,1:1-2,find)\ntake 2 1 connect(0) a=1 = a=1 wait\ntake 1 0 initiate(1,1:1-2,find) a=1 = a=2 done 1>test(1,1:1-2)\ntake 2 0 initiate(1,1:1-2,find) a=1 = a=2 done 1>test(1,1:1-2)\ntake 3 1 test(1,1:1-2) a=0 = a=1 wait 0>connect(0)\ntake 3 0 test(1,1:1-2) a=0 = a=1 wait 0>connect(0)\ntake 3 1 test(1,1:1-2) a=1 = a=1 wait\ntake 2 1 connect(0) a=2 = a=3 done 1>initiate(1,1:1-2,find)\ntake 3 0 test(1,1:1-2) a=1 = a=1 wait\ntake 3 0 initiate(1,1:1-2,find) a=1 = a=2 done 1>test(1,1:1-2)\ntake 1 1 test(1,1:1-2) a=1 = a=1 wait\ntake 3 0 test(1,1:1-2) a=2 = a=2 done 0>reject\ntake 1 1 test(1,1:1-2) a=2 = a=4 done 0>report(-)\ntake 3 1 test(1,1:1-2) a=2 = a=4 done 0>report(-)\ntake 2 1 reject a=3 = a=5 done\ntake 2 0 report(-) a=3 = a=3 wait\ntake 2 1 report(-) a=3 = a=6 done\ntake 3 0 test(1,1:1-2) a=4 = a=4 done 0>reject\ntake 2 0 report(-) a=5 = a=5 wait\ntake 2 0 report(-) a=6 = a=6 wait\ntake 2 1 report(-) a=5 = a=7 done 0>report(-)\ntake 2 1 reject a=6 = a=7 done 0>report(-)\ntake 1 0 report(-) a=2 = a=2 wait\ntake 1 0 report(-) a=4 = a=8;halted=yes done\ntake 2 0 report(-) a=7 = a=9;halted=yes done\n";

/// The rows that its runs follow on the triangle.
const ROWS: &[u8] =
    b"rows met: Wakes Woken_merges Woken_connect_waits Woken_test_waits Connect_absorbed Connect_waits Connect_merges Initiate_searches Test_waits Test_rejected Tests_cross Reject_heard Report_heard Report_waits Report_halts\n";

/// A node whose Test never waits.
const NEVER_WAITS: &str =
    "own 1 = own 1 ghs connect(level) initiate(level,key,bit) test(level,key) accept() reject() report(key?) changeroot()\nopen 1 1:1-2 3:1-3 = a=0\nopen 2 1:1-2 2:2-3 = a=0\nopen 3 2:2-3 3:1-3 = a=0\nwake 1 a=0 = a=1 done 0>connect(0)\nwake 2 a=0 = a=1 done 0>connect(0)\nwake 3 a=0 = a=1 done 0>connect(0)\ntake 2 0 connect(0) a=0 = a=1 done 0>connect(0) 0>initiate(1,1:1-2,find)\ntake 1 0 connect(0) a=0 = a=1 done 0>connect(0) 0>initiate(1,1:1-2,find)\ntake 2 1 connect(0) a=0 = a=1 wait 0>connect(0)\ntake 1 0 connect(0) a=1 = a=1 done 0>initiate(1,1:1-2,find)\ntake 2 0 connect(0) a=1 = a=1 done 0>initiate(1,1:1-2,find)\ntake 2 1 connect(0) a=1 = a=1 wait\ntake 1 0 initiate(1,1:1-2,find) a=1 = a=2 done 1>test(1,1:1-2)\ntake 2 0 initiate(1,1:1-2,find) a=1 = a=2 done 1>test(1,1:1-2)\ntake 3 1 test(1,1:1-2) a=0 = a=1 done 0>connect(0) 1>accept\n";

/// A node that merges equal levels at once.
const MERGES: &str =
    "own 1 = own 1 ghs connect(level) initiate(level,key,bit) test(level,key) accept() reject() report(key?) changeroot()\nopen 1 1:1-2 3:1-3 = a=0\nopen 2 1:1-2 2:2-3 = a=0\nopen 3 2:2-3 3:1-3 = a=0\nwake 1 a=0 = a=1 done 0>connect(0)\nwake 2 a=0 = a=1 done 0>connect(0)\nwake 3 a=0 = a=1 done 0>connect(0)\ntake 2 0 connect(0) a=0 = a=1 done 0>connect(0) 0>initiate(1,1:1-2,find)\ntake 1 0 connect(0) a=0 = a=1 done 0>connect(0) 0>initiate(1,1:1-2,find)\ntake 2 1 connect(0) a=0 = a=1 done 0>connect(0) 1>initiate(1,2:2-3,find)\n";

fn outcome(rt: &impl Abort, alloc: Global, book: &str, limit: u32) -> Result<Outcome, ExploreFault>
    requires { 1 ≤ limit }
{
    let Some(graph) = graph_of(alloc, TRIANGLE) else {
        return Err(ExploreFault::Memory);
    };
    let Ok(book) = read_book(alloc, book.as_bytes()) else {
        assert!(rt; false, "book");
        return Err(ExploreFault::Memory);
    };
    judge_orders(alloc, &graph, WakeSet::All, &book, limit)
}

/// The order that is told has so many events, and a judge of the stored run tells it at the last of them.
fn assert_told(rt: &impl Abort, alloc: Global, book: &str, many: usize) {
    let Ok(Outcome::Tells(events)) = outcome(rt, alloc, book, 1_000) else {
        assert!(rt; false, "told");
        return;
    };
    assert_eq!(rt; events.len(), many);
    if events.len() > 5 {
        return;
    }
    let (Some(graph), Ok(book)) = (graph_of(alloc, TRIANGLE), read_book(alloc, book.as_bytes()))
    else {
        assert!(rt; false, "graph and book");
        return;
    };
    match judge_stored(alloc, graph, WakeSet::All, &events, &book) {
        Ok(judgement) => assert_eq!(rt; judgement.end, End::Differs),
        Err(_) => assert!(rt; false, "run"),
    }
}

/// The rows that the explorer in Python names.
fn assert_rows(rt: &impl Abort, alloc: Global, rows: &Rows) {
    let mut text = Vec::new(alloc);
    match put_rows(&mut text, rows) {
        Ok(()) => assert!(rt; text.as_slice() == ROWS),
        Err(_) => assert!(rt; false, "memory"),
    }
}

#[test]
fn all_orders_agree(rt: HostRuntime) {
    match outcome(&rt, rt.alloc(), RIGHT, 50) {
        Ok(Outcome::Agrees(states, rows)) => {
            assert_eq!(rt; states, 50);
            assert_rows(&rt, rt.alloc(), &rows);
        }
        _other => assert!(&rt; false, "agrees"),
    }
}

#[test]
fn more_states_than_the_limit(rt: HostRuntime) {
    match outcome(&rt, rt.alloc(), RIGHT, 49) {
        Err(fault) => assert!(&rt; fault == ExploreFault::TooMany),
        Ok(_) => assert!(&rt; false, "too many"),
    }
}

#[test]
fn a_shortest_order_is_told(rt: HostRuntime) {
    assert_told(&rt, rt.alloc(), NEVER_WAITS, 5);
    assert_told(&rt, rt.alloc(), MERGES, 2);
}

#[test]
fn questions_of_the_first_events_are_open(rt: HostRuntime) {
    match outcome(&rt, rt.alloc(), "", 50) {
        Ok(Outcome::Asks(questions)) => {
            assert_eq!(rt; questions.len(), 1);
            assert_eq!(rt; questions[0].bytes(), b"own 1".as_slice());
        }
        _other => assert!(&rt; false, "asks"),
    }
    match outcome(&rt, rt.alloc(), "own 1 = own 1 ghs connect(level)\n", 50) {
        Ok(Outcome::Asks(questions)) => {
            assert_eq!(rt; questions.len(), 3);
            assert_eq!(rt; questions[0].bytes(), b"open 1 1:1-2 3:1-3".as_slice());
            assert_eq!(rt; questions[1].bytes(), b"open 2 1:1-2 2:2-3".as_slice());
            assert_eq!(rt; questions[2].bytes(), b"open 3 2:2-3 3:1-3".as_slice());
        }
        _other => assert!(&rt; false, "asks"),
    }
}
