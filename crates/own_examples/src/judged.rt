//! Stored runs, judged by books.
use ghs_test_graphs::build::graph_of;
use own_book::book::read_book;
use own_judge::end::End;
use own_judge::judge::judge_stored;
use peer_network::event::Event;
use peer_network::wake_set::WakeSet;
use peer_schedule::fault::ReplayFault;
use std::alloc::Global;
use std::process::Abort;

/// Two nodes and their link: both wake, and node 2 takes the Connect.
const PAIR: &[u8] = b"p sp 2 2\na 1 2 5\na 2 1 5";

const EVENTS: [Event; 3] = [Event::Wake(1), Event::Wake(2), Event::Take(2, 0)];

/// The first lines of the book of a node that does as the table.
const BOOK: &str =
    "own 1 = own 1 mine connect(level) initiate(level,key,bit)\nopen 1 5:1-2 = a=1\nopen 2 5:1-2 = b=1\nwake 1 a=1 = a=2 done 0>connect(0)\nwake 2 b=1 = b=2 done 0>connect(0)\n";

fn check(rt: &impl Abort, alloc: Global, lines: &str, end: End, text: &str) {
    let whole = String::from_str(alloc, BOOK).ok();
    let Some(mut whole) = whole else {
        assert!(rt; false, "memory");
        return;
    };
    assert!(rt; whole.push_str(lines).is_ok());
    judged(rt, alloc, whole.as_bytes(), end, text);
}

fn judged(rt: &impl Abort, alloc: Global, book: &[u8], end: End, text: &str) {
    let Some(graph) = graph_of(alloc, PAIR) else {
        assert!(rt; false, "graph");
        return;
    };
    let Ok(book) = read_book(alloc, book) else {
        assert!(rt; false, "book");
        return;
    };
    match judge_stored(alloc, graph, WakeSet::All, &EVENTS, &book) {
        Ok(judgement) => {
            assert_eq!(rt; judgement.text.as_slice(), text.as_bytes());
            assert_eq!(rt; judgement.end, end);
        }
        Err(_) => assert!(rt; false, "run"),
    }
}

#[test]
fn a_node_agrees(rt: HostRuntime) {
    check(
        &rt,
        rt.alloc(),
        "take 2 0 connect(0) b=2 = b=3 done 0>initiate(1,5:1-2,find)\n",
        End::Agrees,
        "the node agrees with the protocol at all 3 events\n",
    );
}

#[test]
fn a_node_differs(rt: HostRuntime) {
    check(
        &rt,
        rt.alloc(),
        "take 2 0 connect(0) b=2 = b=3;halted=yes wait 0>connect(1) 0>connect(2)\n",
        End::Differs,
        "event 3: node 2 takes connect(0) at port 0, from node 1\nthe protocol, by row Connect_merges:\n  sends initiate(1,5:1-2,find) at port 0, to node 1\nyour node, by line 6 of the book:\n  defers the message\n  sends connect(1) at port 0, to node 1\n  sends connect(2) at port 0, to node 1\n  halts\nits state before: b=2\n",
    );
}

#[test]
fn a_question_is_open(rt: HostRuntime) {
    check(&rt, rt.alloc(), "", End::Asks, "take 2 0 connect(0) b=2\n");
    judged(
        &rt,
        rt.alloc(),
        b"",
        End::Asks,
        "own 1\nopen 1 5:1-2\nopen 2 5:1-2\n",
    );
}

#[test]
fn an_answer_has_a_fault(rt: HostRuntime) {
    check(
        &rt,
        rt.alloc(),
        "take 2 0 connect(0) b=2 = b=3 done 1>connect(0)\n",
        End::Fails,
        "event 3: node 2 takes connect(0) at port 0, from node 1\nNO_PORT: the node has no such port\nquestion: take 2 0 connect(0) b=2\nanswer: b=3 done 1>connect(0)\nline of the book: 6\n",
    );
    check(
        &rt,
        rt.alloc(),
        "take 2 0 connect(0) b=2 = ! no idea\n",
        End::Fails,
        "event 3: node 2 takes connect(0) at port 0, from node 1\nGIVES_UP: the node has no rule for this\nquestion: take 2 0 connect(0) b=2\nanswer: ! no idea\nline of the book: 6\n",
    );
}

/// Where memory is refused, a run isn't judged, and else it is: nothing comes between.
#[test]
fn memory_is_refused_or_the_verdict_is_whole(rt: HostRuntime) {
    let alloc = rt.alloc();
    let (Some(graph), Ok(book)) = (graph_of(alloc, PAIR), read_book(alloc, BOOK.as_bytes())) else {
        return;
    };
    match judge_stored(alloc, graph, WakeSet::All, &EVENTS, &book) {
        Ok(judgement) => {
            assert_eq!(rt;
                judgement.text.as_slice(),
                b"take 2 0 connect(0) b=2\n".as_slice()
            );
        }
        Err(fault) => assert!(rt; fault == ReplayFault::Memory),
    }
}
