//! The middle node of the path 1-2-3: a whole run of it, works that have no rule, and copies.
use crate::fixtures::{JOIN, LEFT, NO_LINK, SEARCH, Works, act, after, at, works};
use ghs_node::delta::{Delta, Fate};
use ghs_node::fault::NodeFault;
use ghs_node::kind::Kind;
use ghs_node::level::Level;
use ghs_node::mark::Mark;
use ghs_node::message::{Message, Phase};
use ghs_node::node::Node;
use ghs_node::react::react;
use ghs_node::work::Work;
use std::alloc::Global;
use std::process::Abort;

const TOP: Message = Message::Initiate(Level::TOP, LEFT, Phase::Found);

/// What the node does with a piece of work, and of what goes out the first message.
#[derive(Clone, Copy, Debug, PartialEq)]
enum Answer {
    Does {
        mark: Option<(u32, Mark)>,
        sent: Option<(u32, Message)>,
    },
    Waits,
    Halts,
    Refuses(NodeFault),
}

use Answer::{Does, Halts, Refuses, Waits};

/// What the node does in a reaction.
fn deed_of(delta: &Delta) -> Answer {
    if delta.halts {
        return Halts;
    }
    if delta.fate == Fate::Requeued {
        return Waits;
    }
    Does {
        mark: delta.mark,
        sent: delta.sends.as_slice().first().copied(),
    }
}

fn answer_of(reply: &Result<Delta, NodeFault>) -> Answer {
    match reply {
        Ok(delta) => deed_of(delta),
        Err(fault) => Refuses(*fault),
    }
}

/// A piece of work, what the node does with it, and how many Reports it waits for then.
type Turn = (Work, Answer, u32);

const RUN: [Turn; 11] = [
    (
        Work::Wake,
        Does {
            mark: Some((0, Mark::Branch)),
            sent: Some((0, JOIN)),
        },
        0,
    ),
    (at!(1, JOIN), Waits, 0),
    (at!(0, Message::Accept), Refuses(NodeFault::Unforeseen), 0),
    (at!(2, Message::Accept), Refuses(NodeFault::NoPort), 0),
    (Work::Wake, Refuses(NodeFault::Unforeseen), 0),
    (
        at!(0, JOIN),
        Does {
            mark: None,
            sent: Some((0, SEARCH)),
        },
        0,
    ),
    (
        at!(0, SEARCH),
        Does {
            mark: None,
            sent: Some((1, Message::Test(Level::ONE, LEFT))),
        },
        0,
    ),
    (
        at!(1, JOIN),
        Does {
            mark: Some((1, Mark::Branch)),
            sent: Some((1, SEARCH)),
        },
        1,
    ),
    (
        at!(1, NO_LINK),
        Does {
            mark: None,
            sent: None,
        },
        0,
    ),
    (
        at!(1, Message::Reject),
        Does {
            mark: None,
            sent: Some((0, NO_LINK)),
        },
        0,
    ),
    (at!(0, NO_LINK), Halts, 0),
];

fn assert_answer(rt: &impl Abort, reply: &Result<Delta, NodeFault>, answer: Answer) {
    assert_eq!(rt; answer_of(reply), answer);
}

fn assert_awaited(rt: &impl Abort, node: &Node, find_count: u32) {
    assert_eq!(rt; node.head().find_count, find_count);
}

/// The node answers a piece of work like this, and does what it answers.
fn take_turn(rt: &impl Abort, alloc: Global, node: &mut Node, work: Work, answer: Answer) {
    let reply = react(alloc, node, work);
    assert_answer(rt, &reply, answer);
    if let Ok(delta) = reply {
        node.apply(&delta);
    }
}

#[test]
fn a_whole_run(rt: HostRuntime) {
    let mut node = after(&rt, rt.alloc(), 2, &[]);
    for (work, answer, find_count) in &RUN {
        take_turn(&rt, rt.alloc(), &mut node, *work, *answer);
        assert_awaited(&rt, &node, *find_count);
    }
    assert!(rt; node.head().halted);
}

#[derive(Clone, Copy, Debug)]
enum Name {
    InitiateOfNoHigherLevel,
    InitiateToSleep,
    ReportNotWaitedFor,
    ChangeRootWithoutBestLink,
    MergeAtTheTop,
    AbsorptionAtTheTop,
    MoreToWaitForThanPorts,
}

/// What a node that has done some works does with one more.
#[derive(Clone, Copy)]
struct Edge {
    name: Name,
    before: Works,
    work: Work,
    answer: Answer,
}

const EDGES: [Edge; 7] = [
    Edge {
        name: Name::InitiateOfNoHigherLevel,
        before: works!(Work::Wake),
        work: at!(0, Message::Initiate(Level::ZERO, LEFT, Phase::Find)),
        answer: Refuses(NodeFault::Unforeseen),
    },
    Edge {
        name: Name::InitiateToSleep,
        before: works!(Work::Wake),
        work: at!(0, Message::Initiate(Level::ONE, LEFT, Phase::Sleeping)),
        answer: Refuses(NodeFault::Unforeseen),
    },
    Edge {
        name: Name::ReportNotWaitedFor,
        before: works!(Work::Wake),
        work: at!(0, NO_LINK),
        answer: Refuses(NodeFault::Unforeseen),
    },
    Edge {
        name: Name::ChangeRootWithoutBestLink,
        before: works!(Work::Wake),
        work: at!(0, Message::ChangeRoot),
        answer: Refuses(NodeFault::Unforeseen),
    },
    Edge {
        name: Name::MergeAtTheTop,
        before: works!(Work::Wake, at!(0, TOP)),
        work: at!(0, Message::Connect(Level::TOP)),
        answer: Refuses(NodeFault::Unforeseen),
    },
    Edge {
        name: Name::AbsorptionAtTheTop,
        before: works!(Work::Wake, at!(0, TOP)),
        work: at!(0, Message::Connect(Level::NEXT_TO_TOP)),
        answer: Does {
            mark: Some((0, Mark::Branch)),
            sent: Some((0, TOP)),
        },
    },
    Edge {
        name: Name::MoreToWaitForThanPorts,
        before: works!(Work::Wake, at!(0, SEARCH), at!(1, JOIN), at!(1, JOIN)),
        work: at!(1, JOIN),
        answer: Refuses(NodeFault::Unforeseen),
    },
];

/// The node waits for as many Reports as before.
fn assert_edge(rt: &impl Abort, alloc: Global, edge: &Edge) {
    let mut node = after(rt, alloc, 2, &edge.before);
    let awaited = node.head().find_count;
    take_turn(rt, alloc, &mut node, edge.work, edge.answer);
    assert_eq!(rt; node.head().find_count, awaited, "{:?}", edge.name);
}

#[test]
fn at_the_edges_of_the_rules(rt: HostRuntime) {
    for edge in &EDGES {
        assert_edge(&rt, rt.alloc(), edge);
    }
}

/// The middle node as it is at first.
fn assert_untouched(rt: &impl Abort, node: &Node) {
    assert!(rt; node.head().phase == Phase::Sleeping);
    assert!(rt; node.number() == 2);
    assert!(rt; node.degree() == 2);
}

#[test]
fn copies(rt: HostRuntime) {
    let node = after(&rt, rt.alloc(), 2, &[]);
    let mut copy = node.copy(rt.alloc()).expect(&rt, "memory for a copy");
    assert!(rt; copy.same(&node));
    act(&rt, rt.alloc(), &mut copy, Work::Wake);
    assert!(rt; !copy.same(&node));
    assert_untouched(&rt, &node);
}

/// A message of each kind, by their places.
const MESSAGES: [Message; 7] = [
    JOIN,
    SEARCH,
    Message::Test(Level::ONE, LEFT),
    Message::Accept,
    Message::Reject,
    NO_LINK,
    Message::ChangeRoot,
];

fn assert_place(rt: &impl Abort, message: &Message, place: usize) {
    assert_eq!(rt; message.kind().place(), place);
}

#[test]
fn kinds(rt: HostRuntime) {
    for (place, message) in MESSAGES.iter().enumerate() {
        assert_place(&rt, message, place);
    }
    assert!(rt; Message::Accept.kind() == Kind::Accept);
}

/// What takes this may go to another thread, and be looked at from there.
fn cross_threads<T: Send + Sync>(_shared: &T) {}

#[test]
fn nodes_cross_threads(rt: HostRuntime) {
    let node = after(&rt, rt.alloc(), 2, &[]);
    cross_threads(&node);
}
