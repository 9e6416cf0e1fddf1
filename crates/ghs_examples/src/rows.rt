//! Each row of the table on a small node.
ghost use Rattle.ghs_node.specs.Reaction.{IsReaction};

use crate::fixtures::{FAR, LEFT, RIGHT, Works, after};
use ghs_graph::key::Key;
use ghs_node::delta::{Delta, Fate};
use ghs_node::head::Head;
use ghs_node::level::Level;
use ghs_node::mark::Mark;
use ghs_node::message::{Message, Phase};
use ghs_node::node::Node;
use ghs_node::react::react;
use ghs_node::row_name::{RowName, row_of};
use ghs_node::work::Work;
use std::alloc::Global;
use std::process::Abort;

/// A message as a table writes it, its level as a number: a static holds no `Level`.
#[derive(Clone, Copy)]
enum Says {
    Connect(u8),
    Initiate(u8, Key, Phase),
    Test(u8, Key),
    Accept,
    Reject,
    Report(Option<Key>),
    ChangeRoot,
}

/// A work as a table writes it.
#[derive(Clone, Copy)]
enum Deed {
    Wake,
    Take(u32, Says),
}

/// A head as a table writes it.
#[derive(Clone, Copy)]
struct Seen {
    level: u8,
    name: Option<Key>,
    phase: Phase,
    find_count: u32,
    in_branch: Option<u32>,
    best: Option<(u32, Key)>,
    probe: Option<u32>,
    halted: bool,
}

const JOIN: Says = Says::Connect(0);

const SEARCH: Says = Says::Initiate(1, LEFT, Phase::Find);

const NO_LINK: Says = Says::Report(None);

const REST: Says = Says::Initiate(1, LEFT, Phase::Found);

const SEARCH_ON: Says = Says::Initiate(2, FAR, Phase::Find);

const REST_ON: Says = Says::Initiate(2, FAR, Phase::Found);

const TEST: Says = Says::Test(1, LEFT);

/// Up to five deeds, in order. What holds a list isn't borrowed where it stands, so here and below tuples are lists.
type Deeds = (
    Option<Deed>,
    Option<Deed>,
    Option<Deed>,
    Option<Deed>,
    Option<Deed>,
);

macro_rules! deeds {
    () => { (None, None, None, None, None) };
    ($a:expr) => { (Some($a), None, None, None, None) };
    ($a:expr, $b:expr) => { (Some($a), Some($b), None, None, None) };
    ($a:expr, $b:expr, $c:expr) => { (Some($a), Some($b), Some($c), None, None) };
    ($a:expr, $b:expr, $c:expr, $d:expr) => { (Some($a), Some($b), Some($c), Some($d), None) };
    ($a:expr, $b:expr, $c:expr, $d:expr, $e:expr) => { (Some($a), Some($b), Some($c), Some($d), Some($e)) };
}

/// Up to two messages that go out, in order.
type Sent = (Option<(u32, Says)>, Option<(u32, Says)>);

macro_rules! sent {
    () => { (None, None) };
    ($a:literal: $m:expr) => { (Some(($a, $m)), None) };
    ($a:literal: $m:expr, $b:literal: $n:expr) => { (Some(($a, $m)), Some(($b, $n))) };
}

const UNTOUCHED: Seen = Seen {
    level: 0,
    name: None,
    phase: Phase::Sleeping,
    find_count: 0,
    in_branch: None,
    best: None,
    probe: None,
    halted: false,
};

const WOKEN: Seen = Seen {
    phase: Phase::Found,
    ..UNTOUCHED
};

/// Of a node of the fragment LEFT, at rest.
const RESTING: Seen = Seen {
    level: 1,
    name: Some(LEFT),
    in_branch: Some(0),
    ..WOKEN
};

/// Of a node of the fragment LEFT that tests port 1.
const SEARCHING: Seen = Seen {
    phase: Phase::Find,
    probe: Some(1),
    ..RESTING
};

/// One row of the table: a node that has done some works, one more work, and what comes of it. Where a row ends in several
/// ways, a comment at the name says in which.
#[derive(Clone, Copy)]
struct Row {
    name: RowName,
    degree: usize,
    before: Deeds,
    work: Deed,
    fate: Fate,
    mark: Option<(u32, Mark)>,
    sent: Sent,
    head: Seen,
}

/// What most rows have: two ports, a message that is done with and no other, and a node at rest afterwards.
const PLAIN: Row = Row {
    name: RowName::Wakes,
    degree: 2,
    before: deeds!(),
    work: Deed::Wake,
    fate: Fate::Consumed,
    mark: None,
    sent: sent!(),
    head: RESTING,
};

static SLEEPING: [Row; 6] = [
    Row {
        name: RowName::Wakes,
        work: Deed::Wake,
        mark: Some((0, Mark::Branch)),
        sent: sent!(0: JOIN),
        head: WOKEN,
        ..PLAIN
    },
    Row {
        name: RowName::WakesAlone,
        degree: 0,
        work: Deed::Wake,
        head: Seen {
            halted: true,
            ..WOKEN
        },
        ..PLAIN
    },
    Row {
        name: RowName::WokenMerges,
        work: Deed::Take(0, JOIN),
        mark: Some((0, Mark::Branch)),
        sent: sent!(0: JOIN, 0: SEARCH),
        head: WOKEN,
        ..PLAIN
    },
    Row {
        name: RowName::WokenConnectWaits,
        work: Deed::Take(1, JOIN),
        fate: Fate::Requeued,
        mark: Some((0, Mark::Branch)),
        sent: sent!(0: JOIN),
        head: WOKEN,
        ..PLAIN
    },
    Row {
        name: RowName::WokenTestWaits,
        work: Deed::Take(1, TEST),
        fate: Fate::Requeued,
        mark: Some((0, Mark::Branch)),
        sent: sent!(0: JOIN),
        head: WOKEN,
        ..PLAIN
    },
    Row {
        name: RowName::WokenAccepts,
        work: Deed::Take(1, Says::Test(0, RIGHT)),
        mark: Some((0, Mark::Branch)),
        sent: sent!(0: JOIN, 1: Says::Accept),
        head: WOKEN,
        ..PLAIN
    },
];

static CONNECTS: [Row; 4] = [
    Row {
        // In search.
        name: RowName::ConnectAbsorbed,
        before: deeds!(Deed::Wake, Deed::Take(0, SEARCH)),
        work: Deed::Take(1, JOIN),
        mark: Some((1, Mark::Branch)),
        sent: sent!(1: SEARCH),
        head: Seen {
            find_count: 1,
            ..SEARCHING
        },
        ..PLAIN
    },
    Row {
        // At rest.
        name: RowName::ConnectAbsorbed,
        before: deeds!(Deed::Wake, Deed::Take(0, REST)),
        work: Deed::Take(1, JOIN),
        mark: Some((1, Mark::Branch)),
        sent: sent!(1: REST),
        ..PLAIN
    },
    Row {
        name: RowName::ConnectWaits,
        before: deeds!(Deed::Wake),
        work: Deed::Take(1, JOIN),
        fate: Fate::Requeued,
        head: WOKEN,
        ..PLAIN
    },
    Row {
        name: RowName::ConnectMerges,
        before: deeds!(Deed::Wake),
        work: Deed::Take(0, JOIN),
        sent: sent!(0: SEARCH),
        head: WOKEN,
        ..PLAIN
    },
];

static INITIATES: [Row; 4] = [
    Row {
        name: RowName::InitiateRests,
        degree: 3,
        before: deeds!(Deed::Wake, Deed::Take(0, REST), Deed::Take(1, JOIN)),
        work: Deed::Take(0, REST_ON),
        sent: sent!(1: REST_ON),
        head: Seen {
            level: 2,
            name: Some(FAR),
            ..RESTING
        },
        ..PLAIN
    },
    Row {
        // And tests.
        name: RowName::InitiateSearches,
        degree: 3,
        before: deeds!(Deed::Wake, Deed::Take(0, REST), Deed::Take(1, JOIN)),
        work: Deed::Take(0, SEARCH_ON),
        sent: sent!(1: SEARCH_ON, 2: Says::Test(2, FAR)),
        head: Seen {
            level: 2,
            name: Some(FAR),
            phase: Phase::Find,
            find_count: 1,
            probe: Some(2),
            ..RESTING
        },
        ..PLAIN
    },
    Row {
        // And waits for a Report.
        name: RowName::InitiateSearches,
        before: deeds!(Deed::Wake, Deed::Take(0, REST), Deed::Take(1, JOIN)),
        work: Deed::Take(0, SEARCH_ON),
        sent: sent!(1: SEARCH_ON),
        head: Seen {
            level: 2,
            name: Some(FAR),
            phase: Phase::Find,
            find_count: 1,
            ..RESTING
        },
        ..PLAIN
    },
    Row {
        // And reports.
        name: RowName::InitiateSearches,
        degree: 1,
        before: deeds!(Deed::Wake),
        work: Deed::Take(0, SEARCH),
        sent: sent!(0: NO_LINK),
        ..PLAIN
    },
];

static TESTS: [Row; 6] = [
    Row {
        name: RowName::TestWaits,
        before: deeds!(Deed::Wake, Deed::Take(0, REST)),
        work: Deed::Take(1, Says::Test(2, LEFT)),
        fate: Fate::Requeued,
        ..PLAIN
    },
    Row {
        name: RowName::TestAccepted,
        before: deeds!(Deed::Wake, Deed::Take(0, REST)),
        work: Deed::Take(1, Says::Test(1, FAR)),
        sent: sent!(1: Says::Accept),
        ..PLAIN
    },
    Row {
        // On a basic port.
        name: RowName::TestRejected,
        before: deeds!(Deed::Wake, Deed::Take(0, REST)),
        work: Deed::Take(1, TEST),
        mark: Some((1, Mark::Rejected)),
        sent: sent!(1: Says::Reject),
        ..PLAIN
    },
    Row {
        // On a branch.
        name: RowName::TestRejected,
        before: deeds!(Deed::Wake, Deed::Take(0, REST)),
        work: Deed::Take(0, TEST),
        sent: sent!(0: Says::Reject),
        ..PLAIN
    },
    Row {
        // And the node reports.
        name: RowName::TestsCross,
        before: deeds!(Deed::Wake, Deed::Take(0, SEARCH)),
        work: Deed::Take(1, TEST),
        mark: Some((1, Mark::Rejected)),
        sent: sent!(0: NO_LINK),
        ..PLAIN
    },
    Row {
        // And the node tests on.
        name: RowName::TestsCross,
        degree: 3,
        before: deeds!(Deed::Wake, Deed::Take(0, SEARCH)),
        work: Deed::Take(1, TEST),
        mark: Some((1, Mark::Rejected)),
        sent: sent!(2: TEST),
        head: Seen {
            probe: Some(2),
            ..SEARCHING
        },
        ..PLAIN
    },
];

static ANSWERS: [Row; 3] = [
    Row {
        name: RowName::AcceptHeard,
        before: deeds!(Deed::Wake, Deed::Take(0, SEARCH)),
        work: Deed::Take(1, Says::Accept),
        sent: sent!(0: Says::Report(Some(RIGHT))),
        head: Seen {
            best: Some((1, RIGHT)),
            ..RESTING
        },
        ..PLAIN
    },
    Row {
        // And the node reports.
        name: RowName::RejectHeard,
        before: deeds!(Deed::Wake, Deed::Take(0, SEARCH)),
        work: Deed::Take(1, Says::Reject),
        mark: Some((1, Mark::Rejected)),
        sent: sent!(0: NO_LINK),
        ..PLAIN
    },
    Row {
        // And the node tests on.
        name: RowName::RejectHeard,
        degree: 3,
        before: deeds!(Deed::Wake, Deed::Take(0, SEARCH)),
        work: Deed::Take(1, Says::Reject),
        mark: Some((1, Mark::Rejected)),
        sent: sent!(2: TEST),
        head: Seen {
            probe: Some(2),
            ..SEARCHING
        },
        ..PLAIN
    },
];

static REPORTS: [Row; 5] = [
    Row {
        // While a Test is out.
        name: RowName::ReportHeard,
        before: deeds!(Deed::Wake, Deed::Take(0, SEARCH), Deed::Take(1, JOIN)),
        work: Deed::Take(1, Says::Report(Some(FAR))),
        head: Seen {
            best: Some((1, FAR)),
            ..SEARCHING
        },
        ..PLAIN
    },
    Row {
        // The last.
        name: RowName::ReportHeard,
        before: deeds!(
            Deed::Wake,
            Deed::Take(0, SEARCH),
            Deed::Take(1, JOIN),
            Deed::Take(1, Says::Reject)
        ),
        work: Deed::Take(1, Says::Report(Some(FAR))),
        sent: sent!(0: Says::Report(Some(FAR))),
        head: Seen {
            best: Some((1, FAR)),
            ..RESTING
        },
        ..PLAIN
    },
    Row {
        name: RowName::ReportWaits,
        before: deeds!(Deed::Wake, Deed::Take(0, SEARCH)),
        work: Deed::Take(0, NO_LINK),
        fate: Fate::Requeued,
        head: SEARCHING,
        ..PLAIN
    },
    Row {
        name: RowName::ReportHalts,
        before: deeds!(
            Deed::Wake,
            Deed::Take(0, SEARCH),
            Deed::Take(1, Says::Reject)
        ),
        work: Deed::Take(0, NO_LINK),
        head: Seen {
            halted: true,
            ..RESTING
        },
        ..PLAIN
    },
    Row {
        name: RowName::ReportPasses,
        before: deeds!(
            Deed::Wake,
            Deed::Take(0, SEARCH),
            Deed::Take(1, Says::Accept)
        ),
        work: Deed::Take(0, Says::Report(Some(LEFT))),
        head: Seen {
            best: Some((1, RIGHT)),
            ..RESTING
        },
        ..PLAIN
    },
];

static MOVES: [Row; 4] = [
    Row {
        // Along a branch.
        name: RowName::ReportMovesRoot,
        before: deeds!(
            Deed::Wake,
            Deed::Take(0, SEARCH),
            Deed::Take(1, JOIN),
            Deed::Take(1, Says::Reject),
            Deed::Take(1, Says::Report(Some(FAR)))
        ),
        work: Deed::Take(0, NO_LINK),
        sent: sent!(1: Says::ChangeRoot),
        head: Seen {
            best: Some((1, FAR)),
            ..RESTING
        },
        ..PLAIN
    },
    Row {
        // Out over the link.
        name: RowName::ReportMovesRoot,
        before: deeds!(
            Deed::Wake,
            Deed::Take(0, SEARCH),
            Deed::Take(1, Says::Accept)
        ),
        work: Deed::Take(0, NO_LINK),
        mark: Some((1, Mark::Branch)),
        sent: sent!(1: Says::Connect(1)),
        head: Seen {
            best: Some((1, RIGHT)),
            ..RESTING
        },
        ..PLAIN
    },
    Row {
        // Along a branch.
        name: RowName::RootMoves,
        before: deeds!(
            Deed::Wake,
            Deed::Take(0, SEARCH),
            Deed::Take(1, JOIN),
            Deed::Take(1, Says::Reject),
            Deed::Take(1, Says::Report(Some(FAR)))
        ),
        work: Deed::Take(0, Says::ChangeRoot),
        sent: sent!(1: Says::ChangeRoot),
        head: Seen {
            best: Some((1, FAR)),
            ..RESTING
        },
        ..PLAIN
    },
    Row {
        // Out over the link.
        name: RowName::RootMoves,
        before: deeds!(
            Deed::Wake,
            Deed::Take(0, SEARCH),
            Deed::Take(1, Says::Accept)
        ),
        work: Deed::Take(0, Says::ChangeRoot),
        mark: Some((1, Mark::Branch)),
        sent: sent!(1: Says::Connect(1)),
        head: Seen {
            best: Some((1, RIGHT)),
            ..RESTING
        },
        ..PLAIN
    },
];

fn level_of(rt: &impl Abort, level: u8) -> Level {
    Level::of(level).expect(rt, "a level")
}

fn message_of(rt: &impl Abort, says: Says) -> Message {
    match says {
        Says::Connect(level) => Message::Connect(level_of(rt, level)),
        Says::Initiate(level, name, phase) => Message::Initiate(level_of(rt, level), name, phase),
        Says::Test(level, name) => Message::Test(level_of(rt, level), name),
        Says::Accept => Message::Accept,
        Says::Reject => Message::Reject,
        Says::Report(best) => Message::Report(best),
        Says::ChangeRoot => Message::ChangeRoot,
    }
}

fn work_of(rt: &impl Abort, deed: Deed) -> Work {
    match deed {
        Deed::Wake => Work::Wake,
        Deed::Take(port, says) => Work::Deliver {
            port,
            message: message_of(rt, says),
        },
    }
}

fn done(rt: &impl Abort, deed: Option<Deed>) -> Option<Work> {
    match deed {
        Some(deed) => Some(work_of(rt, deed)),
        None => None,
    }
}

fn works_of(rt: &impl Abort, deeds: &Deeds) -> Works {
    [
        done(rt, deeds.0),
        done(rt, deeds.1),
        done(rt, deeds.2),
        done(rt, deeds.3),
        done(rt, deeds.4),
    ]
}

fn sent_of(rt: &impl Abort, sent: Option<(u32, Says)>) -> Option<(u32, Message)> {
    match sent {
        Some((port, says)) => Some((port, message_of(rt, says))),
        None => None,
    }
}

fn head_of(rt: &impl Abort, seen: &Seen) -> Head {
    Head {
        level: level_of(rt, seen.level),
        name: seen.name,
        phase: seen.phase,
        find_count: seen.find_count,
        in_branch: seen.in_branch,
        best: seen.best,
        probe: seen.probe,
        halted: seen.halted,
    }
}

fn assert_name(rt: &impl Abort, row: &Row, name: RowName) {
    assert_eq!(rt; name, row.name);
}

fn assert_fate(rt: &impl Abort, row: &Row, fate: Fate) {
    assert!(rt; fate == row.fate, "{:?}", row.name);
}

fn assert_mark(rt: &impl Abort, row: &Row, mark: Option<(u32, Mark)>) {
    assert!(rt; mark == row.mark, "{:?}", row.name);
}

fn assert_send(rt: &impl Abort, sent: Option<(u32, Message)>, want: Option<(u32, Message)>) {
    assert_eq!(rt; sent, want);
}

fn assert_sends(rt: &impl Abort, row: &Row, sends: &[(u32, Message)]) {
    assert!(rt; sends.len() <= 2, "{:?}", row.name);
    assert_send(rt, sends.get(0).copied(), sent_of(rt, row.sent.0));
    assert_send(rt, sends.get(1).copied(), sent_of(rt, row.sent.1));
}

fn assert_head(rt: &impl Abort, row: &Row, head: &Head) {
    let want = head_of(rt, &row.head);
    assert_eq!(rt; *head, want, "{:?}", row.name);
}

fn assert_delta(rt: &impl Abort, row: &Row, delta: &Delta) {
    assert_fate(rt, row, delta.fate);
    assert_mark(rt, row, delta.mark);
    assert_sends(rt, row, delta.sends.as_slice());
    assert!(rt; delta.halts == row.head.halted);
}

fn node_before(rt: &impl Abort, alloc: Global, row: &Row) -> Node {
    let works = works_of(rt, &row.before);
    after(rt, alloc, row.degree, &works)
}

/// What the node does, by the row of this name.
fn reaction(rt: &impl Abort, alloc: Global, row: &Row, node: &Node, work: &Work) -> Delta
    ensures { IsReaction node.now result }
{
    let delta = react(alloc, node, *work).expect(rt, "a reaction");
    assert_name(rt, row, row_of(node, *work));
    delta
}

fn assert_row(rt: &impl Abort, alloc: Global, row: &Row) {
    let mut node = node_before(rt, alloc, row);
    let work = work_of(rt, row.work);
    let delta = reaction(rt, alloc, row, &node, &work);
    assert_delta(rt, row, &delta);
    node.apply(&delta);
    assert_head(rt, row, node.head());
}

fn assert_rows(rt: &impl Abort, alloc: Global, rows: &[Row]) {
    for row in rows {
        assert_row(rt, alloc, row);
    }
}

#[test]
fn rows_of_nodes_that_sleep(rt: HostRuntime) {
    assert_rows(&rt, rt.alloc(), &SLEEPING);
}

#[test]
fn rows_of_connects_and_initiates(rt: HostRuntime) {
    assert_rows(&rt, rt.alloc(), &CONNECTS);
    assert_rows(&rt, rt.alloc(), &INITIATES);
}

#[test]
fn rows_of_tests_and_answers(rt: HostRuntime) {
    assert_rows(&rt, rt.alloc(), &TESTS);
    assert_rows(&rt, rt.alloc(), &ANSWERS);
}

#[test]
fn rows_of_reports(rt: HostRuntime) {
    assert_rows(&rt, rt.alloc(), &REPORTS);
}

#[test]
fn rows_of_moves_of_the_root(rt: HostRuntime) {
    assert_rows(&rt, rt.alloc(), &MOVES);
}
