//! Nets of Borůvka in step, played event by event to their end.
use crate::playing::{let_go, net_of, play, play_part};
use crate::runs::{FOUR_RUN, PATH_RUN, TRIANGLE_RUN};
use boruvka::protocol::Boruvka;
use boruvka_node::mark::Mark;
use boruvka_node::message::Message;
use boruvka_node::node::has_halted;
use ghs_node::level::Level;
use ghs_test_graphs::graphs::{LONE_NODE, PATH_OF_FOUR, PATH_OF_THREE, TRIANGLE};
use peer_machine::event::Event;
use peer_net::net::Net;
use std::process::Abort;

/// How many messages of each kind were sent.
fn assert_sent(
    rt: &impl Abort,
    net: &Net<Boruvka>,
    connects: u64,
    initiates: u64,
    names: u64,
    reports: u64,
    change_roots: u64,
) {
    let sent = [connects, initiates, names, reports, change_roots];
    assert_eq!(rt; net.ledger().sent, sent.as_slice());
}

/// Nothing waits, all that was sent was consumed, and these nodes alone have halted.
fn assert_end(rt: &impl Abort, net: &Net<Boruvka>, halted: &[u32]) {
    assert!(rt; net.silent());
    assert_eq!(rt; net.ledger().sent, net.ledger().consumed);
    for i in 0..net.graph().nodes() {
        assert_eq!(rt;
            has_halted(net.node(i + 1)),
            halted.contains(&(i + 1)),
            "node {i}"
        );
    }
}

/// The marks of a node's ports.
fn assert_marks(rt: &impl Abort, net: &Net<Boruvka>, v: u32, marks: &[Mark]) {
    assert!(rt; v >= 1 && v <= net.graph().nodes());
    let node = net.node(v);
    assert_eq!(rt; node.degree() as usize, marks.len());
    for port in 0..node.degree() {
        assert_eq!(rt; node.port(port).mark, marks[port as usize], "port {port}");
    }
}

/// What waits first at a port.
fn assert_front(rt: &impl Abort, net: &Net<Boruvka>, v: u32, port: u32, message: Message) {
    assert!(rt; v >= 1 && v <= net.graph().nodes());
    assert!(rt; (port as usize) < net.graph().ports(v).len());
    assert_eq!(rt; net.front(v, port).copied(), Some(message));
}

const BRANCH: [Mark; 1] = [Mark::Branch];

const BRANCHES: [Mark; 2] = [Mark::Branch, Mark::Branch];

const BRANCH_AND_INSIDE: [Mark; 2] = [Mark::Branch, Mark::Inside];

/// A lone node halts as soon as it wakes, and sends nothing.
#[test]
fn a_lone_node_halts(rt: HostRuntime) {
    let mut net = net_of::<Boruvka>(&rt, rt.alloc(), LONE_NODE);
    play(&rt, rt.alloc(), &mut net, Event::Wake(1));
    assert_sent(&rt, &net, 0, 0, 0, 0, 0);
    assert_end(&rt, &net, &[1]);
    let_go(net);
}

/// On the path 1-2-3 node 1 wakes, and node 2 by its Connect. Node 1, the lesser end of their core, is the root of level 1 and
/// calls node 2, whose Name wakes node 3. The Connect of node 3 comes late: node 2 calls it in. Reports come back, and node 1
/// halts.
#[test]
fn a_path_of_three(rt: HostRuntime) {
    let mut net = net_of::<Boruvka>(&rt, rt.alloc(), PATH_OF_THREE);
    let alloc = rt.alloc();
    play_part(&rt, alloc, &mut net, &PATH_RUN, 0, 1);
    assert_front(&rt, &net, 2, 0, Message::Connect(Level::ZERO));
    play_part(&rt, alloc, &mut net, &PATH_RUN, 1, 2);
    assert_sent(&rt, &net, 2, 0, 0, 0, 0);
    play_part(&rt, alloc, &mut net, &PATH_RUN, 2, 3);
    assert_sent(&rt, &net, 2, 1, 0, 0, 0);
    play_part(&rt, alloc, &mut net, &PATH_RUN, 3, 4);
    assert_sent(&rt, &net, 2, 1, 1, 0, 0);
    play_part(&rt, alloc, &mut net, &PATH_RUN, 4, 5);
    assert_sent(&rt, &net, 3, 1, 1, 0, 0);
    play_part(&rt, alloc, &mut net, &PATH_RUN, 5, 6);
    assert_sent(&rt, &net, 3, 2, 1, 0, 0);
    play_part(&rt, alloc, &mut net, &PATH_RUN, 6, 7);
    assert_front(&rt, &net, 2, 1, Message::Report(None));
    play_part(&rt, alloc, &mut net, &PATH_RUN, 7, 9);
    assert_sent(&rt, &net, 3, 2, 1, 2, 0);
    assert_end(&rt, &net, &[1]);
    assert_marks(&rt, &net, 1, &BRANCH);
    assert_marks(&rt, &net, 2, &BRANCHES);
    assert_marks(&rt, &net, 3, &BRANCH);
    let_go(net);
}

/// On the triangle all wake. Node 3 goes out over the link to node 2, which has noted that as it is called: so all are of level
/// 1 at once. Names go over the heaviest link in both directions, and it becomes Inside.
#[test]
fn a_triangle(rt: HostRuntime) {
    let mut net = net_of::<Boruvka>(&rt, rt.alloc(), TRIANGLE);
    let alloc = rt.alloc();
    play_part(&rt, alloc, &mut net, &TRIANGLE_RUN, 0, 3);
    assert_sent(&rt, &net, 3, 0, 0, 0, 0);
    play_part(&rt, alloc, &mut net, &TRIANGLE_RUN, 3, 5);
    assert_sent(&rt, &net, 3, 1, 1, 0, 0);
    play_part(&rt, alloc, &mut net, &TRIANGLE_RUN, 5, 7);
    assert_sent(&rt, &net, 3, 2, 1, 0, 0);
    play_part(&rt, alloc, &mut net, &TRIANGLE_RUN, 7, 9);
    assert_sent(&rt, &net, 3, 2, 2, 1, 0);
    play_part(&rt, alloc, &mut net, &TRIANGLE_RUN, 9, 12);
    assert_sent(&rt, &net, 3, 2, 2, 2, 0);
    assert_end(&rt, &net, &[1]);
    assert_marks(&rt, &net, 1, &BRANCH_AND_INSIDE);
    assert_marks(&rt, &net, 2, &BRANCHES);
    assert_marks(&rt, &net, 3, &BRANCH_AND_INSIDE);
    let_go(net);
}

/// On the path 1-2-3-4, with its heaviest link in the middle, two pairs of level 1 become one fragment of level 2. The root of
/// the first pair is node 1, and the way out leads over node 2, so a ChangeRoot goes there; the core is the middle link, and
/// node 2 its lesser end.
#[test]
fn a_path_of_four(rt: HostRuntime) {
    let mut net = net_of::<Boruvka>(&rt, rt.alloc(), PATH_OF_FOUR);
    let alloc = rt.alloc();
    play_part(&rt, alloc, &mut net, &FOUR_RUN, 0, 10);
    assert_sent(&rt, &net, 4, 2, 2, 1, 0);
    play_part(&rt, alloc, &mut net, &FOUR_RUN, 10, 15);
    assert_sent(&rt, &net, 6, 2, 2, 2, 1);
    play_part(&rt, alloc, &mut net, &FOUR_RUN, 15, 17);
    assert_sent(&rt, &net, 6, 4, 2, 2, 1);
    play_part(&rt, alloc, &mut net, &FOUR_RUN, 17, 23);
    assert_sent(&rt, &net, 6, 5, 2, 5, 1);
    assert_end(&rt, &net, &[2]);
    assert_marks(&rt, &net, 2, &BRANCHES);
    assert_marks(&rt, &net, 3, &BRANCHES);
    let_go(net);
}
