//! Nets of one thread, played event by event.
ghost use Rattle.ghs_core.specs.NetState.{IsLawful, IsAnswer};

use crate::comparing::assert_same;
use ghs_core::event::{Event, node_of};
use ghs_core::ledger::Ledger;
use ghs_core::net::Net;
use ghs_graph::graph::Graph;
use ghs_graph::key::Key;
use ghs_node::delta::Delta;
use ghs_node::node::Node;
use ghs_node::react::react;
use ghs_test_graphs::build::graph_of;
use ghs_test_graphs::graphs::{
    EQUAL_TRIANGLE, FALLING_PATH_OF_THREE, FORKED_PATH, LONE_NODE, PAIR, PARALLEL_PAIR,
    PATH_OF_FIVE, PATH_OF_FOUR, PATH_OF_THREE, STAR_OF_THREE, TRIANGLE, TWO_PAIRS,
    TWO_PAIRS_AND_NODE,
};
use std::alloc::Global;
use std::process::Abort;

/// The opening net of the graph of a text.
pub fn net_of(rt: &impl Abort, alloc: Global, text: &str) -> Net {
    let graph = graph_of(alloc, text.as_bytes()).expect(rt, "a graph");
    Net::open(alloc, graph).ok().expect(rt, "a net")
}

/// What a node does with a lawful event.
fn reaction_of(rt: &impl Abort, alloc: Global, net: &Net, event: Event) -> Delta
    requires { IsLawful net.now event }
    ensures { IsAnswer net.now event result }
{
    let v = node_of(event);
    assert!(rt; v >= 1 && v <= net.graph().nodes());
    let reply = react(alloc, net.node(v), net.work(event));
    reply.ok().expect(rt, "a rule")
}

/// Plays an event, which has to be lawful.
pub fn play(rt: &impl Abort, alloc: Global, net: &mut Net, event: Event) {
    assert!(rt; net.lawful(event));
    assert!(rt; net.events() < 1 << 40);
    let delta = reaction_of(rt, alloc, net, event);
    net.reserve(event, &delta).expect(rt, "memory");
    net.play(event, &delta);
}

/// Plays events, all of which have to be lawful.
pub fn play_all(rt: &impl Abort, alloc: Global, net: &mut Net, events: &[Event]) {
    for event in events {
        play(rt, alloc, net, *event);
    }
}

/// The net of a text after some events.
fn played(rt: &impl Abort, alloc: Global, text: &str, events: &[Event]) -> Net {
    let mut net = net_of(rt, alloc, text);
    play_all(rt, alloc, &mut net, events);
    net
}

fn is_lawful(net: &Net, event: Event) -> bool {
    net.lawful(event)
}

fn has_ended(net: &Net) -> bool {
    net.ended()
}

fn assert_lawful(rt: &impl Abort, net: &Net, event: Event) {
    assert!(rt; net.lawful(event));
}

fn assert_unlawful(rt: &impl Abort, net: &Net, events: &[Event]) {
    for event in events {
        assert!(rt; !is_lawful(net, *event), "{event:?}");
    }
}

fn assert_halted(rt: &impl Abort, net: &Net, halted: Option<u32>) {
    assert_same(rt, &net.core_halted(), &halted);
}

fn assert_ended(rt: &impl Abort, net: &Net, ended: bool) {
    assert_same(rt, &net.ended(), &ended);
}

fn assert_trace(rt: &impl Abort, net: &Net, events: &[Event]) {
    assert!(rt; net.trace() == events);
    assert!(rt; net.events() == events.len() as u64);
}

fn assert_ledger(rt: &impl Abort, net: &Net, ledger: &Ledger) {
    assert_same(rt, &net.ledger(), ledger);
}

fn branches_of(rt: &impl Abort, alloc: Global, net: &Net) -> Vec<Key> {
    net.branches(alloc).expect(rt, "memory")
}

/// The level of a node, and the nodes of its fragment.
fn fragment_of(rt: &impl Abort, alloc: Global, net: &Net, v: u32) -> (u8, Vec<u32>) {
    assert!(rt; v >= 1 && v <= net.graph().nodes());
    let level = net.level(v);
    (level, net.fragment(alloc, v).expect(rt, "memory"))
}

fn assert_level(rt: &impl Abort, alloc: Global, net: &Net, v: u32, level: u8) {
    let (found, _) = fragment_of(rt, alloc, net, v);
    assert_same(rt, &found, &level);
}

fn assert_fragment(rt: &impl Abort, alloc: Global, net: &Net, v: u32, nodes: &[u32]) {
    let (_, found) = fragment_of(rt, alloc, net, v);
    assert_same(rt, &found.as_slice(), &nodes);
}

/// The greatest level of the nodes, once the fragment of each has as many nodes as its level asks.
fn greatest_level(rt: &impl Abort, alloc: Global, net: &Net, nodes: u32) -> u8 {
    let mut greatest = 0;
    for v in 0..nodes {
        let (level, fragment) = fragment_of(rt, alloc, net, v + 1);
        assert!(rt; level <= 20);
        assert!(rt; fragment.len() >= 1 << level);
        greatest = greatest.max(level);
    }
    greatest
}

/// How many messages were sent.
fn sent_in(net: &Net) -> u64 {
    let mut total = 0u64;
    for count in net.ledger().sent {
        total = total.saturating_add(count);
    }
    total
}

fn assert_sent(rt: &impl Abort, net: &Net, sent: [u64; 7]) {
    assert_same(rt, &net.ledger().sent, &sent);
}

/// A link is this one: weight, smaller end, larger end.
fn assert_link(rt: &impl Abort, link: &Key, (weight, a, b): (u32, u32, u32)) {
    assert_same(rt, &(link.weight, link.a, link.b), &(weight, a, b));
}

/// The Branch links are these: weight, smaller end, larger end.
fn assert_branches(rt: &impl Abort, alloc: Global, net: &Net, tree: &[(u32, u32, u32)]) {
    let links = branches_of(rt, alloc, net);
    assert!(rt; links.len() == tree.len());
    for (link, row) in links.iter().zip(tree) {
        assert_link(rt, link, *row);
    }
}

/// A graph, and what is known of all its runs.
#[derive(Clone, Copy)]
struct Example {
    text: &'static str,
    nodes: u32,
    /// The greatest level at the end.
    level: u8,
    /// The most messages that a run sends: twice the links, and 5K - 2 for each node, where 2^K is at most the number of
    /// nodes.
    most: u64,
    /// The links of the tree: weight, smaller end, larger end.
    tree: &'static [(u32, u32, u32)],
}

/// Fragments are as large as their levels ask, and no more messages were sent than a run sends.
fn assert_within(rt: &impl Abort, alloc: Global, net: &Net, example: &Example) {
    let _ = greatest_level(rt, alloc, net, example.nodes);
    assert!(rt; sent_in(net) <= example.most);
}

/// Plays an event if it is lawful and the run goes on.
fn try_to_play(rt: &impl Abort, alloc: Global, net: &mut Net, example: &Example, event: Event) {
    if !has_ended(net) && is_lawful(net, event) {
        play(rt, alloc, net, event);
        assert_within(rt, alloc, net, example);
    }
}

/// Serves the nodes in this order, again and again, each with its wake and its ports in turn, until the run has ended.
fn run_in_order(rt: &impl Abort, alloc: Global, net: &mut Net, example: &Example, order: &[u32]) {
    for _ in 0..100 {
        for v in order {
            try_to_play(rt, alloc, net, example, Event::Wake(*v));
            for port in 0..example.nodes {
                try_to_play(rt, alloc, net, example, Event::Take(*v, port));
            }
        }
    }
    assert!(rt; has_ended(net));
}

/// A run of the two nodes of the pair.
const PAIR_RUN: [Event; 7] = [
    Event::Wake(1),
    Event::Wake(2),
    Event::Take(1, 0),
    Event::Take(2, 0),
    Event::Take(1, 0),
    Event::Take(2, 0),
    Event::Take(1, 0),
];

const PAIR_LEDGER: Ledger = Ledger {
    sent: [2, 2, 0, 0, 0, 2, 0],
    consumed: [2, 2, 0, 0, 0, 1, 0],
    requeued: 0,
    queued: 1,
    out: 0,
};

/// What can't come after the run: a node awake, no node, and no port.
const NOT_AFTER_PAIR_RUN: [Event; 3] = [Event::Wake(1), Event::Wake(3), Event::Take(2, 1)];

#[test]
fn two_nodes(rt: HostRuntime) {
    let alloc = rt.alloc();
    let mut net = net_of(&rt, alloc, PAIR);
    assert_halted(&rt, &net, None);
    play_all(&rt, alloc, &mut net, &PAIR_RUN);
    assert_halted(&rt, &net, Some(1));
    assert_trace(&rt, &net, &PAIR_RUN);
    assert_ledger(&rt, &net, &PAIR_LEDGER);
    assert_unlawful(&rt, &net, &NOT_AFTER_PAIR_RUN);
}

/// After all three nodes of the path have woken.
const PATH_LEDGER: Ledger = Ledger {
    sent: [3, 0, 0, 0, 0, 0, 0],
    consumed: [0; 7],
    requeued: 0,
    queued: 3,
    out: 0,
};

#[test]
fn path(rt: HostRuntime) {
    let alloc = rt.alloc();
    let mut net = played(&rt, alloc, PATH_OF_THREE, &[Event::Wake(1)]);
    assert_branches(&rt, alloc, &net, &[(5, 1, 2)]);
    play_all(&rt, alloc, &mut net, &[Event::Wake(2), Event::Wake(3)]);
    assert_ledger(&rt, &net, &PATH_LEDGER);
    assert_branches(&rt, alloc, &net, &[(5, 1, 2), (7, 2, 3)]);
    assert_level(&rt, alloc, &net, 2, 0);
    assert_fragment(&rt, alloc, &net, 2, &[1, 2]);
}

const EXAMPLES: [Example; 8] = [
    Example {
        text: LONE_NODE,
        nodes: 1,
        level: 0,
        most: 0,
        tree: &[],
    },
    Example {
        text: PAIR,
        nodes: 2,
        level: 1,
        most: 8,
        tree: &[(5, 1, 2)],
    },
    Example {
        text: PATH_OF_THREE,
        nodes: 3,
        level: 1,
        most: 13,
        tree: &[(5, 1, 2), (7, 2, 3)],
    },
    Example {
        text: TRIANGLE,
        nodes: 3,
        level: 1,
        most: 15,
        tree: &[(1, 1, 2), (2, 2, 3)],
    },
    Example {
        text: EQUAL_TRIANGLE,
        nodes: 3,
        level: 1,
        most: 15,
        tree: &[(4, 1, 2), (4, 1, 3)],
    },
    Example {
        text: PATH_OF_FOUR,
        nodes: 4,
        level: 2,
        most: 38,
        tree: &[(1, 1, 2), (2, 3, 4), (3, 2, 3)],
    },
    Example {
        text: PATH_OF_FIVE,
        nodes: 5,
        level: 2,
        most: 48,
        tree: &[(1, 1, 2), (2, 2, 3), (3, 4, 5), (4, 3, 4)],
    },
    Example {
        text: FORKED_PATH,
        nodes: 5,
        level: 2,
        most: 48,
        tree: &[(1, 1, 2), (2, 3, 4), (5, 2, 3), (9, 2, 5)],
    },
];

/// A run that serves the nodes in turn ends in what is known.
fn run_in_turn(rt: &impl Abort, alloc: Global, example: &Example) {
    let mut net = net_of(rt, alloc, example.text);
    run_in_order(rt, alloc, &mut net, example, &[1, 2, 3, 4, 5]);
    assert_end(rt, alloc, &net, example);
}

/// The greatest level, the fragment of node 1 and the tree are those that are known.
fn assert_end(rt: &impl Abort, alloc: Global, net: &Net, example: &Example) {
    let greatest = greatest_level(rt, alloc, net, example.nodes);
    assert!(rt; greatest == example.level);
    let (_, fragment) = fragment_of(rt, alloc, net, 1);
    assert!(rt; fragment.len() >= 1 && fragment.len() - 1 == example.tree.len());
    assert_branches(rt, alloc, net, example.tree);
}

#[test]
fn runs_in_turn(rt: HostRuntime) {
    for example in &EXAMPLES {
        run_in_turn(&rt, rt.alloc(), example);
    }
}

const PARALLEL: Example = Example {
    text: PARALLEL_PAIR,
    nodes: 2,
    level: 1,
    most: 10,
    tree: &[(5, 1, 2)],
};

fn run_parallel_links(rt: &impl Abort, alloc: Global, order: &[u32]) {
    let mut net = net_of(rt, alloc, PARALLEL.text);
    run_in_order(rt, alloc, &mut net, &PARALLEL, order);
    assert_branches(rt, alloc, &net, PARALLEL.tree);
    assert_sent(rt, &net, [2, 2, 2, 0, 0, 2, 0]);
}

/// Of two parallel links the lighter one is the tree. Each node tests the other one, and neither Test is answered.
#[test]
fn parallel_links(rt: HostRuntime) {
    let alloc = rt.alloc();
    run_parallel_links(&rt, alloc, &[1, 2]);
    run_parallel_links(&rt, alloc, &[2, 1]);
    run_parallel_links(&rt, alloc, &[1, 1, 1, 2]);
    run_parallel_links(&rt, alloc, &[2, 2, 1]);
}

/// Graphs in pieces: both have two pairs of nodes, and one has a node more.
const PIECES: [Example; 2] = [
    Example {
        text: TWO_PAIRS,
        nodes: 4,
        level: 1,
        most: 36,
        tree: &[(5, 1, 2), (6, 3, 4)],
    },
    Example {
        text: TWO_PAIRS_AND_NODE,
        nodes: 5,
        level: 1,
        most: 44,
        tree: &[(5, 1, 2), (6, 3, 4)],
    },
];

/// A run of two pairs that serves the nodes in this order sends the messages of both.
fn run_pieces(rt: &impl Abort, alloc: Global, example: &Example, order: &[u32]) {
    let mut net = net_of(rt, alloc, example.text);
    run_in_order(rt, alloc, &mut net, example, order);
    assert_branches(rt, alloc, &net, example.tree);
    assert_sent(rt, &net, [4, 4, 0, 0, 0, 4, 0]);
}

/// In a graph in pieces too, after each event no more messages were sent than a run sends.
#[test]
fn pieces_in_turn(rt: HostRuntime) {
    for example in &PIECES {
        run_pieces(&rt, rt.alloc(), example, &[1, 2, 3, 4, 5]);
        run_pieces(&rt, rt.alloc(), example, &[5, 3, 4, 2, 1]);
    }
}

/// A run of the second pair of two.
const SECOND_PAIR_RUN: [Event; 7] = [
    Event::Wake(4),
    Event::Wake(3),
    Event::Take(4, 0),
    Event::Take(3, 0),
    Event::Take(4, 0),
    Event::Take(3, 0),
    Event::Take(4, 0),
];

/// Plays events, and the run has ended then, or goes on.
fn go_on(rt: &impl Abort, alloc: Global, net: &mut Net, events: &[Event], ended: bool) {
    play_all(rt, alloc, net, events);
    assert_ended(rt, net, ended);
}

/// Of two pairs and a fifth node the first pair has ended: the other core node halts as well, which ends no further
/// component, and the other components end.
fn end_pieces(rt: &impl Abort, alloc: Global, net: &mut Net) {
    go_on(rt, alloc, net, &[Event::Take(2, 0)], false);
    go_on(rt, alloc, net, &SECOND_PAIR_RUN, false);
    go_on(rt, alloc, net, &[Event::Wake(5)], true);
}

/// A run has ended where each component has, and not before.
#[test]
fn pieces(rt: HostRuntime) {
    let alloc = rt.alloc();
    let mut net = net_of(&rt, alloc, TWO_PAIRS_AND_NODE);
    go_on(&rt, alloc, &mut net, &PAIR_RUN, false);
    assert_halted(&rt, &net, Some(1));
    end_pieces(&rt, alloc, &mut net);
    assert_halted(&rt, &net, Some(1));
    assert_branches(&rt, alloc, &net, &[(5, 1, 2), (6, 3, 4)]);
}

fn assert_same_run(rt: &impl Abort, left: &Net, right: &Net, same: bool) {
    assert!(rt; left.same(right) == same);
}

#[test]
fn same_runs(rt: HostRuntime) {
    let alloc = rt.alloc();
    let left = played(&rt, alloc, PATH_OF_THREE, &[Event::Wake(2)]);
    let mut right = net_of(&rt, alloc, PATH_OF_THREE);
    assert_same_run(&rt, &left, &right, false);
    play(&rt, alloc, &mut right, Event::Wake(3));
    assert_same_run(&rt, &left, &right, false);
}

/// The net that another one's graph opens with.
fn opened_again(rt: &impl Abort, alloc: Global, net: Net) -> Net {
    Net::open(alloc, net.into_graph()).ok().expect(rt, "memory")
}

/// Whether the net is the opening net of a text.
fn assert_opens(rt: &impl Abort, alloc: Global, net: &Net, text: &str, same: bool) {
    let opening = net_of(rt, alloc, text);
    assert_same_run(rt, net, &opening, same);
}

#[test]
fn a_graph_opens_again(rt: HostRuntime) {
    let alloc = rt.alloc();
    let net = played(&rt, alloc, PATH_OF_THREE, &[Event::Wake(2)]);
    let again = opened_again(&rt, alloc, net);
    assert_opens(&rt, alloc, &again, PAIR, false);
    assert_opens(&rt, alloc, &again, PATH_OF_THREE, true);
}

/// A node that is lifted out is the net's.
fn assert_lifted(rt: &impl Abort, alloc: Global, net: &Net, v: u32) {
    assert!(rt; v >= 1 && v <= net.graph().nodes());
    let node = net.lift(alloc, v).expect(rt, "memory");
    assert_same_node(rt, &node, net.node(v));
}

fn assert_same_node(rt: &impl Abort, node: &Node, other: &Node) {
    assert!(rt; node.same(other));
}

#[test]
fn a_node_lifted(rt: HostRuntime) {
    let net = net_of(&rt, rt.alloc(), PATH_OF_THREE);
    assert!(rt; net.graph().nodes() == 3);
    assert_lifted(&rt, rt.alloc(), &net, 1);
}

/// What changes when an event is played: messages consumed, and messages put back.
fn fates_of(rt: &impl Abort, alloc: Global, net: &mut Net, event: Event) -> (bool, bool) {
    let before = net.ledger();
    play(rt, alloc, net, event);
    let after = net.ledger();
    (
        after.consumed != before.consumed,
        after.requeued != before.requeued,
    )
}

/// The message that is taken is put back.
fn assert_put_back(rt: &impl Abort, alloc: Global, net: &mut Net, event: Event) {
    assert!(rt; fates_of(rt, alloc, net, event) == (false, true));
}

/// The message that is taken is consumed.
fn assert_consumed(rt: &impl Abort, alloc: Global, net: &mut Net, event: Event) {
    assert!(rt; fates_of(rt, alloc, net, event) == (true, false));
}

/// The message that is taken is put back, and two were sent until then.
fn put_back_of_two(rt: &impl Abort, alloc: Global, net: &mut Net, event: Event) {
    assert_put_back(rt, alloc, net, event);
    assert!(rt; sent_in(net) == 2);
}

/// A message that comes to a sleeping node is put back, and yet the run has moved on: the node is awake.
#[test]
fn a_message_put_back_at_a_sleeper(rt: HostRuntime) {
    let alloc = rt.alloc();
    let text = FALLING_PATH_OF_THREE;
    let mut net = played(&rt, alloc, text, &[Event::Wake(1)]);
    assert_lawful(&rt, &net, Event::Wake(2));
    put_back_of_two(&rt, alloc, &mut net, Event::Take(2, 1));
    assert_unlawful(&rt, &net, &[Event::Wake(2)]);
    put_back_of_two(&rt, alloc, &mut net, Event::Take(2, 1));
}

/// Until node 1 waits for node 3, which holds its Test and behind it the Initiate; node 2's Report waits at node 1.
const UNTIL_ALL_WAIT: [Event; 7] = [
    Event::Wake(1),
    Event::Wake(3),
    Event::Take(2, 0),
    Event::Take(1, 0),
    Event::Take(1, 0),
    Event::Take(2, 0),
    Event::Take(1, 1),
];

/// All first messages wait; behind one of them stands the message that moves the run on.
#[test]
fn all_first_messages_wait(rt: HostRuntime) {
    let alloc = rt.alloc();
    let mut net = played(&rt, alloc, STAR_OF_THREE, &UNTIL_ALL_WAIT);
    assert_unlawful(&rt, &net, &[Event::Take(1, 1), Event::Take(2, 0)]);
    assert_put_back(&rt, alloc, &mut net, Event::Take(1, 0));
    assert_put_back(&rt, alloc, &mut net, Event::Take(3, 0));
    assert_consumed(&rt, alloc, &mut net, Event::Take(3, 0));
}

/// A graph is as its copy.
fn assert_copied(rt: &impl Abort, alloc: Global, graph: &Graph) {
    let copy = graph.copy(alloc).expect(rt, "memory");
    assert!(rt; graph.same(&copy));
}

#[test]
fn copies(rt: HostRuntime) {
    let net = net_of(&rt, rt.alloc(), PATH_OF_THREE);
    assert_copied(&rt, rt.alloc(), net.graph());
}
