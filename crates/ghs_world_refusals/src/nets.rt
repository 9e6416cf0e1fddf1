//! Nodes and nets of one thread.
use ghs_core::event::{Event, node_of};
use ghs_core::net::Net;
use ghs_graph::graph::Graph;
use ghs_graph::port::Port;
use ghs_node::fault::NodeFault;
use ghs_node::node::Node;
use ghs_node::react::react;
use ghs_refusing::orders::{Count, NONE, Turn, order, refuse, refuse_each, tell, turn_of};
use ghs_refusing::scenes::{are_same, events_of, events_of_run, five, is_five};
use ghs_report::report_text::report_text;
use ghs_test_graphs::build::graph_of;
use ghs_test_graphs::graphs::{HUB_AND_PAIR, PATH_OF_FIVE, STAR_OF_EIGHTEEN};
use std::alloc::Global;
use std::process::Abort;
use std::test::Fail;

/// Lets go of a net here, so that its memory's way isn't in the proof of each function that has one.
fn let_go(_net: Net) {}

fn assert_opening(rt: &impl Abort, alloc: Global, net: Net) {
    assert!(rt; is_five(alloc, net.graph()) && net.trace().is_empty());
    let_go(net);
}

/// The graph comes back, and opens then.
fn open_again(rt: &impl Abort, alloc: Global, graph: Graph) {
    assert!(rt; is_five(alloc, &graph));
    assert!(rt; Net::open(alloc, graph).is_ok());
}

fn open(rt: &impl Abort, alloc: Global, k: usize) -> Turn {
    let graph = five(alloc).expect(rt, "a graph");
    order(alloc, k);
    let answer = Net::open(alloc, graph);
    let turn = turn_of(alloc, k, &answer);
    match answer {
        Ok(net) => assert_opening(rt, alloc, net),
        Err((graph, _)) => open_again(rt, alloc, graph),
    }
    turn
}

/// How the reaction of an event's node goes, with the k-th allocation refused.
fn reaction(rt: &impl Abort, alloc: Global, net: &Net, event: Event, k: usize) -> Turn {
    assert!(rt; net.lawful(event));
    let v = node_of(event);
    assert!(rt; v >= 1 && v <= net.graph().nodes());
    order(alloc, k);
    let answer = react(alloc, net.node(v), net.work(event));
    let turn = turn_of(alloc, k, &answer);
    assert_fault(rt, answer.err());
    turn
}

/// There was no fault but lack of memory.
fn assert_fault(rt: &impl Abort, fault: Option<NodeFault>) {
    assert!(rt; fault.is_none() || fault == Some(NodeFault::Memory));
}

/// Plays an event, with the k-th allocation of the room for it refused. A net without room for it is as it was.
fn play(rt: &impl Abort, alloc: Global, net: &mut Net, event: Event, k: usize) -> Turn {
    assert!(rt; net.lawful(event));
    assert!(rt; net.events() < 1 << 40);
    let v = match event {
        Event::Wake(v) => v,
        Event::Take(v, _) => v,
    };
    assert!(rt; v >= 1 && v <= net.graph().nodes());
    let delta = react(alloc, net.node(v), net.work(event))
        .ok()
        .expect(rt, "a rule");
    order(alloc, k);
    let room = net.reserve(event, &delta);
    let turn = turn_of(alloc, k, &room);
    if let Ok(()) = room {
        net.play(event, &delta);
    }
    turn
}

/// The net of the five nodes after these events.
fn net_after(rt: &impl Abort, alloc: Global, events: &[Event]) -> Net {
    net_of_after(rt, alloc, PATH_OF_FIVE, events)
}

/// The net of the graph of a text after these events.
fn net_of_after(rt: &impl Abort, alloc: Global, graph: &str, events: &[Event]) -> Net {
    let graph = graph_of(alloc, graph.as_bytes()).expect(rt, "a graph");
    let mut net = Net::open(alloc, graph).ok().expect(rt, "a net");
    for event in events {
        assert!(rt; play(rt, alloc, &mut net, *event, 0) != Turn::Refused);
    }
    net
}

/// A net of the five nodes is the one after these events.
fn assert_after(rt: &impl Abort, alloc: Global, net: &Net, events: &[Event]) {
    assert_of_after(rt, alloc, PATH_OF_FIVE, net, events);
}

/// A net of the graph of a text is the one after these events.
fn assert_of_after(rt: &impl Abort, alloc: Global, graph: &str, net: &Net, events: &[Event]) {
    let twin = net_of_after(rt, alloc, graph, events);
    assert!(rt; are_same(net, &twin));
    let_go(twin);
}

/// One event of a hub's run after these, with the k-th allocation of its reaction refused.
fn react_after(rt: &impl Abort, alloc: Global, events: &[Event], event: Event, k: usize) -> Turn {
    let net = net_of_after(rt, alloc, HUB_AND_PAIR, events);
    let turn = reaction(rt, alloc, &net, event, k);
    assert_of_after(rt, alloc, HUB_AND_PAIR, &net, events);
    let_go(net);
    turn
}

fn play_whole(rt: &impl Abort, alloc: Global, net: &mut Net, event: Event) {
    assert!(rt; play(rt, alloc, net, event, 0) != Turn::Refused);
}

/// One event after these, with the k-th allocation of the room for it refused; then it is played.
fn play_after(rt: &impl Abort, alloc: Global, events: &[Event], event: Event, k: usize) -> Turn {
    let mut net = net_after(rt, alloc, events);
    let turn = play(rt, alloc, &mut net, event, k);
    if turn == Turn::Refused {
        assert_after(rt, alloc, &net, events);
        play_whole(rt, alloc, &mut net, event);
    }
    assert_played(rt, alloc, &net, events, event);
    let_go(net);
    turn
}

/// A net is the one after these events and one more.
fn assert_played(rt: &impl Abort, alloc: Global, net: &Net, events: &[Event], event: Event) {
    let mut twin = net_after(rt, alloc, events);
    play_whole(rt, alloc, &mut twin, event);
    assert!(rt; are_same(net, &twin));
    let_go(twin);
}

/// What is asked of a net, and leaves it as it was.
#[derive(Clone, Copy)]
enum Asked {
    Branches,
    Fragment,
    Census,
    Asleep,
    Text,
}

/// What is asked of a whole net.
fn ask_net(alloc: Global, net: &Net, asked: Asked, k: usize) -> Option<Turn> {
    match asked {
        Asked::Branches => Some(turn_of(alloc, k, &net.branches(alloc))),
        Asked::Census => Some(turn_of(alloc, k, &net.census(alloc))),
        Asked::Text => Some(turn_of(alloc, k, &report_text(alloc, net))),
        _ => None,
    }
}

/// What is asked of node 3, or of its ports.
fn ask_node(
    rt: &impl Abort,
    alloc: Global,
    net: &Net,
    ports: &[Port],
    asked: Asked,
    k: usize,
) -> Turn {
    assert!(rt; net.graph().nodes() >= 3 && ports.len() <= 2);
    match asked {
        Asked::Fragment => turn_of(alloc, k, &net.fragment(alloc, 3)),
        _ => turn_of(alloc, k, &Node::asleep(alloc, 3, ports)),
    }
}

/// What is asked of a net, or of a graph that is as its own.
fn ask_of(
    rt: &impl Abort,
    alloc: Global,
    net: &Net,
    graph: &Graph,
    asked: Asked,
    k: usize,
) -> Turn {
    assert!(rt; graph.nodes() >= 3);
    let ports = graph.ports(3);
    order(alloc, k);
    match ask_net(alloc, net, asked, k) {
        Some(turn) => turn,
        None => ask_node(rt, alloc, net, ports, asked, k),
    }
}

fn ask(rt: &impl Abort, alloc: Global, events: &[Event], asked: Asked, k: usize) -> Turn {
    let net = net_after(rt, alloc, events);
    let graph = five(alloc).expect(rt, "a graph");
    let turn = ask_of(rt, alloc, &net, &graph, asked, k);
    assert_after(rt, alloc, &net, events);
    let_go(net);
    turn
}

static ASKED: [(&str, Asked); 5] = [
    ("Net::branches", Asked::Branches),
    ("Net::fragment", Asked::Fragment),
    ("Net::census", Asked::Census),
    ("Node::asleep", Asked::Asleep),
    ("report_text", Asked::Text),
];

fn refuse_asked<R: Print + Abort>(
    rt: &R,
    alloc: Global,
    events: &[Event],
    rows: &[(&str, Asked)],
) -> Result<(), Fail> {
    for (name, asked) in rows {
        refuse(rt, alloc, name, |k| ask(rt, alloc, events, *asked, k))?;
    }
    Ok(())
}

/// The opening net of a star. Its hub has so many ports that their marks don't stand in the node itself.
fn star(rt: &impl Abort, alloc: Global) -> Net {
    let graph = graph_of(alloc, STAR_OF_EIGHTEEN.as_bytes()).expect(rt, "a graph");
    Net::open(alloc, graph).ok().expect(rt, "a net")
}

/// The hub is copied, with the k-th allocation refused, and is then as it was.
fn copy_hub(rt: &impl Abort, alloc: Global, net: &Net, lifted: bool, k: usize) -> Turn {
    assert!(rt; net.graph().nodes() == 18);
    order(alloc, k);
    let answer = if lifted {
        net.lift(alloc, 18)
    } else {
        net.node(18).copy(alloc)
    };
    let turn = turn_of(alloc, k, &answer);
    if let Ok(copy) = answer {
        assert!(rt; copy.same(net.node(18)));
    }
    turn
}

/// The hub of an opening star, lifted or copied.
fn take_hub(rt: &impl Abort, alloc: Global, lifted: bool, k: usize) -> Turn {
    let net = star(rt, alloc);
    let turn = copy_hub(rt, alloc, &net, lifted, k);
    let_go(net);
    turn
}

#[test]
fn hubs(host: HostRuntime) -> Result<(), Fail> {
    let (rt, alloc) = (&host, host.alloc());
    refuse(rt, alloc, "Net::lift", |k| take_hub(rt, alloc, true, k))?;
    refuse(rt, alloc, "Node::copy", |k| take_hub(rt, alloc, false, k))
}

#[test]
fn nets(host: HostRuntime) -> Result<(), Fail> {
    let (rt, alloc) = (&host, host.alloc());
    refuse(rt, alloc, "Net::open", |k| open(rt, alloc, k))?;
    let events = events_of_run(alloc).expect(rt, "a run");
    refuse_asked(rt, alloc, &events, &ASKED)
}

/// Each event of a hub's run in turn, with each allocation of its reaction refused.
fn refuse_reactions(
    rt: &impl Abort,
    alloc: Global,
    events: &[Event],
    count: &mut Count,
) -> Result<(), Fail> {
    for (place, event) in events.iter().enumerate() {
        let before = &events[..place];
        refuse_each(alloc, count, |k| react_after(rt, alloc, before, *event, k))?;
    }
    Ok(())
}

#[test]
fn reactions(host: HostRuntime) -> Result<(), Fail> {
    let (rt, alloc) = (&host, host.alloc());
    let events = events_of(alloc, HUB_AND_PAIR).expect(rt, "a run");
    let mut count = NONE;
    refuse_reactions(rt, alloc, &events, &mut count)?;
    tell(rt, alloc, "react", count)
}

/// Each event of a run in turn, with each allocation of the room for it refused.
fn refuse_plays(
    rt: &impl Abort,
    alloc: Global,
    events: &[Event],
    count: &mut Count,
) -> Result<(), Fail> {
    for (place, event) in events.iter().enumerate() {
        let before = &events[..place];
        refuse_each(alloc, count, |k| play_after(rt, alloc, before, *event, k))?;
    }
    Ok(())
}

#[test]
fn plays(host: HostRuntime) -> Result<(), Fail> {
    let (rt, alloc) = (&host, host.alloc());
    let events = events_of_run(alloc).expect(rt, "a run");
    let mut count = NONE;
    refuse_plays(rt, alloc, &events, &mut count)?;
    tell(rt, alloc, "Net::reserve", count)
}
