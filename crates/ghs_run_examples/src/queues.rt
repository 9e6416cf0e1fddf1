//! The queues of a path.
ghost use Rattle.peer_channels.specs.Channels.{IsFor, IsPort};

use crate::comparing::{assert_same, assert_same_of};
use ghs_graph::graph::Graph;
use ghs_graph::key::Key;
use ghs_node::level::Level;
use ghs_node::message::Message;
use ghs_test_graphs::build::graph_of;
use ghs_test_graphs::graphs::PATH_OF_THREE;
use peer_channels::channels::Channels;
use std::process::Abort;

/// Sees that the graph has a port.
fn expect_port(rt: &impl Abort, graph: &Graph, v: u32, port: u32)
    ensures { IsPort graph.now v port }
{
    assert!(rt; v >= 1 && v <= graph.nodes());
    assert!(rt; (port as usize) < graph.ports(v).len());
}

/// Sends a message out on a port.
fn send(
    rt: &impl Abort,
    channels: &mut Channels<Message>,
    graph: &Graph,
    v: u32,
    port: u32,
    message: &Message,
)
    requires { IsFor graph.now channels.old }
    ensures { IsFor graph.now channels.new }
{
    expect_port(rt, graph, v, port);
    let sends = [(port, *message)];
    channels
        .reserve_for(v, sends.as_slice())
        .expect(rt, "memory");
    assert!(rt; channels.total() < u64::MAX);
    channels.send(v, port, *message);
}

/// The same, by a push at the far end.
fn push(
    rt: &impl Abort,
    channels: &mut Channels<Message>,
    graph: &Graph,
    v: u32,
    port: u32,
    message: &Message,
)
    requires { IsFor graph.now channels.old }
    ensures { IsFor graph.now channels.new }
{
    expect_port(rt, graph, v, port);
    let sends = [(port, *message)];
    channels
        .reserve_for(v, sends.as_slice())
        .expect(rt, "memory");
    assert!(rt; channels.total() < u64::MAX);
    let to = graph.ports(v)[port as usize];
    expect_port(rt, graph, to.far, to.far_port);
    channels.push(to.far, to.far_port, *message);
}

/// Sends the first message of a port to the end of its queue.
fn requeue(rt: &impl Abort, channels: &mut Channels<Message>, graph: &Graph, v: u32, port: u32)
    requires { IsFor graph.now channels.old }
    ensures { IsFor graph.now channels.new }
{
    expect_port(rt, graph, v, port);
    channels.requeue(v, port);
}

/// Takes the first message of a port.
fn take(
    rt: &impl Abort,
    channels: &mut Channels<Message>,
    graph: &Graph,
    v: u32,
    port: u32,
) -> Option<Message>
    requires { IsFor graph.now channels.old }
    ensures { IsFor graph.now channels.new }
{
    expect_port(rt, graph, v, port);
    channels.take_front(v, port)
}

/// What waits at a port: how many messages, and the first.
fn look(
    rt: &impl Abort,
    channels: &Channels<Message>,
    graph: &Graph,
    v: u32,
    port: u32,
) -> (u64, Option<Message>)
    requires { IsFor graph.now channels.now }
{
    expect_port(rt, graph, v, port);
    (channels.len_at(v, port), channels.front(v, port))
}

/// So many messages wait at a port, the first of which is this.
fn sees(
    rt: &impl Abort,
    channels: &Channels<Message>,
    graph: &Graph,
    v: u32,
    port: u32,
    waiting: (u64, Option<Message>),
)
    requires { IsFor graph.now channels.now }
{
    assert_same_of(
        rt,
        &look(rt, channels, graph, v, port),
        &waiting,
        &(v, port),
    );
}

/// No message waits at a port.
fn sees_none(rt: &impl Abort, channels: &Channels<Message>, graph: &Graph, v: u32, port: u32)
    requires { IsFor graph.now channels.now }
{
    sees(rt, channels, graph, v, port, (0, None));
}

/// The first message of a port is this, and is taken.
fn takes(
    rt: &impl Abort,
    channels: &mut Channels<Message>,
    graph: &Graph,
    v: u32,
    port: u32,
    message: Option<Message>,
)
    requires { IsFor graph.now channels.old }
    ensures { IsFor graph.now channels.new }
{
    let taken = take(rt, channels, graph, v, port);
    assert_same(rt, &taken, &message);
}

fn assert_total(rt: &impl Abort, channels: &Channels<Message>, total: u64) {
    assert_same(rt, &channels.total(), &total);
}

const CONNECT: Message = Message::Connect(Level::ZERO);

const TEST: Message = Message::Test(
    Level::ONE,
    Key {
        weight: 5,
        a: 1,
        b: 2,
    },
);

/// At first no port of the path has a message.
fn starts_empty(rt: &impl Abort, channels: &Channels<Message>, graph: &Graph)
    requires { IsFor graph.now channels.now }
{
    for (v, port) in [(1, 0), (2, 0), (2, 1), (3, 0)] {
        sees_none(rt, channels, graph, v, port);
    }
}

/// Two messages are sent, and one of them is taken.
fn move_messages(rt: &impl Abort, channels: &mut Channels<Message>, graph: &Graph)
    requires { IsFor graph.now channels.old }
    ensures { IsFor graph.now channels.new }
{
    send(rt, channels, graph, 2, 0, &CONNECT);
    push(rt, channels, graph, 2, 1, &TEST);
    assert_total(rt, channels, 2);
    requeue(rt, channels, graph, 1, 0);
    sees(rt, channels, graph, 1, 0, (1, Some(CONNECT)));
    takes(rt, channels, graph, 1, 0, Some(CONNECT));
}

#[test]
fn queues(rt: HostRuntime) {
    let alloc = rt.alloc();
    let graph = graph_of(alloc, PATH_OF_THREE.as_bytes()).expect(&rt, "a graph");
    let mut channels = Channels::new(alloc, &graph).expect(&rt, "memory");
    starts_empty(&rt, &channels, &graph);
    move_messages(&rt, &mut channels, &graph);
    sees_none(&rt, &channels, &graph, 1, 0);
    sees(&rt, &channels, &graph, 3, 0, (1, Some(TEST)));
    assert_total(&rt, &channels, 1);
}
