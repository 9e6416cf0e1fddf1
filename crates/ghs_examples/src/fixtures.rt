//! Node 2 of a small graph, what it may be told, and the node after some of that.
use ghs_graph::key::Key;
use ghs_graph::port::Port;
use ghs_node::level::Level;
use ghs_node::message::{Message, Phase};
use ghs_node::node::Node;
use ghs_node::react::react;
use ghs_node::work::Work;
use std::alloc::Global;
use std::process::Abort;

pub(crate) const LEFT: Key = Key {
    weight: 5,
    a: 1,
    b: 2,
};

pub(crate) const RIGHT: Key = Key {
    weight: 7,
    a: 2,
    b: 3,
};

pub(crate) const FAR: Key = Key {
    weight: 9,
    a: 2,
    b: 4,
};

/// The ports of node 2, in key order.
pub(crate) const PORTS: [Port; 3] = [
    Port {
        key: LEFT,
        far: 1,
        far_port: 0,
    },
    Port {
        key: RIGHT,
        far: 3,
        far_port: 0,
    },
    Port {
        key: FAR,
        far: 4,
        far_port: 0,
    },
];

pub(crate) const JOIN: Message = Message::Connect(Level::ZERO);

pub(crate) const SEARCH: Message = Message::Initiate(Level::ONE, LEFT, Phase::Find);

pub(crate) const NO_LINK: Message = Message::Report(None);

/// A message that has come in at a port.
macro_rules! at {
    ($port:literal, $message:expr) => {
        Work::Deliver {
            port: $port,
            message: $message,
        }
    };
}

pub(crate) use at;

/// Up to five works, in order.
pub(crate) type Works = [Option<Work>; 5];

macro_rules! works {
    () => { [None, None, None, None, None] };
    ($a:expr) => { [Some($a), None, None, None, None] };
    ($a:expr, $b:expr) => { [Some($a), Some($b), None, None, None] };
    ($a:expr, $b:expr, $c:expr) => { [Some($a), Some($b), Some($c), None, None] };
    ($a:expr, $b:expr, $c:expr, $d:expr) => { [Some($a), Some($b), Some($c), Some($d), None] };
    ($a:expr, $b:expr, $c:expr, $d:expr, $e:expr) => { [Some($a), Some($b), Some($c), Some($d), Some($e)] };
}

pub(crate) use works;

/// The node does a piece of work.
pub(crate) fn act(rt: &impl Abort, alloc: Global, node: &mut Node, work: Work) {
    let delta = react(alloc, node, work).expect(rt, "a reaction");
    node.apply(&delta);
}

/// Node 2 with the first of its ports, after some works.
pub(crate) fn after(rt: &impl Abort, alloc: Global, degree: usize, works: &[Option<Work>]) -> Node {
    assert!(rt; degree <= 3);
    let mut node = Node::asleep(alloc, 2, &PORTS[..degree]).expect(rt, "memory for a node");
    for work in works {
        if let Some(work) = work {
            act(rt, alloc, &mut node, *work);
        }
    }
    node
}
