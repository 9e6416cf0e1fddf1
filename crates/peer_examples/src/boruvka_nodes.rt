//! One node of Borůvka in step.
use boruvka_node::mark::Mark;
use boruvka_node::message::{Message, Phase};
use boruvka_node::node::{Node, has_halted, is_asleep};
use boruvka_node::react::react;
use boruvka_node::work::Work;
use ghs_graph::key::Key;
use ghs_graph::port::Port;
use ghs_node::level::Level;
use std::alloc::Global;
use std::process::Abort;

/// Node 1 wakes: it goes out over its lesser port, and is then awake and at rest.
#[test]
fn a_sleeper_wakes(rt: HostRuntime) {
    let ports = [to_node(2, 5), to_node(3, 7)];
    let mut node = Node::open(rt.alloc(), 1, &ports).expect(&rt, "memory");
    assert!(rt; is_asleep(&node));
    let answer = react(rt.alloc(), &node, Work::Wake).expect(&rt, "memory");
    assert_eq!(rt;
        answer.sends.as_slice(),
        [(0, Message::Connect(Level::ZERO))].as_slice()
    );
    node.apply(&answer.change);
    assert_awake(&rt, &node);
    assert!(rt; !has_halted(&node));
}

/// Node 1 without ports wakes: it halts, and sends nothing.
#[test]
fn a_lone_sleeper_halts(rt: HostRuntime) {
    let mut node = Node::open(rt.alloc(), 1, &[]).expect(&rt, "memory");
    let answer = react(rt.alloc(), &node, Work::Wake).expect(&rt, "memory");
    assert!(rt; answer.sends.is_empty());
    node.apply(&answer.change);
    assert!(rt; has_halted(&node));
}

/// The port of node 1 on a link to a greater node.
fn to_node(far: u32, weight: u32) -> Port {
    Port {
        key: Key {
            weight,
            a: 1,
            b: far,
        },
        far,
        far_port: 0,
    }
}

/// A node of two ports that has gone out over the first.
fn assert_awake(rt: &impl Abort, node: &Node) {
    assert_eq!(rt; node.head().phase, Phase::Rest);
    assert_eq!(rt; node.head().out, Some(0));
    assert_eq!(rt; node.port(0).mark, Mark::Basic);
    assert_eq!(rt; node.port(1).mark, Mark::Basic);
}
