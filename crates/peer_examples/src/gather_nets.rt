//! Gather, played event by event. The lists of its messages lie in an arena that the test holds.
use crate::playing::{graph_of_text, let_go, play_all};
use bumpalo::Bump;
use gather::protocol::Gather;
use ghs_test_graphs::graphs::PATH_OF_THREE;
use peer_lengths::lengths::{Lengths, lengths_of};
use peer_machine::event::Event;
use peer_net::net::Net;
use std::alloc::Global;
use std::process::Abort;

/// The opening net of the graph of a text.
fn net_in<'s>(rt: &impl Abort, alloc: Global, lists: &'s Bump, text: &str) -> Net<Gather<'s>> {
    let graph = graph_of_text(rt, alloc, text);
    Net::<Gather<'s>>::open(alloc, lists, graph)
        .ok()
        .expect(rt, "a net")
}

/// On the path 1-2-3 node 1 alone wakes: its wave goes out, two lists of links come back, and two lists of the tree go out.
static OUT_AND_BACK_AND_OUT: [Event; 7] = [
    Event::Wake(1),
    Event::Take(2, 0),
    Event::Take(3, 0),
    Event::Take(2, 1),
    Event::Take(1, 0),
    Event::Take(2, 0),
    Event::Take(3, 0),
];

/// The messages that a net has sent, of each kind; all are consumed.
fn has_sent<'s>(rt: &impl Abort, net: &Net<Gather<'s>>, sent: &[u64]) {
    let ledger = net.ledger();
    assert_eq!(rt; ledger.sent, sent);
    assert_eq!(rt; ledger.consumed, sent);
    assert!(rt; net.silent());
}

/// How long the run of a net is.
fn assert_lengths<'s>(rt: &impl Abort, alloc: Global, net: &Net<Gather<'s>>, lengths: Lengths) {
    let found = lengths_of::<Gather<'s>>(alloc, net.setting(), net.graph(), net.trace()).expect(
        rt, "memory",
    );
    assert_eq!(rt; found, lengths);
}

/// A node's number has two bits here, a weight three, a key seven, and the number of a list's links two: an Explore has 4 bits, the
/// Backs 13 and 20, the Trees 18 and 11.
#[test]
fn a_wave_on_a_path(rt: HostRuntime) {
    let lists = Bump::new(rt.alloc());
    let mut net = net_in(&rt, rt.alloc(), &lists, PATH_OF_THREE);
    play_all(&rt, rt.alloc(), &mut net, &OUT_AND_BACK_AND_OUT);
    has_sent(&rt, &net, &[2, 2, 2]);
    let lengths = Lengths {
        chain: 6,
        bits: 70,
        longest: 20,
    };
    assert_lengths(&rt, rt.alloc(), &net, lengths);
    let_go(net);
}
