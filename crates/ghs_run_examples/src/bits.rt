//! Bits of runs, by hand from the lengths of their messages.
use crate::comparing::assert_same_of;
use crate::nets::{net_of, play_all};
use ghs_bits::run::bits_of;
use ghs_test_graphs::graphs::{LONE_NODE, PAIR, PATH_OF_FIVE, TRIANGLE};
use ghs_test_graphs::traces::{PAIR_TRACE, PATH_OF_FIVE_TRACE, TRIANGLE_TRACE};
use peer_texts::trace::read_trace;
use std::alloc::Global;
use std::process::Abort;

/// The run of a lone node, which sends nothing.
const LONE_TRACE: &str = "trace 1\nwake 1\n";

/// A run has so many bits, and so many its longest message.
fn assert_bits(rt: &impl Abort, alloc: Global, text: &str, trace: &str, sent: u64, longest: u32) {
    let events = read_trace(alloc, trace.as_bytes())
        .ok()
        .expect(rt, "a trace");
    let mut net = net_of(rt, alloc, text);
    play_all(rt, alloc, &mut net, &events);
    assert!(rt; net.events() <= 1 << 40);
    let bits = bits_of(alloc, net.graph(), net.trace()).ok();
    let bits = bits.expect(rt, "memory");
    assert_same_of(rt, &bits.sent, &sent, &text);
    assert_same_of(rt, &bits.longest, &longest, &text);
}

/// The pair: a key has seven bits, a level one. Two Connects, two Initiates and two Reports without a key are 8 + 24 + 8.
/// The triangle: six and one. Three Connects, Initiates, Tests and such Reports and a Reject are 12 + 33 + 30 + 12 + 3.
/// The path of five: nine and two. Seven Connects, ten Initiates, three Tests, two Accepts, a Reject, ten Reports, three of
/// them with a key, and a ChangeRoot are 35 + 150 + 42 + 6 + 3 + 67 + 3.
#[test]
fn bits_are_counted(rt: HostRuntime) {
    let alloc = rt.alloc();
    assert_bits(&rt, alloc, LONE_NODE, LONE_TRACE, 0, 0);
    assert_bits(&rt, alloc, PAIR, PAIR_TRACE, 40, 12);
    assert_bits(&rt, alloc, TRIANGLE, TRIANGLE_TRACE, 90, 11);
    assert_bits(&rt, alloc, PATH_OF_FIVE, PATH_OF_FIVE_TRACE, 306, 15);
}
