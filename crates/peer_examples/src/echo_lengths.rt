//! How long runs of the echo wave are, whose messages have one bit each. Over each link one goes out in each direction.
use crate::playing::assert_lengths;
use crate::runs::{ROUND, THREE_WAVES, WAVE};
use echo::protocol::Echo;
use ghs_test_graphs::graphs::{PATH_OF_THREE, TRIANGLE};
use peer_machine::event::Event;

/// Where nothing has happened nothing has a length, and what waits is heard of by nobody yet.
#[test]
fn before_anything_is_heard(rt: HostRuntime) {
    let alloc = rt.alloc();
    assert_lengths::<Echo>(&rt, alloc, PATH_OF_THREE, &[], 0, 0, 0);
    assert_lengths::<Echo>(&rt, alloc, PATH_OF_THREE, &[Event::Wake(1)], 0, 1, 1);
}

/// On the path 1-2-3 node 1 wakes: two Explores go out to the other end, and two Echoes come back, each because of the one
/// before.
#[test]
fn the_wave_on_a_path(rt: HostRuntime) {
    assert_lengths::<Echo>(&rt, rt.alloc(), PATH_OF_THREE, &WAVE, 4, 4, 1);
}

/// Where all three wake by themselves, each has asked before it hears: four messages, and no chain of two.
#[test]
fn all_wake(rt: HostRuntime) {
    assert_lengths::<Echo>(&rt, rt.alloc(), PATH_OF_THREE, &THREE_WAVES, 1, 4, 1);
}

/// On the triangle node 1 asks both others; each asks the other one, hears from it, and echoes. Node 1 has heard of three.
#[test]
fn the_wave_round_a_triangle(rt: HostRuntime) {
    assert_lengths::<Echo>(&rt, rt.alloc(), TRIANGLE, &ROUND, 3, 6, 1);
}

const OTHER_ROUND: [Event; 7] = [
    Event::Wake(1),
    Event::Take(2, 0),
    Event::Take(3, 0),
    Event::Take(3, 1),
    Event::Take(2, 1),
    Event::Take(1, 1),
    Event::Take(1, 0),
];

/// In another order node 3 hears from node 2 first, and asks node 1, whose own Explore, the first message of its chain, comes
/// after: node 3 stays at two, its Echo to node 2 is the third, and that of node 2 the fourth.
#[test]
fn another_order_is_longer(rt: HostRuntime) {
    assert_lengths::<Echo>(&rt, rt.alloc(), TRIANGLE, &OTHER_ROUND, 4, 6, 1);
}
