//! The echo wave, played event by event. Over each link one message goes out in each direction: where a node explores on all
//! its ports but the parent, and echoes to the parent, each of its ports has had one.
use crate::playing::{let_go, net_of, play, play_part};
use crate::runs::WAVE;
use echo::protocol::Echo;
use ghs_test_graphs::graphs::PATH_OF_THREE;
use peer_machine::event::Event;
use peer_net::net::Net;
use std::process::Abort;

/// The messages that a net has sent, Explores and Echoes; all are consumed.
pub fn has_sent(rt: &impl Abort, net: &Net<Echo>, explores: u64, echoes: u64) {
    let ledger = net.ledger();
    assert_eq!(rt; ledger.sent, [explores, echoes].as_slice());
    assert_eq!(rt; ledger.consumed, [explores, echoes].as_slice());
    assert!(rt; net.silent());
}

/// On the path 1-2-3 one wakes: two Explores go out to the other end, and two Echoes come back.
#[test]
fn the_wave_on_a_path(rt: HostRuntime) {
    let mut net = net_of::<Echo>(&rt, rt.alloc(), PATH_OF_THREE);
    play_part(&rt, rt.alloc(), &mut net, &WAVE, 0, 2);
    assert!(rt; !net.silent());
    play_part(&rt, rt.alloc(), &mut net, &WAVE, 2, 5);
    has_sent(&rt, &net, 2, 2);
    let_go(net);
}

/// What waits at a port, and what may not happen.
#[test]
fn an_explore_waits(rt: HostRuntime) {
    let mut net = net_of::<Echo>(&rt, rt.alloc(), PATH_OF_THREE);
    assert!(rt; !net.lawful(Event::Take(2, 0)));
    play(&rt, rt.alloc(), &mut net, Event::Wake(1));
    assert!(rt; net.lawful(Event::Take(2, 0)));
    assert!(rt; !net.lawful(Event::Take(2, 1)));
    assert!(rt; !net.lawful(Event::Wake(1)));
    assert!(rt; net.lawful(Event::Wake(3)));
    let_go(net);
}
