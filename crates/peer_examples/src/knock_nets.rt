//! Knocking, played event by event: a protocol that defers. A knock at a sleeping node stays in its queue until the node is awake;
//! meanwhile it is neither consumed nor sent again. Whether sleepers are patient, and defer, is told when the run begins.
//!
//! All values were counted by hand.
use crate::playing::{graph_of_text, let_go, play};
use ghs_test_graphs::graphs::PATH_OF_THREE;
use peer_knock::deferring::times_deferred;
use peer_knock::knock::Knocking;
use peer_machine::event::Event;
use peer_net::net::Net;
use peer_schedule::fault::ReplayFault;
use std::alloc::Global;
use std::marker::Brand;
use std::process::Abort;

/// How many knocks a net has sent, consumed, queued and deferred.
fn has_counts(rt: &impl Abort, net: &Net<Knocking<Brand>>, counts: [u64; 4]) {
    let ledger = net.ledger();
    assert_eq!(rt; ledger.sent, [counts[0]].as_slice());
    assert_eq!(rt; ledger.consumed, [counts[1]].as_slice());
    assert_eq!(rt; ledger.queued, counts[2]);
    assert_eq!(rt; ledger.deferred, counts[3]);
}

/// The run, each event with the counts after it: 1 knocks at 2, which sleeps, defers the knock twice, wakes, knocks at 1 and 3,
/// and hears it.
static DEFERRED: [(Event, [u64; 4]); 5] = [
    (Event::Wake(1), [1, 0, 1, 0]),
    (Event::Take(2, 0), [1, 0, 1, 1]),
    (Event::Take(2, 0), [1, 0, 1, 2]),
    (Event::Wake(2), [3, 0, 3, 2]),
    (Event::Take(2, 0), [3, 1, 2, 2]),
];

/// The opening net of the graph of a text, whose sleepers are patient.
fn patient_net(rt: &impl Abort, alloc: Global, text: &str) -> Net<Knocking<Brand>> {
    let graph = graph_of_text(rt, alloc, text);
    Net::<Knocking<Brand>>::open(alloc, true, graph)
        .ok()
        .expect(rt, "a net")
}

/// On the path 1-2-3.
#[test]
fn a_knock_is_deferred(rt: HostRuntime) {
    let mut net = patient_net(&rt, rt.alloc(), PATH_OF_THREE);
    for (event, counts) in DEFERRED.iter() {
        play(&rt, rt.alloc(), &mut net, *event);
        has_counts(&rt, &net, *counts);
    }
    assert!(rt; !net.lawful(Event::Take(2, 0)));
    let_go(net);
}

/// 1 knocks at 2, which sleeps; the knock is taken twice; 2 wakes, and takes what waits there.
static KNOCKS: [Event; 5] = [
    Event::Wake(1),
    Event::Take(2, 0),
    Event::Take(2, 0),
    Event::Wake(2),
    Event::Take(2, 0),
];

/// How many times the run of the first of these events defers on the path 1-2-3, if it is one.
fn assert_times(
    rt: &impl Abort,
    alloc: Global,
    patient: bool,
    first: usize,
    times: Result<u64, ReplayFault>,
) {
    assert!(rt; first <= 5);
    let graph = graph_of_text(rt, alloc, PATH_OF_THREE);
    assert_eq!(rt;
        times_deferred(alloc, patient, graph, &KNOCKS[..first]),
        times
    );
}

/// Patient sleepers defer; others hear at once, so nothing waits there any more.
#[test]
fn sleepers_as_they_are_told(rt: HostRuntime) {
    assert_times(&rt, rt.alloc(), true, 5, Ok(2));
    assert_times(&rt, rt.alloc(), true, 2, Ok(1));
    assert_times(&rt, rt.alloc(), false, 2, Ok(0));
    assert_times(&rt, rt.alloc(), false, 5, Err(ReplayFault::NotLawful(3)));
}
