//! Nets and worlds of the graph of a text, played event by event, and how long their runs are. Any protocol will do.
use ghs_graph::graph::Graph;
use ghs_test_graphs::build::graph_of;
use peer_lengths::lengths::{Lengths, lengths_of};
use peer_machine::event::Event;
use peer_machine::fixed::Fixed;
use peer_machine::measured::Measured;
use peer_machine::protocol::Protocol;
use peer_net::net::Net;
use peer_network::wake_set::WakeSet;
use peer_runs::world::World;
use std::alloc::Global;
use std::process::Abort;

/// The graph of a text.
pub fn graph_of_text(rt: &impl Abort, alloc: Global, text: &str) -> Graph {
    graph_of(alloc, text.as_bytes()).expect(rt, "a graph")
}

/// The opening net of the graph of a text.
pub fn net_of<P: Fixed>(rt: &impl Abort, alloc: Global, text: &str) -> Net<P> {
    let graph = graph_of_text(rt, alloc, text);
    Net::<P>::open(alloc, P::setting(), graph)
        .ok()
        .expect(rt, "a net")
}

/// The opening world of the graph of a text.
pub fn world_of<P: Fixed>(rt: &impl Abort, alloc: Global, text: &str, wake: WakeSet) -> World<P> {
    let graph = graph_of_text(rt, alloc, text);
    World::<P>::open(alloc, P::setting(), graph, wake)
        .ok()
        .expect(rt, "a world")
}

/// Plays an event, which has to be lawful.
pub fn play<P: Protocol>(rt: &impl Abort, alloc: Global, net: &mut Net<P>, event: Event) {
    assert!(rt; net.lawful(event), "{event:?}");
    net.play(alloc, event).expect(rt, "memory");
}

/// Plays events, all of which have to be lawful.
pub fn play_all<P: Protocol>(rt: &impl Abort, alloc: Global, net: &mut Net<P>, events: &[Event]) {
    for event in events {
        play(rt, alloc, net, *event);
    }
}

/// Plays a part of a run.
pub fn play_part<P: Protocol>(
    rt: &impl Abort,
    alloc: Global,
    net: &mut Net<P>,
    run: &[Event],
    from: usize,
    to: usize,
) {
    assert!(rt; from <= to && to <= run.len());
    play_all(rt, alloc, net, &run[from..to]);
}

/// Lets go of a net here, so that its memory's way isn't in the proof of each test that has one.
pub fn let_go<P: Protocol>(_net: Net<P>) {}

/// The same of a world.
pub fn leave<P: Protocol>(_world: World<P>) {}

/// How long the run of the graph of a text is that has these events, all of which have to be lawful.
fn length_of_run<P: Measured + Fixed>(
    rt: &impl Abort,
    alloc: Global,
    text: &str,
    events: &[Event],
) -> Lengths {
    let mut net = net_of::<P>(rt, alloc, text);
    play_all(rt, alloc, &mut net, events);
    let lengths = lengths_of::<P>(alloc, net.setting(), net.graph(), net.trace()).expect(
        rt, "memory",
    );
    let_go(net);
    lengths
}

/// That run has these lengths.
pub fn assert_lengths<P: Measured + Fixed>(
    rt: &impl Abort,
    alloc: Global,
    text: &str,
    events: &[Event],
    chain: u64,
    bits: u128,
    longest: u32,
) {
    let found = length_of_run::<P>(rt, alloc, text, events);
    assert_eq!(rt;
        found,
        Lengths {
            chain,
            bits,
            longest
        }
    );
}
