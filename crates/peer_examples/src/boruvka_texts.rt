//! Texts of runs of Borůvka in step that have ended. In its worlds the least node of each component wakes.
use crate::playing::{leave, let_go, net_of, play_part, world_of};
use crate::runs::TRIANGLE_RUN;
use boruvka::protocol::Boruvka;
use ghs_test_graphs::graphs::{LONE_NODE, PAIR_AND_NODE, PATH_OF_THREE, TRIANGLE};
use peer_net::net::Net;
use peer_network::wake_set::WakeSet;
use peer_report::account::ReportFault;
use peer_report::ended::{ended, net_ended};
use peer_report::report_text::{report_text, run_text};
use peer_runs::world::World;
use std::alloc::Global;
use std::process::Abort;

/// Plays the first of the events that may happen, again and again, so many times at most.
fn play_first(rt: &impl Abort, alloc: Global, world: &mut World<Boruvka>, times: u32) {
    for _ in 0..times {
        if world.ready_count() > 0 {
            let event = world.ready_at(0);
            assert!(rt; world.is_ready(event));
            world.play(alloc, event).expect(rt, "memory");
        }
    }
}

/// The run has ended, with this text.
fn assert_text(rt: &impl Abort, alloc: Global, world: &World<Boruvka>, text: &[u8]) {
    assert!(rt; ended(world));
    let found = run_text(alloc, world).ok().expect(rt, "a text");
    assert!(rt; found.as_slice() == text);
}

/// The net's run has ended, with this text.
fn assert_report(rt: &impl Abort, alloc: Global, net: &Net<Boruvka>, text: &[u8]) {
    assert!(rt; net_ended(net));
    let found = report_text(alloc, net).ok().expect(rt, "a text");
    assert!(rt; found.as_slice() == text);
}

/// The run goes on, and has no text yet.
fn assert_goes_on(rt: &impl Abort, alloc: Global, world: &World<Boruvka>) {
    assert!(rt; !ended(world));
    assert_eq!(rt; run_text(alloc, world).err(), Some(ReportFault::NotEnded));
}

/// One message is under way at each moment, so there is one run.
#[test]
fn the_text_of_a_path(rt: HostRuntime) {
    let mut world = world_of::<Boruvka>(&rt, rt.alloc(), PATH_OF_THREE, WakeSet::First);
    play_first(&rt, rt.alloc(), &mut world, 8);
    assert_goes_on(&rt, rt.alloc(), &world);
    play_first(&rt, rt.alloc(), &mut world, 1);
    let text =
        b"t 1 2 5\nt 2 3 7\nw 12\nm connect=3 initiate=2 name=1 report=2 changeroot=0\ns 8 16\n";
    assert_text(&rt, rt.alloc(), &world, text);
    leave(world);
}

/// Where a piece has ended and another hasn't, the run goes on.
#[test]
fn the_text_of_a_forest(rt: HostRuntime) {
    let mut world = world_of::<Boruvka>(&rt, rt.alloc(), PAIR_AND_NODE, WakeSet::First);
    play_first(&rt, rt.alloc(), &mut world, 5);
    assert_goes_on(&rt, rt.alloc(), &world);
    play_first(&rt, rt.alloc(), &mut world, 1);
    let text = b"t 1 2 5\nw 5\nm connect=2 initiate=1 name=0 report=1 changeroot=0\ns 4 14\n";
    assert_text(&rt, rt.alloc(), &world, text);
    leave(world);
}

/// Without a link there is nothing to send.
#[test]
fn the_text_of_a_lone_node(rt: HostRuntime) {
    let mut world = world_of::<Boruvka>(&rt, rt.alloc(), LONE_NODE, WakeSet::First);
    play_first(&rt, rt.alloc(), &mut world, 1);
    let text = b"w 0\nm connect=0 initiate=0 name=0 report=0 changeroot=0\ns 0 1\n";
    assert_text(&rt, rt.alloc(), &world, text);
    leave(world);
}

/// The triangle, as `boruvka_nets` plays it: before its last event one Report waits, and so the run goes on.
#[test]
fn the_text_of_a_triangle(rt: HostRuntime) {
    let mut net = net_of::<Boruvka>(&rt, rt.alloc(), TRIANGLE);
    play_part(&rt, rt.alloc(), &mut net, &TRIANGLE_RUN, 0, 11);
    assert!(rt; !net_ended(&net));
    play_part(&rt, rt.alloc(), &mut net, &TRIANGLE_RUN, 11, 12);
    let text =
        b"t 1 2 1\nt 2 3 2\nw 3\nm connect=3 initiate=2 name=2 report=2 changeroot=0\ns 9 18\n";
    assert_report(&rt, rt.alloc(), &net, text);
    let_go(net);
}
