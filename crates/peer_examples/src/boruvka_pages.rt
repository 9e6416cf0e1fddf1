//! Pages of a run of Borůvka in step on the pair: the data by hand from docs/FORMATS.md, round the steps of `boruvka_lines`.
ghost use Rattle.peer_network.specs.Network.{network_of};
ghost use Rattle.peer_machine.specs.Run.{IsRun};
ghost use Rattle.boruvka_node.specs.Boruvka.{boruvka};

use crate::boruvka_lines::PAIR_JSON;
use crate::playing::graph_of_text;
use crate::runs::PAIR_RUN;
use boruvka::protocol::Boruvka;
use ghs_graph::graph::Graph;
use ghs_test_graphs::graphs::PAIR;
use peer_machine::event::Event;
use peer_network::wake_set::WakeSet;
use peer_page::fault::StoredFault;
use peer_runs::replay::replay;
use peer_view::data::data_of;
use peer_view::page::run_page;
use peer_view::pair::pair_page;
use peer_view::stored::stored_page;
use std::alloc::Global;
use std::process::Abort;

/// The head, and the protocol's line up to its second kind.
const HEAD: &str =
    r#"{"ghs":"steps","version":1,"nodes":2,"links":1,"bound":10,"events":5,"from":1,"to":5}
{"protocol":"boruvka","title":"ghs: Bor&#367;vka in step","kinds":[{"kind":"connect","name":"Connect","short":"Connect","letter":"C","has":["level"],"bits":3},{"kind":"initiate","name":"Initiate",""#;

/// The end of the protocol's line, and the link.
const LINK: &str = r#","waits":{}}
{"link":"5:1-2","weight":5,"a":1,"b":2}
"#;

const COUNTS: &str =
    r#"{"ledger":5,"sent":[2,1,0,1,0],"consumed":[2,1,0,1,0],"requeued":0,"queued":0}
"#;

/// What stands before a page's data, and before the first of two.
const DOCUMENT: &[u8] = b"<!doctype html>";

/// The graph of the pair, of which the events are a run.
fn pair_of_run(rt: &impl Abort, alloc: Global, events: &[Event]) -> Graph
    ensures { IsRun boruvka (network_of result) events.now }
{
    let graph = graph_of_text(rt, alloc, PAIR);
    let world = match replay::<Boruvka>(alloc, (), graph, WakeSet::All, events) {
        Ok(world) => world,
        Err(_) => panic!(rt; "a run"),
    };
    // Read for its clause: the events are a run.
    let _ = world.net();
    world.into_graph()
}

#[test]
fn the_data_of_a_pair(rt: HostRuntime) {
    let graph = pair_of_run(&rt, rt.alloc(), &PAIR_RUN);
    let data = data_of::<Boruvka>(rt.alloc(), (), graph, &PAIR_RUN, 5, 1).expect(&rt, "memory");
    assert!(rt; data.starts_with(HEAD.as_bytes()));
    let mut end = Vec::new(rt.alloc());
    end.extend_from_slice(LINK.as_bytes()).expect(&rt, "memory");
    end.extend_from_slice(PAIR_JSON.as_bytes())
        .expect(&rt, "memory");
    end.extend_from_slice(COUNTS.as_bytes())
        .expect(&rt, "memory");
    assert!(rt; data.ends_with(&end));
}

#[test]
fn pages_of_a_pair(rt: HostRuntime) {
    let alloc = rt.alloc();
    let graph = pair_of_run(&rt, alloc, &PAIR_RUN);
    let same = pair_of_run(&rt, alloc, &PAIR_RUN);
    let page = run_page::<Boruvka>(alloc, (), graph, &PAIR_RUN, 1, 2)
        .ok()
        .expect(&rt, "a page");
    assert!(rt; page.starts_with(DOCUMENT));
    let both = pair_page::<Boruvka>(alloc, (), same, &PAIR_RUN, &PAIR_RUN, 1, 2)
        .ok()
        .expect(&rt, "a page");
    assert!(rt; both.starts_with(DOCUMENT));
}

/// A node wakes once.
#[test]
fn no_page_of_what_is_no_run(rt: HostRuntime) {
    let alloc = rt.alloc();
    let twice = [Event::Wake(1), Event::Wake(1)];
    let graph = graph_of_text(&rt, alloc, PAIR);
    let refused = stored_page::<Boruvka>(alloc, (), graph, WakeSet::All, &twice, 1, 9);
    assert_eq!(rt; refused.err(), Some(StoredFault::NotLawful(2)));
    let graph = graph_of_text(&rt, alloc, PAIR);
    let shown = stored_page::<Boruvka>(alloc, (), graph, WakeSet::All, &PAIR_RUN, 1, 9);
    assert!(rt; shown.is_ok());
}
