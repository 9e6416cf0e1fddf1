//! How much a page takes.
ghost use Rattle.std.specs.Prelude.{◌≡◌, ◌↔◌, IsTrue};
ghost use Rattle.peer_page.specs.Limits.{IsTooLarge, events_to};

use ghs_graph::graph::Graph;
use peer_network::event::Event;

/// The most nodes that a page shows.
pub const PAGE_NODES: u32 = 2_000;

/// The most events that a page shows.
pub const PAGE_EVENTS: usize = 100_000;

/// Whether a page can't show the events of a run up to the event `to`: its network has more than `PAGE_NODES` nodes, or
/// more than `PAGE_EVENTS` of its events are to be shown. It takes no memory.
///
/// ```text
/// is_too_large(&graph, &events, 100_000);   // false of 2,000 nodes, true of 2,001
/// ```
pub fn is_too_large(graph: &Graph, events: &[Event], to: u64) -> bool
    ensures { IsTrue result ↔ IsTooLarge graph.now events.now to }
{
    if graph.nodes() > PAGE_NODES {
        return true;
    }
    first_events(events, to).len() > PAGE_EVENTS
}

/// The events up to the event `to`, counted from 1; all where there are fewer.
///
/// ```text
/// first_events(&events, 2);   // the first two
/// ```
pub fn first_events(events: &[Event], to: u64) -> &[Event]
    ensures { result.now ≡ events_to to events.now }
{
    &events[..to.min(events.len() as u64) as usize]
}
