//! What a page is told of a run by a book.
ghost use Rattle.own_view.specs.Page.{told_json};
ghost use Rattle.peer_machine.specs.Run.{IsRun};
ghost use Rattle.peer_network.specs.Network.{network_of};
ghost use Rattle.std.specs.Prelude.{IfOk, ◌≡◌};

use crate::openings::put_openings;
use crate::shield::shielded;
use ghs_graph::graph::Graph;
use peer_network::event::Event;
use peer_page::limits::first_events;
use peer_view::data::data_of;
use peer_words::viewed::Viewed;
use std::alloc::{AllocError, Global};

/// The data of a run up to the event `to`, and how each node opens, as a page may hold them. Refusal: out of memory.
pub(crate) fn told_of<P: Viewed>(
    alloc: Global,
    setting: P::Setting,
    graph: Graph,
    events: &[Event],
    from: u64,
    to: u64,
) -> Result<Vec<u8>, AllocError>
    requires setting { P.goes_by setting }
    requires run { IsRun P.rules (network_of graph) events.now }
    ensures { IfOk result (λ text. text.items ≡ told_json P.rules P.words P.looks P.bound graph events.now from to) }
{
    let same = graph.copy(alloc)?;
    let shown = first_events(events, to);
    let mut data = data_of::<P>(alloc, setting, graph, shown, events.len() as u64, from)?;
    put_openings::<P>(alloc, &mut data, setting, same)?;
    shielded(alloc, &data)
}
