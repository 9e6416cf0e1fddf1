//! The page of a run.
ghost use Rattle.std.specs.Prelude.{◌≤◌, ◌^◌, ◌↔◌, IfOk, IsErrOf, length};
ghost use Rattle.peer_network.specs.Network.{network_of};
ghost use Rattle.ghs_protocol.specs.Run.{IsRun};
ghost use Rattle.peer_page.specs.Limits.{IsTooLarge};
ghost use Rattle.peer_page.specs.declared.fault.PageFault.TheVariants.{TooLarge};
ghost use Rattle.ghs_view.specs.RunPage.{IsRunPage};

use crate::data::data_of;
use ghs_core::event::Event;
use ghs_graph::bounds::bound;
use ghs_graph::graph::Graph;
use peer_page::fault::PageFault;
use peer_page::limits::{first_events, is_too_large};
use peer_page::page::page;
use std::alloc::Global;

/// The page of a run: its steps from the opening on to the event `to`, or to the last where there are fewer. It opens
/// before the event `from`. Events are counted from 1. Refusals: the page is too large; out of memory.
///
/// ```text
/// let graph = world.graph().copy(alloc)?;
/// let html = run_page(alloc, graph, world.trace(), 1, u64::MAX)?;
/// // the whole run, as `ghs view` prints it; Err(PageFault::TooLarge) of more than 2,000 nodes or 100,000 events
/// ```
pub fn run_page(
    alloc: Global,
    graph: Graph,
    events: &[Event],
    from: u64,
    to: u64,
) -> Result<Vec<u8>, PageFault>
    requires run { IsRun (network_of graph) events.now }
    requires few { length events.now ≤ 2 ^ 40 }
    ensures page { IfOk result (λ text. IsRunPage graph events.now from to text.items) }
    ensures large { IsErrOf result TooLarge ↔ IsTooLarge graph events.now to }
{
    if is_too_large(&graph, events, to) {
        return Err(PageFault::TooLarge);
    }
    let shown = first_events(events, to);
    let most = bound(graph.nodes(), graph.links());
    let data = data_of(alloc, graph, most, shown, events.len() as u64, from)?;
    Ok(page(alloc, &data)?)
}
