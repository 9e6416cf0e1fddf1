//! The page of two runs.
ghost use Rattle.std.specs.Prelude.{◌≤◌, ◌^◌, ◌↔◌, IfOk, IsErrOf, length};
ghost use Rattle.peer_network.specs.Network.{network_of};
ghost use Rattle.ghs_protocol.specs.Run.{IsRun};
ghost use Rattle.peer_page.specs.Limits.{IsPairTooLarge};
ghost use Rattle.peer_page.specs.declared.fault.PageFault.TheVariants.{TooLarge};
ghost use Rattle.ghs_view.specs.PairPage.{IsPairPage};

use crate::data::data_of;
use ghs_core::event::Event;
use ghs_graph::bounds::bound;
use ghs_graph::graph::Graph;
use peer_page::fault::PageFault;
use peer_page::limits::{first_events, is_too_large};
use peer_page::page;
use std::alloc::Global;

/// The page of two runs of one network, beside each other: of each its steps from the opening on to the event `to`, or to its
/// last where there are fewer. Both open before the event `from`. Events are counted from 1. Refusals: a page of one of the
/// two would be too large; out of memory.
pub fn pair_page(
    alloc: Global,
    graph: Graph,
    first: &[Event],
    second: &[Event],
    from: u64,
    to: u64,
) -> Result<Vec<u8>, PageFault>
    requires first { IsRun (network_of graph) first.now }
    requires second { IsRun (network_of graph) second.now }
    requires few { length first.now ≤ 2 ^ 40 }
    requires few_beside { length second.now ≤ 2 ^ 40 }
    ensures page { IfOk result (λ text. IsPairPage graph first.now second.now from to text.items) }
    ensures large { IsErrOf result TooLarge ↔ IsPairTooLarge graph first.now second.now to }
{
    if is_too_large(&graph, first, to) || is_too_large(&graph, second, to) {
        return Err(PageFault::TooLarge);
    }
    let shown = first_events(first, to);
    let beside = first_events(second, to);
    let most = bound(graph.nodes(), graph.links());
    let same = graph.copy(alloc)?;
    let data = data_of(alloc, graph, most, shown, first.len() as u64, from)?;
    let other = data_of(alloc, same, most, beside, second.len() as u64, from)?;
    Ok(page::pair_page(alloc, &data, &other)?)
}
