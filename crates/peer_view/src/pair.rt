//! The page of two runs.
ghost use Rattle.std.specs.Prelude.{◌↔◌, IfOk, IsErrOf};
ghost use Rattle.peer_network.specs.Network.{network_of};
ghost use Rattle.peer_machine.specs.Run.{IsRun};
ghost use Rattle.peer_page.specs.Limits.{IsPairTooLarge};
ghost use Rattle.peer_page.specs.declared.fault.PageFault.TheVariants.{TooLarge};
ghost use Rattle.peer_view.specs.PairPage.{IsPairPage};

use crate::data::data_of;
use ghs_graph::graph::Graph;
use peer_machine::event::Event;
use peer_page::fault::PageFault;
use peer_page::limits::{first_events, is_too_large};
use peer_page::page;
use peer_words::viewed::Viewed;
use std::alloc::Global;

/// The page of two runs of one network, beside each other: of each its steps from the opening on to the event `to`, or to its
/// last where there are fewer. Both open before the event `from`. Events are counted from 1. Refusals: a page of one of the
/// two would be too large; out of memory.
///
/// ```text
/// let html = pair_page::<Boruvka>(alloc, (), graph, &first, &second, 1, u64::MAX)?;
/// // both runs whole; Err(PageFault::TooLarge) where one of them has more than 100,000 events
/// ```
pub fn pair_page<P: Viewed>(
    alloc: Global,
    setting: P::Setting,
    graph: Graph,
    first: &[Event],
    second: &[Event],
    from: u64,
    to: u64,
) -> Result<Vec<u8>, PageFault>
    requires setting { P.goes_by setting }
    requires first { IsRun P.rules (network_of graph) first.now }
    requires second { IsRun P.rules (network_of graph) second.now }
    ensures page { IfOk result (λ text. IsPairPage P.rules P.words P.looks P.bound graph first.now second.now from to text.items) }
    ensures large { IsErrOf result TooLarge ↔ IsPairTooLarge graph first.now second.now to }
{
    if is_too_large(&graph, first, to) || is_too_large(&graph, second, to) {
        return Err(PageFault::TooLarge);
    }
    let shown = first_events(first, to);
    let beside = first_events(second, to);
    let same = graph.copy(alloc)?;
    let data = data_of::<P>(alloc, setting, graph, shown, first.len() as u64, from)?;
    let other = data_of::<P>(alloc, setting, same, beside, second.len() as u64, from)?;
    Ok(page::pair_page(alloc, &data, &other)?)
}
