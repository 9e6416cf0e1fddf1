//! The page of a run.
ghost use Rattle.std.specs.Prelude.{◌↔◌, IfOk, IsErrOf};
ghost use Rattle.peer_network.specs.Network.{network_of};
ghost use Rattle.peer_machine.specs.Run.{IsRun};
ghost use Rattle.peer_page.specs.Limits.{IsTooLarge};
ghost use Rattle.peer_page.specs.declared.fault.PageFault.TheVariants.{TooLarge};
ghost use Rattle.peer_view.specs.RunPage.{IsRunPage};

use crate::data::data_of;
use ghs_graph::graph::Graph;
use peer_machine::event::Event;
use peer_page::fault::PageFault;
use peer_page::limits::{first_events, is_too_large};
use peer_page::page::page;
use peer_words::viewed::Viewed;
use std::alloc::Global;

/// The page of a run: its steps from the opening on to the event `to`, or to the last where there are fewer. It opens
/// before the event `from`. Events are counted from 1. Refusals: the page is too large; out of memory.
///
/// ```text
/// let graph = world.net().graph().copy(alloc)?;
/// let html = run_page::<Boruvka>(alloc, (), graph, world.net().trace(), 1, u64::MAX)?;
/// // the whole run, as `ghs view --protocol boruvka` prints it
/// ```
pub fn run_page<P: Viewed>(
    alloc: Global,
    setting: P::Setting,
    graph: Graph,
    events: &[Event],
    from: u64,
    to: u64,
) -> Result<Vec<u8>, PageFault>
    requires setting { P.goes_by setting }
    requires run { IsRun P.rules (network_of graph) events.now }
    ensures page { IfOk result (λ text. IsRunPage P.rules P.words P.looks P.bound graph events.now from to text.items) }
    ensures large { IsErrOf result TooLarge ↔ IsTooLarge graph events.now to }
{
    if is_too_large(&graph, events, to) {
        return Err(PageFault::TooLarge);
    }
    let shown = first_events(events, to);
    let data = data_of::<P>(alloc, setting, graph, shown, events.len() as u64, from)?;
    Ok(page(alloc, &data)?)
}
