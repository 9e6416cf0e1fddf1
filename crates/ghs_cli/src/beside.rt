//! Pages of two runs, beside each other.
ghost use Rattle.ghs_commands.specs.Job.{AreViewLimits};
ghost use Rattle.ghs_cli.specs.Viewing.{HasNoPairView, IsPairView};
ghost use Rattle.ghs_picking.specs.Picking.{IsPickedBy};
ghost use Rattle.std.specs.Prelude.{◌≡◌, IfErr, IfOk};

use crate::viewing::world_of;
use ghs_answers::fault::ServeFault;
use ghs_commands::job::ViewOptions;
use ghs_graph::graph::Graph;
use ghs_view::pair::pair_page;
use ghs_world::world::World;
use peer_page::fault::PageFault;
use std::alloc::Global;

/// The page of the runs that two seeds pick of a graph: the options' and another.
pub(crate) fn pair_viewed(
    alloc: Global,
    options: &ViewOptions,
    beside: u64,
    graph: Graph,
) -> Result<Vec<u8>, ServeFault>
    requires { AreViewLimits options.now }
    ensures text { IfOk result (λ text. IsPairView options.now beside graph text.items) }
    ensures fault { IfErr result (λ fault. HasNoPairView options.now beside graph fault) }
{
    let same = graph.copy(alloc)?;
    let first = world_of(alloc, options, options.seed, graph)?;
    viewed_beside(alloc, options, beside, same, &first)
}

/// The page of a world's run, and beside it of the one that another seed picks of the same graph.
fn viewed_beside(
    alloc: Global,
    options: &ViewOptions,
    beside: u64,
    graph: Graph,
    first: &World,
) -> Result<Vec<u8>, ServeFault>
    requires limits { AreViewLimits options.now }
    requires graph { first.now.net.graph ≡ graph }
    requires first { IsPickedBy options.now.schedule_kind options.now.seed options.now.wake options.now.turns graph first.now.net.trace }
    ensures text { IfOk result (λ text. IsPairView options.now beside graph text.items) }
    ensures fault { IfErr result (λ fault. HasNoPairView options.now beside graph fault) }
{
    let second = world_of(alloc, options, beside, graph)?;
    pair_page_of(alloc, options, beside, first, &second)
}

/// The page of two worlds of one graph.
fn pair_page_of(
    alloc: Global,
    options: &ViewOptions,
    beside: u64,
    first: &World,
    second: &World,
) -> Result<Vec<u8>, ServeFault>
    requires graph { second.now.net.graph ≡ first.now.net.graph }
    requires first { IsPickedBy options.now.schedule_kind options.now.seed options.now.wake options.now.turns first.now.net.graph first.now.net.trace }
    requires second { IsPickedBy options.now.schedule_kind beside options.now.wake options.now.turns first.now.net.graph second.now.net.trace }
    ensures text { IfOk result (λ text. IsPairView options.now beside first.now.net.graph text.items) }
    ensures fault { IfErr result (λ fault. HasNoPairView options.now beside first.now.net.graph fault) }
{
    // Read for their clauses: the events are runs, and no more than 2^40 each.
    let _ = first.net();
    let _ = first.turns();
    let _ = second.net();
    let _ = second.turns();
    let graph = first.graph().copy(alloc)?;
    match pair_page(
        alloc,
        graph,
        first.trace(),
        second.trace(),
        options.from,
        options.to,
    ) {
        Ok(text) => Ok(text),
        Err(PageFault::TooLarge) => Err(ServeFault::PageTooLarge),
        Err(PageFault::Memory) => Err(ServeFault::Memory),
    }
}
