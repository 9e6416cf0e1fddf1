//! The page of a stored run, which is judged first.
ghost use Rattle.peer_network.specs.Network.{network_of};
ghost use Rattle.ghs_protocol.specs.Run.{IsRunUnder};
ghost use Rattle.peer_texts.specs.declared.trace.TheConstants.{EVENT_LIMIT};
ghost use Rattle.peer_page.specs.Limits.{IsTooLarge};
ghost use Rattle.ghs_view.specs.RunPage.{IsRunPage};
ghost use Rattle.ghs_view.specs.Stored.{HasNoPage};
ghost use Rattle.peer_network.specs.Wakes.{may_wake};
ghost use Rattle.std.specs.Prelude.{◌≤◌, IfErr, IfOk, OnOk, length};

use crate::page::run_page;
use ghs_core::event::Event;
use ghs_graph::graph::Graph;
use ghs_sched::replay::replay;
use peer_network::wake_set::WakeSet;
use peer_page::fault::{PageFault, StoredFault};
use peer_schedule::fault::ReplayFault;
use std::alloc::Global;

/// The page of a stored run, from the opening on to the event `to`; it opens before the event `from`. A run that hasn't
/// ended is shown too. Refusals, in this order: an event isn't lawful; the page is too large; out of memory comes where
/// it is met.
///
/// ```text
/// let events = read_trace(alloc, &text)?;
/// let html = stored_page(alloc, graph, WakeSet::All, &events, 1, u64::MAX)?;
/// // Err(StoredFault::NotLawful(2)) where the second event isn't lawful
/// ```
pub fn stored_page(
    alloc: Global,
    graph: Graph,
    wake: WakeSet,
    events: &[Event],
    from: u64,
    to: u64,
) -> Result<Vec<u8>, StoredFault>
    requires few { length events.now ≤ EVENT_LIMIT }
    ensures run { OnOk result (IsRunUnder (may_wake graph wake) (network_of graph) events.now) }
    ensures page { IfOk result (λ text. IsRunPage graph events.now from to text.items) }
    ensures small { OnOk result (IsTooLarge graph events.now to → ⊥) }
    ensures fault { IfErr result (λ fault. HasNoPage graph wake events.now to fault) }
{
    let world = match replay(alloc, graph, wake, events) {
        Ok(world) => world,
        Err((_, ReplayFault::NotLawful(event))) => return Err(StoredFault::NotLawful(event)),
        Err((_, _)) => return Err(StoredFault::Memory),
    };
    // Read for its clause: the events are a run.
    let _ = world.trace();
    match run_page(alloc, world.into_graph(), events, from, to) {
        Ok(text) => Ok(text),
        Err(PageFault::TooLarge) => Err(StoredFault::TooLarge),
        Err(PageFault::Memory) => Err(StoredFault::Memory),
    }
}
