//! The page of a stored run, which is judged first.
ghost use Rattle.std.specs.Prelude.{IfErr, IfOk, OnOk};
ghost use Rattle.peer_network.specs.Network.{network_of};
ghost use Rattle.peer_network.specs.Wakes.{may_wake};
ghost use Rattle.peer_machine.specs.Run.{IsRunUnder};
ghost use Rattle.peer_page.specs.Limits.{IsTooLarge};
ghost use Rattle.peer_view.specs.RunPage.{IsRunPage};
ghost use Rattle.peer_view.specs.Stored.{HasNoPage};

use crate::page::run_page;
use ghs_graph::graph::Graph;
use peer_machine::event::Event;
use peer_network::wake_set::WakeSet;
use peer_page::fault::{PageFault, StoredFault};
use peer_runs::replay::replay;
use peer_schedule::fault::ReplayFault;
use peer_words::viewed::Viewed;
use std::alloc::Global;

/// The page of a stored run, from the opening on to the event `to`; it opens before the event `from`. A run that hasn't
/// ended is shown too. Refusals, in this order: an event isn't lawful; the page is too large; out of memory comes where
/// it is met.
///
/// ```text
/// let events = read_trace_of(alloc, Protocol::Boruvka, &text)?;
/// let html = stored_page::<Boruvka>(alloc, (), graph, WakeSet::All, &events, 1, u64::MAX)?;
/// // Err(StoredFault::NotLawful(2)) where the second event isn't lawful
/// ```
pub fn stored_page<P: Viewed>(
    alloc: Global,
    setting: P::Setting,
    graph: Graph,
    wake: WakeSet,
    events: &[Event],
    from: u64,
    to: u64,
) -> Result<Vec<u8>, StoredFault>
    requires setting { P.goes_by setting }
    ensures run { OnOk result (IsRunUnder P.rules (may_wake graph wake) (network_of graph) events.now) }
    ensures page { IfOk result (λ text. IsRunPage P.rules P.words P.looks P.bound graph events.now from to text.items) }
    ensures small { OnOk result (IsTooLarge graph events.now to → ⊥) }
    ensures fault { IfErr result (λ fault. HasNoPage P.rules graph wake events.now to fault) }
{
    let world = match replay::<P>(alloc, setting, graph, wake, events) {
        Ok(world) => world,
        Err((_, ReplayFault::NotLawful(event))) => return Err(StoredFault::NotLawful(event)),
        Err((_, _)) => return Err(StoredFault::Memory),
    };
    // Read for its clause: the events are a run.
    let _ = world.net();
    match run_page::<P>(alloc, setting, world.into_graph(), events, from, to) {
        Ok(text) => Ok(text),
        Err(PageFault::TooLarge) => Err(StoredFault::TooLarge),
        Err(PageFault::Memory) => Err(StoredFault::Memory),
    }
}
