//! The world to which two texts lead.
ghost use Rattle.ghs_hand.specs.Led.{HasNoEvents, IsLed, LeadsNowhere};
ghost use Rattle.peer_texts.specs.Reading.{HasEvents};
ghost use Rattle.peer_texts.specs.declared.trace.TheConstants.{EVENT_LIMIT};
ghost use Rattle.std.specs.Prelude.{◌≡◌, ◌≤◌, IfErr, IfOk, length};

use ghs_sched::replay::replay;
use ghs_world::world::World;
use peer_hand::fault::HandFault;
use peer_hand::texts::graph_of;
use peer_network::event::Event;
use peer_network::wake_set::WakeSet;
use peer_texts::trace::{EVENT_LIMIT, read_trace};
use std::alloc::Global;

/// The world of a graph's text after the events of a trace's text: nothing is out, and turns are left as far as they may go.
/// Refusals, in this order: the first text has a fault; the second has one; an event isn't lawful where it stands; want of
/// memory comes where it is met.
pub fn led(alloc: Global, wake: WakeSet, graph: &[u8], trace: &[u8]) -> Result<World, HandFault>
    ensures world { IfOk result (λ w. IsLed wake graph.now trace.now w) }
    ensures fault { IfErr result (λ fault. LeadsNowhere wake graph.now trace.now fault) }
{
    let graph = graph_of(alloc, graph)?;
    let events = events_of(alloc, trace)?;
    match replay(alloc, graph, wake, &events) {
        Ok(world) => Ok(world),
        Err((_, fault)) => Err(fault.into()),
    }
}

/// The events of a text.
fn events_of(alloc: Global, text: &[u8]) -> Result<Vec<Event>, HandFault>
    ensures events { IfOk result (λ events. HasEvents text.now events.items) }
    ensures few { IfOk result (λ events. length events.items ≤ EVENT_LIMIT) }
    ensures fault { IfErr result (λ fault. HasNoEvents text.now fault) }
{
    let events = read_trace(alloc, text)?;
    // No text says more; so much isn't said by the clauses of `read_trace`.
    if events.len() as u64 > EVENT_LIMIT {
        return Err(HandFault::Memory);
    }
    Ok(events)
}
