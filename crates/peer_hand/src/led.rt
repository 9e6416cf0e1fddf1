//! The world to which two texts lead.
ghost use Rattle.peer_hand.specs.Led.{IsLed, LeadsNowhere};
ghost use Rattle.std.specs.Prelude.{IfErr, IfOk};

use crate::fault::HandFault;
use crate::texts::{events_of, graph_of};
use peer_machine::protocol::Protocol as Rules;
use peer_network::wake_set::WakeSet;
use peer_runs::replay::replay;
use peer_runs::world::World;
use peer_trace::protocol::Protocol;
use std::alloc::Global;

/// The world of a graph's text after the events of a trace's text, whose head names the protocol P as its runs do. Refusals, in
/// this order: the first text has a fault; the second has one; an event isn't lawful where it stands; want of memory comes where
/// it is met.
///
/// ```text
/// let world = led::<Boruvka>(alloc, (), Protocol::Boruvka, WakeSet::All, b"p sp 2 1\na 1 2 5", b"trace boruvka 1\nwake 1")?;
/// // node 1 is awake; Err(HandFault::Other(Protocol::Ghs)) of the trace `trace 1` and `wake 1`
/// ```
pub fn led<P: Rules>(
    alloc: Global,
    setting: P::Setting,
    protocol: Protocol,
    wake: WakeSet,
    graph: &[u8],
    trace: &[u8],
) -> Result<World<P>, HandFault>
    requires { P.goes_by setting }
    ensures world { IfOk result (λ w. IsLed P.rules protocol wake graph.now trace.now w) }
    ensures fault { IfErr result (λ fault. LeadsNowhere P.rules protocol wake graph.now trace.now fault) }
{
    let graph = graph_of(alloc, graph)?;
    let events = events_of(alloc, protocol, trace)?;
    match replay::<P>(alloc, setting, graph, wake, &events) {
        Ok(world) => {
            // Read for its clause: the events are a run.
            let _ = world.net();
            Ok(world)
        }
        Err((_, fault)) => Err(fault.into()),
    }
}
