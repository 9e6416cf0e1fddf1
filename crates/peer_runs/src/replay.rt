//! Runs done again.
ghost use Rattle.std.specs.Prelude.{◌≡◌, IfErr, IfOk};
ghost use Rattle.peer_network.specs.Network.{network_of};
ghost use Rattle.peer_schedule.specs.declared.fault.ReplayFault.TheVariants.{Memory};
ghost use Rattle.peer_network.specs.Wakes.{may_wake};
ghost use Rattle.peer_machine.specs.Run.{IsRunUnder};
ghost use Rattle.peer_runs.specs.Replays.{CantReplay, HasReplayed};

use crate::world::World;
use ghs_graph::graph::Graph;
use peer_machine::protocol::Protocol;
use peer_net::event::Event;
use peer_network::wake_set::WakeSet;
use peer_schedule::fault::ReplayFault;
use std::alloc::Global;

/// The world that a list of events leaves, done in order from the opening of the graph on. A fault hands the graph back. A
/// run under the wake set has no fault but lack of memory.
///
/// ```text
/// let events = read_trace_of(alloc, Protocol::Echo, &text)?;
/// let world = replay::<Echo>(alloc, (), graph, WakeSet::All, &events)?;
/// // world.net().trace() is these events; an Err hands the graph back, and names the first that isn't lawful
/// ```
pub fn replay<P: Protocol>(
    alloc: Global,
    setting: P::Setting,
    graph: Graph,
    wake: WakeSet,
    events: &[Event],
) -> Result<World<P>, (Graph, ReplayFault)>
    requires setting { P.goes_by setting }
    ensures ok { IfOk result (HasReplayed graph wake events.now) }
    ensures fault { IfErr result (λ e. CantReplay P.rules graph wake events.now e.1) }
    ensures run { IsRunUnder P.rules (may_wake graph wake) (network_of graph) events.now → IfErr result (λ e. e.1 ≡ Memory) }
    ensures back { IfErr result (λ e. e.0 ≡ graph) }
{
    let mut world = match World::<P>::open(alloc, setting, graph, wake) {
        Ok(world) => world,
        Err((graph, _)) => return Err((graph, ReplayFault::Memory)),
    };
    for event in events {
        if !world.is_ready(*event) {
            let place = world.net().trace().len() as u64 + 1;
            return Err((world.into_graph(), ReplayFault::NotLawful(place)));
        }
        if world.play(alloc, *event).is_err() {
            return Err((world.into_graph(), ReplayFault::Memory));
        }
    }
    Ok(world)
}
