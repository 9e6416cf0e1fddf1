//! Runs done again.
ghost use Rattle.peer_network.specs.Network.{network_of};
ghost use Rattle.ghs_protocol.specs.Run.{IsRunUnder};
ghost use Rattle.ghs_sched.specs.Replays.{CantReplay, HasReplayed};
ghost use Rattle.peer_schedule.specs.declared.fault.ReplayFault.TheVariants.{Memory};
ghost use Rattle.ghs_world.specs.Ready.{is_ready};
ghost use Rattle.peer_network.specs.Wakes.{may_wake};
ghost use Rattle.std.specs.Prelude.{IfErr, IfOk, length, ◌≡◌, ◌≤◌};

use ghs_graph::graph::Graph;
use ghs_world::world::World;
use peer_network::event::Event;
use peer_network::wake_set::WakeSet;
use peer_schedule::fault::ReplayFault;
use peer_texts::trace::EVENT_LIMIT;
use std::alloc::Global;

/// The world that a list of events leaves, done in order from the opening of the graph on: nothing is out, and there are
/// as many turns as there may be. A fault hands the graph back. A run under the wake set has no fault but lack of memory.
///
/// ```text
/// let events = read_trace(alloc, &text)?;
/// let world = replay(alloc, graph, WakeSet::All, &events)?;
/// // world.trace() is these events; an Err hands the graph back, and names the first that isn't lawful
/// ```
pub fn replay(
    alloc: Global,
    graph: Graph,
    wake: WakeSet,
    events: &[Event],
) -> Result<World, (Graph, ReplayFault)>
    requires { length events.now ≤ EVENT_LIMIT }
    ensures ok { IfOk result (λ w. HasReplayed graph wake events.now w) }
    ensures fault { IfErr result (λ e. CantReplay graph wake events.now e.1) }
    ensures run { IsRunUnder (may_wake graph wake) (network_of graph) events.now → IfErr result (λ e. e.1 ≡ Memory) }
    ensures back { IfErr result (λ e. e.0 ≡ graph) }
{
    let mut world = match World::open(alloc, graph, wake, EVENT_LIMIT) {
        Ok(world) => world,
        Err((graph, _)) => return Err((graph, ReplayFault::Memory)),
    };
    for event in events {
        if !is_ready(&world, *event) {
            let place = world.trace().len() as u64 + 1;
            return Err((world.into_graph(), ReplayFault::NotLawful(place)));
        }
        if world.make(alloc, *event).is_err() {
            return Err((world.into_graph(), ReplayFault::Memory));
        }
    }
    Ok(world)
}

/// Whether an event may be checked out, turns and memory aside.
fn is_ready(world: &World, event: Event) -> bool
    ensures { result ≡ is_ready world.now event }
{
    world.has_place(event) && world.is_ready(event)
}
