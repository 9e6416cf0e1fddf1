//! How often a run defers, by rules that are known only when it begins.
ghost use Rattle.std.specs.Prelude.{◌≡◌, IfErr, IfOk};
ghost use Rattle.peer_network.specs.Network.{network_of};
ghost use Rattle.peer_network.specs.Wakes.{may_wake};
ghost use Rattle.peer_network.specs.declared.wake_set.WakeSet.TheVariants as wakes;
ghost use Rattle.peer_machine.specs.Run.{IsRunUnder};
ghost use Rattle.peer_runs.specs.Replays.{CantReplay};
ghost use Rattle.peer_schedule.specs.declared.fault.ReplayFault.TheVariants.{Memory};
ghost use Rattle.peer_knock.specs.Knock.{knocking};
ghost use Rattle.peer_knock.specs.Deferring.{times_deferred};

use crate::knock::{Chosen, Knocking};
use ghs_graph::graph::Graph;
use peer_machine::event::Event;
use peer_network::wake_set::WakeSet;
use peer_runs::replay::replay;
use peer_schedule::fault::ReplayFault;
use std::alloc::Global;
use std::marker::Brand;

/// How many times a run of these events defers a knock, where sleepers are patient, or where they aren't. Refusals: the first
/// event that isn't lawful; out of memory.
///
/// ```text
/// let events = [Event::Wake(1), Event::Take(2, 0), Event::Take(2, 0)];   // on the path 1-2-3
/// let times = times_deferred(alloc, true, graph, &events)?;
/// // 2; of sleepers that aren't patient the third event isn't lawful: Err(ReplayFault::NotLawful(3))
/// ```
pub fn times_deferred(
    alloc: Global,
    patient: bool,
    graph: Graph,
    events: &[Event],
) -> Result<u64, ReplayFault>
    ensures ok { IfOk result (λ n. n ≡ times_deferred patient graph events.now) }
    ensures fault { IfErr result (λ e. CantReplay (knocking patient) graph wakes.All events.now e) }
    ensures run { IsRunUnder (knocking patient) (may_wake graph wakes.All) (network_of graph) events.now → IfErr result (λ e. e ≡ Memory) }
{
    times_by::<Brand>(alloc, patient, graph, events)
}

/// The same, by the rules that a type names.
fn times_by<J: Chosen>(
    alloc: Global,
    patient: bool,
    graph: Graph,
    events: &[Event],
) -> Result<u64, ReplayFault>
    requires { patient ≡ J.patient }
    ensures ok { IfOk result (λ n. n ≡ times_deferred J.patient graph events.now) }
    ensures fault { IfErr result (λ e. CantReplay (knocking J.patient) graph wakes.All events.now e) }
    ensures run { IsRunUnder (knocking J.patient) (may_wake graph wakes.All) (network_of graph) events.now → IfErr result (λ e. e ≡ Memory) }
{
    match replay::<Knocking<J>>(alloc, patient, graph, WakeSet::All, events) {
        Ok(world) => Ok(world.net().ledger().deferred),
        Err((_, fault)) => Err(fault),
    }
}
