//! Runs that go on by a seed.
ghost use Rattle.peer_hand.specs.Going.{HasGoneOn, StopsFor};
ghost use Rattle.std.specs.Prelude.{IfErr, OnOk};

use crate::fault::HandFault;
use peer_machine::ends::Ends;
use peer_report::ended::ended;
use peer_runs::fault::RunFault;
use peer_runs::run::run_seeded;
use peer_runs::world::World;
use peer_schedule::schedule::Schedule;
use peer_texts::trace::EVENT_LIMIT;
use std::alloc::Global;

/// Runs a world on, from wherever it stands, by the schedule of a seed until the run has ended. Refusals: the turns, which are as
/// many as a trace may have events, are used before the end; out of memory.
///
/// ```text
/// go_on(alloc, &mut world, 7)?;
/// // no event may happen any more
/// ```
pub fn go_on<P: Ends>(alloc: Global, world: &mut World<P>, seed: u64) -> Result<(), HandFault>
    ensures on { OnOk result (HasGoneOn P.rules P.has_ended seed world.old world.new.net.trace) }
    ensures fault { IfErr result (λ fault. StopsFor P.rules P.has_ended seed world.old world.new.net.trace fault) }
{
    let end = run_seeded(alloc, world, &mut Schedule::seeded(seed), EVENT_LIMIT);
    // Asked for its clauses: a run has ended where nothing is ready.
    let _ = ended(world);
    match end {
        Ok(()) => Ok(()),
        Err(RunFault::TurnLimit) => Err(HandFault::TurnLimit),
        Err(RunFault::Memory) => Err(HandFault::Memory),
    }
}
