//! Runs that go on by a seed.
ghost use Rattle.ghs_hand.specs.Going.{HasGoneOn, StopsFor};
ghost use Rattle.std.specs.Prelude.{◌≡◌, IfErr, OnOk, false, length, true};

use ghs_patient::run::run_patient;
use ghs_sched::fault::RunFault;
use ghs_sched::run::{RunEnd, run_seeded};
use ghs_world::world::World;
use peer_hand::fault::HandFault;
use peer_schedule::schedule::Schedule;
use std::alloc::Global;

/// Runs a world on, from wherever it stands, by the schedule of a seed until the run has ended: among all events that may
/// happen or, patiently, among those that move the run on. Refusals: the turns are used before the end; out of memory.
pub fn go_on(alloc: Global, world: &mut World, patient: bool, seed: u64) -> Result<(), HandFault>
    requires numbers { world.old.last ≡ length world.old.net.trace }
    ensures on { OnOk result (HasGoneOn patient seed world.old world.new.net.trace) }
    ensures fault { IfErr result (λ fault. StopsFor patient seed world.old world.new.net.trace fault) }
{
    if patient {
        go_patiently(alloc, world, seed)
    } else {
        go_among_all(alloc, world, seed)
    }
}

/// The same among all events that may happen.
fn go_among_all(alloc: Global, world: &mut World, seed: u64) -> Result<(), HandFault>
    requires numbers { world.old.last ≡ length world.old.net.trace }
    ensures on { OnOk result (HasGoneOn false seed world.old world.new.net.trace) }
    ensures fault { IfErr result (λ fault. StopsFor false seed world.old world.new.net.trace fault) }
{
    let mut schedule = Schedule::seeded(seed);
    match run_seeded(alloc, world, &mut schedule) {
        Ok(RunEnd::Halted(_)) => Ok(()),
        Err(RunFault::TurnLimit) => {
            // Read for its clause: there are fewer turns than numbers.
            let _ = world.turns();
            Err(HandFault::TurnLimit)
        }
        Err(_) => Err(HandFault::Memory),
    }
}

/// The same among the events that move the run on.
fn go_patiently(alloc: Global, world: &mut World, seed: u64) -> Result<(), HandFault>
    requires numbers { world.old.last ≡ length world.old.net.trace }
    ensures on { OnOk result (HasGoneOn true seed world.old world.new.net.trace) }
    ensures fault { IfErr result (λ fault. StopsFor true seed world.old world.new.net.trace fault) }
{
    let mut schedule = Schedule::seeded(seed);
    match run_patient(alloc, world, &mut schedule) {
        Ok(RunEnd::Halted(_)) => Ok(()),
        Err(RunFault::TurnLimit) => {
            // Read for its clause: there are fewer turns than numbers.
            let _ = world.turns();
            Err(HandFault::TurnLimit)
        }
        Err(_) => Err(HandFault::Memory),
    }
}
