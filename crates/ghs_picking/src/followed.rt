//! Runs by the schedule of a seed, each event followed. Seeded and patient runs are followed while they are made, so that
//! nothing is played twice.
ghost use Rattle.ghs_picking.specs.Picking.{IsPickedBy};
ghost use Rattle.std.specs.Prelude.{OnOk, [], ◌≡◌};

use crate::patient::run_patient;
use crate::picking::run_by_seed;
use crate::seeded::run_seeded;
use ghs_choices::schedule_kind::ScheduleKind;
use ghs_following::follower::Follower;
use ghs_following::walk::follow_all;
use ghs_sched::fault::RunFault;
use ghs_sched::run::RunEnd;
use ghs_world::world::World;
use peer_schedule::schedule::Schedule;
use std::alloc::Global;

/// Runs a world from its opening on as `run_by_seed` does, and has its events followed. Where memory runs out what is kept
/// is of no use; else it is what is kept of the run, also where its turns are used.
pub(crate) fn run_followed<F: Follower>(
    alloc: Global,
    world: &mut World,
    schedule_kind: ScheduleKind,
    seed: u64,
    kept: &mut F,
) -> Result<RunEnd, RunFault>
    requires trace { world.old.net.trace ≡ [] }
    requires numbers { world.old.last ≡ 0 }
    requires kept { F.is_of world.old.net.graph [] kept.old }
    ensures graph { world.new.net.graph ≡ world.old.net.graph }
    ensures wake { world.new.wake ≡ world.old.wake }
    ensures turns { world.new.turns ≡ world.old.turns }
    ensures outs { world.new.outs ≡ [] }
    ensures whole { OnOk result (IsPickedBy schedule_kind seed world.old.wake world.old.turns world.old.net.graph world.new.net.trace) }
    ensures limit { result ≡ Err RunFault.TurnLimit → IsPickedBy schedule_kind seed world.old.wake world.old.turns world.old.net.graph world.new.net.trace }
    ensures kept { (result ≡ Err RunFault.Memory → ⊥) → F.is_of world.new.net.graph world.new.net.trace kept.new }
{
    let _ = world.turns();
    let mut schedule = Schedule::seeded(seed);
    match schedule_kind {
        ScheduleKind::Seeded => run_seeded(alloc, world, &mut schedule, kept),
        ScheduleKind::Patient => run_patient(alloc, world, &mut schedule, kept),
        ScheduleKind::Rounds => played_again(alloc, world, ScheduleKind::Rounds, seed, kept),
        ScheduleKind::Waits => played_again(alloc, world, ScheduleKind::Waits, seed, kept),
        ScheduleKind::Lifo => played_again(alloc, world, ScheduleKind::Lifo, seed, kept),
        ScheduleKind::RoundRobin => {
            played_again(alloc, world, ScheduleKind::RoundRobin, seed, kept)
        }
    }
}

/// The same of a run that isn't followed while it is made: its events are played once more.
fn played_again<F: Follower>(
    alloc: Global,
    world: &mut World,
    schedule_kind: ScheduleKind,
    seed: u64,
    kept: &mut F,
) -> Result<RunEnd, RunFault>
    requires trace { world.old.net.trace ≡ [] }
    requires numbers { world.old.last ≡ 0 }
    requires kept { F.is_of world.old.net.graph [] kept.old }
    ensures graph { world.new.net.graph ≡ world.old.net.graph }
    ensures wake { world.new.wake ≡ world.old.wake }
    ensures turns { world.new.turns ≡ world.old.turns }
    ensures outs { world.new.outs ≡ [] }
    ensures whole { OnOk result (IsPickedBy schedule_kind seed world.old.wake world.old.turns world.old.net.graph world.new.net.trace) }
    ensures limit { result ≡ Err RunFault.TurnLimit → IsPickedBy schedule_kind seed world.old.wake world.old.turns world.old.net.graph world.new.net.trace }
    ensures kept { (result ≡ Err RunFault.Memory → ⊥) → F.is_of world.new.net.graph world.new.net.trace kept.new }
{
    let end = run_by_seed(alloc, world, schedule_kind, seed);
    if let Err(RunFault::Memory) = end {
        return end;
    }
    let _ = world.turns();
    let net = world.net();
    match follow_all(alloc, net.graph(), net.trace(), kept) {
        Ok(()) => end,
        Err(_) => Err(RunFault::Memory),
    }
}
