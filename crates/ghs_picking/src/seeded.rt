//! Seeded runs that are followed from event to event.
ghost use Rattle.ghs_protocol.specs.Marks.{HasEnded};
ghost use Rattle.ghs_sched.specs.Runs.{EndsFor, HasMadeNext, HasRun, IsEnd, IsWhole};
ghost use Rattle.ghs_world.specs.Ready.{ready_events};
ghost use Rattle.ghs_world.specs.Steps.{IsSameWorld};
ghost use Rattle.ghs_world.specs.WorldState.{has_turn, home};
ghost use Rattle.std.specs.Prelude.{IfErr, IfOk, OnErr, OnOk, [], true, ◌<◌, ◌≡◌, ◌-◌, ◌^◌};

use crate::making::make;
use ghs_following::follower::Follower;
use ghs_sched::fault::RunFault;
use ghs_sched::run::{RunEnd, end_of};
use ghs_world::world::World;
use peer_schedule::schedule::Schedule;
use std::alloc::{AllocError, Global};

/// Runs a world on as `ghs_sched` does, each event followed. Where memory runs out what is kept is of no use.
pub(crate) fn run_seeded<F: Follower>(
    alloc: Global,
    world: &mut World,
    schedule: &mut Schedule,
    kept: &mut F,
) -> Result<RunEnd, RunFault>
    requires kept { F.is_of world.old.net.graph world.old.net.trace kept.old }
    ensures run { HasRun world.old world.new schedule.old schedule.new }
    ensures whole { OnOk result (IsWhole world.old world.new schedule.old schedule.new) }
    ensures halted { IfOk result (λ e. IsEnd world.new e) }
    ensures limit { result ≡ Err RunFault.TurnLimit → world.new.last < 2 ^ 64 - 1 → IsWhole world.old world.new schedule.old schedule.new }
    ensures kept { (result ≡ Err RunFault.Memory → ⊥) → F.is_of world.new.net.graph world.new.net.trace kept.new }
{
    world.recall_all();
    'events: while !world.ended() {
        if !world.has_turn() {
            let _ = world.turns();
            return Err(RunFault::TurnLimit);
        }
        match make_next(alloc, world, schedule, kept) {
            Ok(()) => {}
            Err(_) => return Err(RunFault::Memory),
        }
    }
    Ok(end_of(world))
}

/// The next word picks one of the events that are ready, and it happens. A refusal leaves the world and the word.
fn make_next<F: Follower>(
    alloc: Global,
    world: &mut World,
    schedule: &mut Schedule,
    kept: &mut F,
) -> Result<(), AllocError>
    requires home { world.old.outs ≡ [] }
    requires some { ready_events world.old ≡ [] → ⊥ }
    requires turn { has_turn world.old ≡ true }
    requires kept { F.is_of world.old.net.graph world.old.net.trace kept.old }
    ensures ok { OnOk result (HasMadeNext world.old world.new schedule.old schedule.new) }
    ensures kept { OnOk result (F.is_of world.new.net.graph world.new.net.trace kept.new) }
    ensures err { OnErr result (IsSameWorld world.old world.new) }
    ensures word { OnErr result (schedule.new ≡ schedule.old) }
{
    let mut rest = schedule.copy()?;
    let place = rest.pick(world.ready_count());
    make(alloc, world, kept, world.ready_placed(place))?;
    *schedule = rest;
    Ok(())
}
