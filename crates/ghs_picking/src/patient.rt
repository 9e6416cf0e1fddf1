//! Patient runs that are followed from event to event.
ghost use Rattle.ghs_core.specs.NetState.{network};
ghost use Rattle.ghs_patient.specs.Choices.{AreChoices, patient_in};
ghost use Rattle.ghs_patient.specs.Runs.{HasRun, HasTurns, IsShort};
ghost use Rattle.ghs_protocol.specs.Marks.{HasEnded};
ghost use Rattle.ghs_sched.specs.Runs.{EndsFor, HasMadeOneOf, IsEnd};
ghost use Rattle.ghs_world.specs.Steps.{IsSameWorld};
ghost use Rattle.ghs_world.specs.WorldState.{has_turn, home};
ghost use Rattle.std.specs.Prelude.{IfErr, IfOk, OnErr, OnOk, [], true, ◌≡◌};

use ghs_following::follower::Follower;
use ghs_patient::choices::Choices;
use ghs_protocol::interleavings::{law_one_waits, law_patience, law_patience_lasts};
use ghs_sched::fault::RunFault;
use ghs_sched::run::{RunEnd, end_of};
use ghs_world::world::World;
use peer_schedule::schedule::Schedule;
use std::alloc::{AllocError, Global};

/// Runs a world on as `ghs_patient` does, each event followed. Where memory runs out what is kept is of no use.
pub(crate) fn run_patient<F: Follower>(
    alloc: Global,
    world: &mut World,
    schedule: &mut Schedule,
    kept: &mut F,
) -> Result<RunEnd, RunFault>
    requires kept { F.is_of world.old.net.graph world.old.net.trace kept.old }
    ensures run { HasRun world.old world.new schedule.old schedule.new }
    ensures short { IsShort world.old world.new }
    ensures halted { IfOk result (λ e. IsEnd world.new e) }
    ensures fault { IfErr result (λ f. EndsFor world.new f) }
    ensures ends { HasTurns world.old → result ≡ Err RunFault.TurnLimit → ⊥ }
    ensures kept { (result ≡ Err RunFault.Memory → ⊥) → F.is_of world.new.net.graph world.new.net.trace kept.new }
{
    world.recall_all();
    if world.ended() {
        return Ok(end_of(world));
    }
    match Choices::of(alloc, world) {
        Ok(mut choices) => run_on(alloc, world, &mut choices, schedule, kept),
        Err(_) => Err(RunFault::Memory),
    }
}

/// The same, where nothing is out and the choices are kept.
fn run_on<F: Follower>(
    alloc: Global,
    world: &mut World,
    choices: &mut Choices,
    schedule: &mut Schedule,
    kept: &mut F,
) -> Result<RunEnd, RunFault>
    requires outs { world.old.outs ≡ [] }
    requires choices { AreChoices world.old choices.old }
    requires kept { F.is_of world.old.net.graph world.old.net.trace kept.old }
    ensures run { HasRun world.old world.new schedule.old schedule.new }
    ensures short { IsShort world.old world.new }
    ensures halted { IfOk result (λ e. IsEnd world.new e) }
    ensures fault { IfErr result (λ f. EndsFor world.new f) }
    ensures ends { HasTurns world.old → result ≡ Err RunFault.TurnLimit → ⊥ }
    ensures kept { (result ≡ Err RunFault.Memory → ⊥) → F.is_of world.new.net.graph world.new.net.trace kept.new }
{
    law_patience();
    law_patience_lasts();
    let _ = world.net().trace();
    'events: while !world.ended() {
        if !world.has_turn() {
            let _ = world.turns();
            return Err(RunFault::TurnLimit);
        }
        match make_next(alloc, world, choices, schedule, kept) {
            Ok(()) => {}
            Err(_) => return Err(RunFault::Memory),
        }
    }
    Ok(end_of(world))
}

/// The next word picks an event, and it happens. A refusal leaves the world, the choices and the word.
fn make_next<F: Follower>(
    alloc: Global,
    world: &mut World,
    choices: &mut Choices,
    schedule: &mut Schedule,
    kept: &mut F,
) -> Result<(), AllocError>
    requires home { world.old.outs ≡ [] }
    requires going { HasEnded world.old.net.graph (home world.old) → ⊥ }
    requires turn { has_turn world.old ≡ true }
    requires choices { AreChoices world.old choices.old }
    requires kept { F.is_of world.old.net.graph world.old.net.trace kept.old }
    ensures ok { OnOk result (HasMadeOneOf (patient_in world.old) world.old world.new schedule.old schedule.new) }
    ensures choices { OnOk result (AreChoices world.new choices.new) }
    ensures kept { OnOk result (F.is_of world.new.net.graph world.new.net.trace kept.new) }
    ensures err { OnErr result (IsSameWorld world.old world.new) }
    ensures word { OnErr result (schedule.new ≡ schedule.old) }
{
    law_one_waits();
    law_patience_lasts();
    let _ = world.net().trace();
    let _ = world.turns();
    let mut rest = schedule.copy()?;
    let placed = choices.pick(world, &mut rest);
    let before = *world.net().node(placed.node()).head();
    let delta = world.answer_placed(alloc, placed)?;
    kept.follow(world.net(), placed.event, &delta)?;
    world.make_answered_placed(placed, &delta)?;
    choices.follow(world, placed, &before, &delta);
    *schedule = rest;
    Ok(())
}
