//! Runs whose events a schedule picks.
ghost use Rattle.ghs_core.specs.NetState.{network};
ghost use Rattle.ghs_protocol.specs.Marks.{HasEnded};
ghost use Rattle.ghs_sched.specs.Runs.{EndsFor, HasMadeNext, HasRun, IsEnd, IsWhole};
ghost use Rattle.ghs_world.specs.Ready.{ready_events};
ghost use Rattle.ghs_world.specs.Steps.{IsSameWorld};
ghost use Rattle.ghs_world.specs.WorldState.{has_turn, home};
ghost use Rattle.std.specs.Prelude.{IfErr, IfOk, OnErr, OnOk, [], true, ◌<◌, ◌≡◌, ◌-◌, ◌^◌};

use crate::fault::RunFault;
use ghs_world::world::World;
use peer_schedule::schedule::Schedule;
use std::alloc::{AllocError, Global};

/// How a run ends.
#[derive(Clone, Copy, Debug, Drop, PartialEq, Eq)]
pub enum RunEnd {
    /// The run has ended: in each component a core node has halted. This is the least node that has.
    Halted(u32),
}

/// Runs a world on by a schedule until the run has ended. All that is out is recalled first; then each word picks one of
/// the events that are ready, and it happens. Of the faults TurnLimit comes where the commits have come to the turns or no
/// ticket number is left, and else Memory; a word whose event was refused memory is picked by again. At every end nothing
/// is out, and the world stands after the events so far.
///
/// ```text
/// let mut world = World::open(alloc, graph, WakeSet::All, 1 << 40)?;
/// let end = run_seeded(alloc, &mut world, &mut Schedule::seeded(7))?;
/// // world.trace() are the events of the run of seed 7; ghs_report has its text, run_text(alloc, &world)
/// ```
pub fn run_seeded(
    alloc: Global,
    world: &mut World,
    schedule: &mut Schedule,
) -> Result<RunEnd, RunFault>
    ensures run { HasRun world.old world.new schedule.old schedule.new }
    ensures whole { OnOk result (IsWhole world.old world.new schedule.old schedule.new) }
    ensures halted { IfOk result (λ e. IsEnd world.new e) }
    ensures going { OnErr result (HasEnded world.new.net.graph (home world.new) → ⊥) }
    ensures fault { IfErr result (λ f. EndsFor world.new f) }
    ensures at_limit { result ≡ Err RunFault.Memory → has_turn world.new ≡ true }
    ensures limit { result ≡ Err RunFault.TurnLimit → world.new.last < 2 ^ 64 - 1 → IsWhole world.old world.new schedule.old schedule.new }
{
    world.recall_all();
    'events: while !world.ended() {
        if !world.has_turn() {
            let _ = world.turns();
            return Err(RunFault::TurnLimit);
        }
        match make_next(alloc, world, schedule) {
            Ok(()) => {}
            Err(_) => return Err(RunFault::Memory),
        }
    }
    Ok(end_of(world))
}

/// The next word picks one of the events that are ready, and it happens. A refusal leaves the world and the word.
fn make_next(alloc: Global, world: &mut World, schedule: &mut Schedule) -> Result<(), AllocError>
    requires home { world.old.outs ≡ [] }
    requires some { ready_events world.old ≡ [] → ⊥ }
    requires turn { has_turn world.old ≡ true }
    ensures ok { OnOk result (HasMadeNext world.old world.new schedule.old schedule.new) }
    ensures err { OnErr result (IsSameWorld world.old world.new) }
    ensures word { OnErr result (schedule.new ≡ schedule.old) }
{
    let mut rest = schedule.copy()?;
    let place = rest.pick(world.ready_count());
    world.make_placed(alloc, world.ready_placed(place))?;
    *schedule = rest;
    Ok(())
}

/// The end of a run that has ended: the least node that has halted.
pub fn end_of(world: &World) -> RunEnd
    requires { HasEnded world.now.net.graph (home world.now) }
    ensures { IsEnd world.now result }
{
    let _ = world.graph().nodes();
    match world.core_halted() {
        Some(v) => RunEnd::Halted(v),
        // There is a node, and with it one is joined that has halted.
        None => unreachable!(),
    }
}
