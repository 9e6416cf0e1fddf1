//! Runs that go on patiently, and so end.
ghost use Rattle.ghs_patient.specs.Choices.{AreChoices};
ghost use Rattle.ghs_patient.specs.Keeping.{IsNextAmong};
ghost use Rattle.ghs_patient.specs.Runs.{HasRun, HasTurns, IsShort, patient_after};
ghost use Rattle.ghs_protocol.specs.Marks.{HasEnded};
ghost use Rattle.ghs_sched.specs.Runs.{EndsFor, IsEnd};
ghost use Rattle.ghs_world.specs.WorldState.{home};
ghost use Rattle.std.specs.Prelude.{IfErr, IfOk, OnErr, ◌≡◌};

use crate::choices::Choices;
use crate::keeping::{Keeper, run_by};
use ghs_node::delta::Delta;
use ghs_node::head::Head;
use ghs_protocol::interleavings::{law_one_waits, law_patience, law_patience_lasts};
use ghs_sched::fault::RunFault;
use ghs_sched::run::RunEnd;
use ghs_world::world::World;
use peer_index::placed::Placed;
use peer_schedule::schedule::Schedule;
use std::alloc::{AllocError, Global};

/// Runs a world on until the run has ended. All that is out is recalled first; then each word of the schedule picks one of
/// the events that move the run on: wakes under the wake set, and takes of messages that wouldn't only be put back. Where
/// there is none it picks one of those takes behind whose message stands one that would move the run on. So at most
/// 2(B + N) events are made, B the bound on messages and N the nodes, and where turns and ticket numbers for so many are
/// left, the run ends, or memory runs out. Of the faults TurnLimit comes where the commits have come to the turns or no
/// ticket number is left, and else Memory. At every end nothing is out, and the world stands after the events so far.
///
/// ```text
/// let mut world = World::open(alloc, graph, WakeSet::All, 1 << 40)?;
/// let end = run_patient(alloc, &mut world, &mut Schedule::seeded(7))?;
/// // world.ended(), after 2(B + N) events at most; so many turns are enough for every graph, so an Err is out of memory
/// ```
pub fn run_patient(
    alloc: Global,
    world: &mut World,
    schedule: &mut Schedule,
) -> Result<RunEnd, RunFault>
    ensures run { HasRun world.old world.new schedule.old schedule.new }
    ensures short { IsShort world.old world.new }
    ensures halted { IfOk result (λ e. IsEnd world.new e) }
    ensures going { OnErr result (HasEnded world.new.net.graph (home world.new) → ⊥) }
    ensures fault { IfErr result (λ f. EndsFor world.new f) }
    ensures ends { HasTurns world.old → result ≡ Err RunFault.TurnLimit → ⊥ }
{
    law_patience();
    law_patience_lasts();
    let _ = world.net().trace();
    run_by::<Choices>(alloc, world, schedule)
}

/// A patient schedule keeps its choices.
impl Keeper for Choices {
    ghost can_begin = { λ es. Unit {0} };

    ghost is_of = { λ s c. AreChoices s c };

    ghost is_next = { λ s words e after. IsNextAmong patient_after s words e after };

    fn begin(alloc: Global, world: &World) -> Result<Choices, AllocError> {
        Choices::of(alloc, world)
    }

    fn next(&self, world: &World, schedule: &mut Schedule) -> Placed {
        law_one_waits();
        law_patience_lasts();
        let _ = world.net().trace();
        self.pick(world, schedule)
    }

    fn keep_up(&mut self, world: &World, placed: Placed, before: &Head, delta: &Delta) {
        self.follow(world, placed, before, delta);
    }
}
