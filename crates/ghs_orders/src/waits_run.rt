//! Runs that prefer what waits.
ghost use Rattle.ghs_patient.specs.Keeping.{IsNextAmong};
ghost use Rattle.ghs_protocol.specs.Marks.{HasEnded};
ghost use Rattle.ghs_sched.specs.Runs.{EndsFor, IsEnd};
ghost use Rattle.ghs_orders.specs.Marks.{AreMarks};
ghost use Rattle.ghs_orders.specs.WaitsRuns.{HasRun, waiting_after};
ghost use Rattle.ghs_world.specs.WorldState.{home};
ghost use Rattle.std.specs.Prelude.{IfErr, IfOk, OnErr};

use crate::waiting::Waiting;
use ghs_node::delta::Delta;
use ghs_node::head::Head;
use ghs_patient::keeping::{Keeper, run_by};
use ghs_sched::fault::RunFault;
use ghs_sched::run::RunEnd;
use ghs_world::world::World;
use peer_index::placed::Placed;
use peer_schedule::schedule::Schedule;
use std::alloc::{AllocError, Global};

/// Runs a world on until the run has ended. All that is out is recalled first; then each word of the schedule picks one of
/// the events that only put their message back, and where there is none one of all that are lawful under the wake set. Such
/// a run needn't end: a message that waits alone at its port is put back again and again, and only the turns end the run
/// then. Of the faults TurnLimit comes where the commits have come to the turns or no ticket number is left, and else
/// Memory. At every end nothing is out, and the world stands after the events so far. O(log N) an event and a message; where
/// phase, level or in_branch of a node have changed, O(1) for each of its ports.
///
/// ```text
/// let mut world = World::open(alloc, graph, WakeSet::All, 1000)?;
/// let end = run_waiting(alloc, &mut world, &mut Schedule::seeded(7));
/// // Ok where the run has ended, Err(RunFault::TurnLimit) where it still goes on after 1,000 events
/// ```
pub fn run_waiting(
    alloc: Global,
    world: &mut World,
    schedule: &mut Schedule,
) -> Result<RunEnd, RunFault>
    ensures run { HasRun world.old world.new schedule.old schedule.new }
    ensures halted { IfOk result (λ e. IsEnd world.new e) }
    ensures going { OnErr result (HasEnded world.new.net.graph (home world.new) → ⊥) }
    ensures fault { IfErr result (λ f. EndsFor world.new f) }
{
    run_by::<Waiting>(alloc, world, schedule)
}

/// A schedule that prefers what waits keeps which events wait.
impl Keeper for Waiting {
    ghost can_begin = { λ es. Unit {0} };

    ghost is_of = { λ s w. AreMarks s w };

    ghost is_next = { λ s words e after. IsNextAmong waiting_after s words e after };

    fn begin(alloc: Global, world: &World) -> Result<Waiting, AllocError> {
        Waiting::of(alloc, world)
    }

    fn next(&self, world: &World, schedule: &mut Schedule) -> Placed {
        self.pick(world, schedule)
    }

    fn keep_up(&mut self, world: &World, placed: Placed, before: &Head, delta: &Delta) {
        self.follow(world, placed.event, before, delta);
    }
}
