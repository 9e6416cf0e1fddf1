//! Runs that take first what was sent last.
ghost use Rattle.ghs_orders.specs.Kept.{AreLatest};
ghost use Rattle.ghs_orders.specs.LifoRuns.{HasRun, IsNext};
ghost use Rattle.ghs_patient.specs.Runs.{HasTurns, IsShort};
ghost use Rattle.ghs_protocol.specs.Marks.{HasEnded};
ghost use Rattle.ghs_sched.specs.Runs.{EndsFor, IsEnd};
ghost use Rattle.ghs_world.specs.WorldState.{home};
ghost use Rattle.std.specs.Prelude.{IfErr, IfOk, OnErr, [], ◌≡◌};

use crate::latest::Latest;
use ghs_node::delta::Delta;
use ghs_node::head::Head;
use ghs_patient::keeping::{Keeper, run_by};
use ghs_protocol::interleavings::{law_one_waits, law_patience, law_patience_lasts};
use ghs_sched::fault::RunFault;
use ghs_sched::run::RunEnd;
use ghs_world::world::World;
use peer_index::placed::Placed;
use peer_schedule::schedule::Schedule;
use std::alloc::{AllocError, Global};

/// Runs a world on from its opening until the run has ended. All that is out is recalled first. Of the messages that
/// would be consumed, and not only put back, the one at the port to which a message was sent last is taken next, and no
/// word of the schedule is used; what waits at one port is taken in its order. Where no message would be consumed the
/// next word picks a wake, or where there is none a message to be put back behind which stands one that would be
/// consumed. Each of these is a patient pick, so at most 2(B + N) events are made, B the bound on messages and N the
/// nodes, and where turns and ticket numbers for so many are left, the run ends, or memory runs out. Of the faults
/// TurnLimit comes where the commits have come to the turns or no ticket number is left, and else Memory. At every end
/// nothing is out, and the world stands after the events so far. O(log N) an event and a message; where phase, level or
/// in_branch of a node have changed, for each of its ports too.
///
/// ```text
/// let mut world = World::open(alloc, graph, WakeSet::All, 1 << 40)?;
/// let end = run_lifo(alloc, &mut world, &mut Schedule::seeded(7))?;
/// // world.ended(); the seed has picked only where no message would have been consumed
/// ```
pub fn run_lifo(
    alloc: Global,
    world: &mut World,
    schedule: &mut Schedule,
) -> Result<RunEnd, RunFault>
    requires trace { world.old.net.trace ≡ [] }
    ensures run { HasRun world.old world.new schedule.old schedule.new }
    ensures short { IsShort world.old world.new }
    ensures halted { IfOk result (λ e. IsEnd world.new e) }
    ensures going { OnErr result (HasEnded world.new.net.graph (home world.new) → ⊥) }
    ensures fault { IfErr result (λ f. EndsFor world.new f) }
    ensures ends { HasTurns world.old → result ≡ Err RunFault.TurnLimit → ⊥ }
{
    law_patience();
    law_patience_lasts();
    let _ = world.net().trace();
    run_by::<Latest>(alloc, world, schedule)
}

/// A schedule that takes first what was sent last keeps which message that is.
impl Keeper for Latest {
    ghost can_begin = { λ es. es ≡ [] };

    ghost is_of = { λ s l. AreLatest s l };

    ghost is_next = { λ s words e after. IsNext s words e after };

    fn begin(alloc: Global, world: &World) -> Result<Latest, AllocError> {
        Latest::of(alloc, world)
    }

    fn next(&self, world: &World, schedule: &mut Schedule) -> Placed {
        law_one_waits();
        law_patience_lasts();
        let _ = world.net().trace();
        self.pick(world, schedule)
    }

    fn keep_up(&mut self, world: &World, placed: Placed, before: &Head, delta: &Delta) {
        self.follow(world, placed, before, delta);
    }
}
