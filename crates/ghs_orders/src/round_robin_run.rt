//! Runs by round robin, which end.
ghost use Rattle.ghs_protocol.specs.Marks.{HasEnded};
ghost use Rattle.ghs_orders.specs.RoundRobinRuns.{HasFewLaps, HasRun, HasTurns, IsShort};
ghost use Rattle.ghs_orders.specs.Worlds.{IsNext};
ghost use Rattle.ghs_sched.specs.Runs.{EndsFor, IsEnd};
ghost use Rattle.ghs_world.specs.WorldState.{home};
ghost use Rattle.std.specs.Prelude.{IfErr, IfOk, OnErr, [], ◌≡◌};

use crate::turns::next_in_turn;
use ghs_core::event::Event;
use ghs_node::delta::Delta;
use ghs_node::head::Head;
use ghs_patient::keeping::{Keeper, run_by};
use ghs_protocol::interleavings::law_patience_lasts;
use ghs_sched::fault::RunFault;
use ghs_sched::run::RunEnd;
use ghs_world::world::World;
use peer_index::placed::Placed;
use peer_schedule::schedule::Schedule;
use std::alloc::{AllocError, Global};

/// Runs a world from its opening on by round robin until the run has ended. All that is out is recalled first. In each lap
/// the places of all events are gone over in their order, by node, Wake before ports, ports rising, and what may happen when
/// its place comes happens: so a port is taken from once in a lap, if it holds a message then, and nodes wake in the first
/// lap. There are at most 2(B + N) laps, B the bound on messages and N the nodes, so at most 4E(B + N) + N events, E the
/// links; and where turns and ticket numbers for so many are left, the run ends, or memory runs out. Of the faults TurnLimit
/// comes where the commits have come to the turns or no ticket number is left, and else Memory. At every end nothing is out,
/// and the world stands after the events so far. O(log N) an event and a message.
///
/// ```text
/// let mut world = World::open(alloc, graph, WakeSet::All, 1 << 40)?;
/// let end = run_round_robin(alloc, &mut world)?;
/// // world.ended(); for no graph of up to 1,000 nodes and 10,000 links an Err is TurnLimit
/// ```
pub fn run_round_robin(alloc: Global, world: &mut World) -> Result<RunEnd, RunFault>
    requires trace { world.old.net.trace ≡ [] }
    ensures run { HasRun world.old world.new }
    ensures laps { HasFewLaps world.new }
    ensures short { IsShort world.new }
    ensures halted { IfOk result (λ e. IsEnd world.new e) }
    ensures going { OnErr result (HasEnded world.new.net.graph (home world.new) → ⊥) }
    ensures fault { IfErr result (λ f. EndsFor world.new f) }
    ensures ends { HasTurns world.old → result ≡ Err RunFault.TurnLimit → ⊥ }
{
    law_patience_lasts();
    let _ = world.net().trace();
    run_by::<InTurn>(alloc, world, &mut Schedule::seeded(0))
}

/// A schedule by round robin keeps nothing, and uses no word: the trace says to which place its lap has come.
#[derive(Debug, Drop)]
struct InTurn;

impl Keeper for InTurn {
    ghost can_begin = { λ es. Unit {0} };

    ghost is_of = { λ s k. Unit {0} };

    ghost is_next = { λ s words e after. IsNext s e };

    fn begin(alloc: Global, world: &World) -> Result<InTurn, AllocError> {
        Ok(InTurn)
    }

    fn next(&self, world: &World, schedule: &mut Schedule) -> Placed {
        match next_in_turn(world) {
            Some(event) => world.placed(event),
            // Until the run has ended something may happen.
            None => world.placed(Event::Wake(1)),
        }
    }

    fn keep_up(&mut self, world: &World, placed: Placed, before: &Head, delta: &Delta) {}
}
