//! Runs that go on by rounds, and so end.
ghost use Rattle.ghs_following.specs.Chains.{longest_chain};
ghost use Rattle.ghs_core.specs.NetState.{network};
ghost use Rattle.ghs_protocol.specs.Marks.{HasEnded};
ghost use Rattle.ghs_rounds.specs.Choices.{AreRounds};
ghost use Rattle.ghs_rounds.specs.Laws.{AreFewRounds};
ghost use Rattle.ghs_rounds.specs.Runs.{HasRun};
ghost use Rattle.ghs_sched.specs.Runs.{EndsFor, IsEnd};
ghost use Rattle.ghs_world.specs.WorldState.{home, wakers};
ghost use Rattle.std.specs.Prelude.{IfErr, IfOk, OnErr, [], ◌≡◌, ◌≤◌};

use crate::laws::{
    law_awake_rounds, law_picks_are_by_rounds, law_rounds_are_fewer, law_simple_rounds,
};
use crate::rounds::Rounds;
use ghs_sched::fault::RunFault;
use ghs_sched::run::{RunEnd, end_of};
use ghs_world::world::World;
use peer_schedule::schedule::Schedule;
use std::alloc::Global;

/// Runs a world from its opening on by rounds until the run has ended, and says in how many. All that is out is recalled
/// first. In round 0 all nodes wake that may wake by themselves. A message that ends a chain of r messages arrives in round
/// r. In a round each word of the schedule picks one of the messages that have arrived and wouldn't only be put back; where
/// there is none it picks one to be put back behind which stands such a message; and where there is none of these either the
/// next round begins. No chain is longer than there were rounds. A run that has ended has no more rounds than the bounds of
/// `laws` (`few`): for those where all wake a caller knows the ports of each node by `Graph::ports`. Of the faults TurnLimit
/// comes where the commits have come to the turns or no ticket number is left, and else Memory. At every end nothing is out,
/// and the world stands after the events so far. O(1) an event and a message; where phase, level or in_branch of a node have
/// changed, O(1) for each of its ports.
///
/// ```text
/// let mut world = World::open(alloc, graph, WakeSet::First, 1 << 40)?;
/// let (rounds, end) = run_rounds(alloc, &mut world, &mut Schedule::seeded(1));
/// // on the path 1-2-3 of weights 5 and 7 end is Ok and rounds is 7: so many messages has the longest chain
/// ```
pub fn run_rounds(
    alloc: Global,
    world: &mut World,
    schedule: &mut Schedule,
) -> (u64, Result<RunEnd, RunFault>)
    requires trace { world.old.net.trace ≡ [] }
    ensures run { HasRun world.old world.new schedule.old schedule.new result.0 }
    ensures few { IfOk result.1 (λ e. AreFewRounds (wakers world.old) world.old.net.graph result.0) }
    ensures chain { longest_chain (network world.new.net) world.new.net.trace ≤ result.0 }
    ensures halted { IfOk result.1 (λ e. IsEnd world.new e) }
    ensures going { OnErr result.1 (HasEnded world.new.net.graph (home world.new) → ⊥) }
    ensures fault { IfErr result.1 (λ f. EndsFor world.new f) }
{
    law_picks_are_by_rounds();
    law_rounds_are_fewer();
    law_awake_rounds();
    law_simple_rounds();
    let _ = world.net().trace();
    world.recall_all();
    if world.ended() {
        return (0, Ok(end_of(world)));
    }
    match Rounds::of(alloc, world) {
        Ok(mut rounds) => run_on(alloc, world, schedule, &mut rounds),
        Err(_) => (0, Err(RunFault::Memory)),
    }
}

/// The same, where the run goes on, nothing is out, and the first round is kept.
fn run_on(
    alloc: Global,
    world: &mut World,
    schedule: &mut Schedule,
    rounds: &mut Rounds,
) -> (u64, Result<RunEnd, RunFault>)
    requires trace { world.old.net.trace ≡ [] }
    requires outs { world.old.outs ≡ [] }
    requires rounds { AreRounds world.old rounds.old }
    requires first { rounds.old.clock.round ≡ 0 }
    ensures run { HasRun world.old world.new schedule.old schedule.new result.0 }
    ensures chain { longest_chain (network world.new.net) world.new.net.trace ≤ result.0 }
    ensures halted { IfOk result.1 (λ e. IsEnd world.new e) }
    ensures going { OnErr result.1 (HasEnded world.new.net.graph (home world.new) → ⊥) }
    ensures fault { IfErr result.1 (λ f. EndsFor world.new f) }
{
    'events: while !world.ended() {
        let _ = world.turns();
        if !world.has_turn() {
            return (rounds.count(), Err(RunFault::TurnLimit));
        }
        rounds.settle(world);
        let count = rounds.count();
        match rounds.make_next(alloc, world, schedule) {
            Ok(()) => {}
            Err(_) => return (count, Err(RunFault::Memory)),
        }
    }
    (rounds.count(), Ok(end_of(world)))
}
