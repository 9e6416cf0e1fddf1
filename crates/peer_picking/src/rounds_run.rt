//! Runs by rounds.
ghost use Rattle.std.specs.Prelude.{◌≡◌, [], ◌<◌, length, OnErr, OnOk};
ghost use Rattle.peer_picking.specs.Kept.{AreRounds};
ghost use Rattle.peer_picking.specs.Runs.{HasPlayedNext, HasRun, IsWhole, round_events};
ghost use Rattle.peer_runs.specs.Runs.{IsAtLimit};
ghost use Rattle.peer_runs.specs.WorldState.{ready_events};

use crate::rounds::Rounds;
use peer_machine::ends::Ends;
use peer_runs::fault::RunFault;
use peer_runs::follower::Follower;
use peer_runs::world::World;
use peer_schedule::schedule::Schedule;
use std::alloc::{AllocError, Global};

/// Runs a world on from its opening by rounds, and says in how many. In round 0 the nodes wake that may wake by themselves; a
/// message that ends a chain of n messages is taken in round n. Each word of the schedule picks one of the events of the round;
/// where there is none, and an event may happen yet, the next round begins. So until no event is ready or the events have come
/// to the turns. That is asked before memory is, so where memory is refused a turn was left; the world stands after the events
/// so far, and the event that was refused comes next again.
///
/// ```text
/// let mut world = World::<Echo>::open(alloc, (), graph, WakeSet::First)?;
/// let (rounds, end) = run_rounds(alloc, &mut world, &mut Schedule::seeded(7), 1 << 40);
/// // on the path 1-2-3 end is Ok and rounds is 4: two messages out, and two back
/// ```
pub fn run_rounds<P: Ends>(
    alloc: Global,
    world: &mut World<P>,
    schedule: &mut Schedule,
    turns: u64,
) -> (u64, Result<(), RunFault>)
    requires trace { world.old.net.trace ≡ [] }
    ensures run { HasRun P.rules turns world.old world.new schedule.old schedule.new result.0 }
    ensures whole { OnOk result.1 (IsWhole P.rules turns world.old world.new schedule.old schedule.new result.0) }
    ensures over { OnOk result.1 (ready_events P.rules world.new ≡ []) }
    ensures limit { result.1 ≡ Err RunFault.TurnLimit → IsAtLimit P.rules turns world.new }
    ensures at_limit { IsAtLimit P.rules turns world.new → result.1 ≡ Err RunFault.TurnLimit }
{
    run_followed(alloc, world, schedule, turns, &mut ())
}

/// The same run, while a follower follows it: what that keeps is of the run's events so far, however the run stops.
pub fn run_followed<P: Ends, F: Follower<P>>(
    alloc: Global,
    world: &mut World<P>,
    schedule: &mut Schedule,
    turns: u64,
    kept: &mut F,
) -> (u64, Result<(), RunFault>)
    requires trace { world.old.net.trace ≡ [] }
    requires kept { F.is_of world.old.net.graph world.old.net.trace kept.old }
    ensures run { HasRun P.rules turns world.old world.new schedule.old schedule.new result.0 }
    ensures whole { OnOk result.1 (IsWhole P.rules turns world.old world.new schedule.old schedule.new result.0) }
    ensures over { OnOk result.1 (ready_events P.rules world.new ≡ []) }
    ensures limit { result.1 ≡ Err RunFault.TurnLimit → IsAtLimit P.rules turns world.new }
    ensures at_limit { IsAtLimit P.rules turns world.new → result.1 ≡ Err RunFault.TurnLimit }
    ensures kept { F.is_of world.new.net.graph world.new.net.trace kept.new }
{
    if turns == 0 && world.ready_count() > 0 {
        return (0, Err(RunFault::TurnLimit));
    }
    match Rounds::of(alloc, world) {
        Ok(mut rounds) => run_on(alloc, world, &mut rounds, schedule, turns, kept),
        Err(_) => (0, Err(RunFault::Memory)),
    }
}

/// The same, where the first round is kept.
fn run_on<P: Ends, F: Follower<P>>(
    alloc: Global,
    world: &mut World<P>,
    rounds: &mut Rounds,
    schedule: &mut Schedule,
    turns: u64,
    kept: &mut F,
) -> (u64, Result<(), RunFault>)
    requires trace { world.old.net.trace ≡ [] }
    requires rounds { AreRounds P.rules world.old rounds.old }
    requires first { rounds.old.round ≡ 0 }
    requires kept { F.is_of world.old.net.graph world.old.net.trace kept.old }
    ensures run { HasRun P.rules turns world.old world.new schedule.old schedule.new result.0 }
    ensures whole { OnOk result.1 (IsWhole P.rules turns world.old world.new schedule.old schedule.new result.0) }
    ensures over { OnOk result.1 (ready_events P.rules world.new ≡ []) }
    ensures limit { result.1 ≡ Err RunFault.TurnLimit → IsAtLimit P.rules turns world.new }
    ensures memory { result.1 ≡ Err RunFault.Memory → IsAtLimit P.rules turns world.new → ⊥ }
    ensures kept { F.is_of world.new.net.graph world.new.net.trace kept.new }
{
    'events: while world.ready_count() > 0 {
        if world.net().trace().len() as u64 >= turns {
            return (rounds.count(), Err(RunFault::TurnLimit));
        }
        rounds.settle(world);
        let count = rounds.count();
        match play_next(alloc, world, rounds, schedule, kept) {
            Ok(()) => {}
            Err(_) => return (count, Err(RunFault::Memory)),
        }
    }
    (rounds.count(), Ok(()))
}

/// The next word picks an event of the round, and it happens. A refusal leaves all as it was.
fn play_next<P: Ends, F: Follower<P>>(
    alloc: Global,
    world: &mut World<P>,
    rounds: &mut Rounds,
    schedule: &mut Schedule,
    kept: &mut F,
) -> Result<(), AllocError>
    requires some { 0 < length (round_events P.rules world.old rounds.old.round) }
    requires rounds { AreRounds P.rules world.old rounds.old }
    requires kept { F.is_of world.old.net.graph world.old.net.trace kept.old }
    ensures ok { OnOk result (HasPlayedNext P.rules world.old world.new rounds.old.round schedule.old schedule.new) }
    ensures err { OnErr result (world.new ≡ world.old) }
    ensures word { OnErr result (schedule.new ≡ schedule.old) }
    ensures rounds { AreRounds P.rules world.new rounds.new }
    ensures round { rounds.new.round ≡ rounds.old.round }
    ensures kept { F.is_of world.new.net.graph world.new.net.trace kept.new }
{
    let mut rest = schedule.copy()?;
    let placed = rounds.pick(world, &mut rest);
    let sends = world.play_followed(alloc, placed, kept)?;
    rounds.follow(world, placed, &sends);
    *schedule = rest;
    Ok(())
}
