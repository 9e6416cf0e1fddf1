//! Runs that take first what was sent last.
ghost use Rattle.std.specs.Prelude.{◌≡◌, [], ◌<◌, length, IfOk, OnErr, OnOk};
ghost use Rattle.peer_picking.specs.LifoKept.{AreLatest};
ghost use Rattle.peer_picking.specs.LifoRuns.{HasPlayedNext, HasRun, IsWhole};
ghost use Rattle.peer_runs.specs.Runs.{IsAtLimit};
ghost use Rattle.peer_runs.specs.WorldState.{ready_events};

use crate::latest::Latest;
use peer_machine::ends::Ends;
use peer_machine::protocol::Protocol;
use peer_runs::fault::RunFault;
use peer_runs::follower::Follower;
use peer_runs::world::World;
use peer_schedule::schedule::Schedule;
use std::alloc::{AllocError, Global};

/// Runs a world on from its opening: where messages wait, the first one at the port to which a message was sent last is
/// taken, with no word of the schedule; where none waits, the next word picks one of the wakes that are ready. So until no
/// event is ready or the events have come to the turns. That is asked before memory is, so where memory is refused a turn
/// was left; the world stands after the events so far, and the event that was refused comes next again.
///
/// ```text
/// let mut world = World::<Echo>::open(alloc, (), graph, WakeSet::All)?;
/// run_lifo(alloc, &mut world, &mut Schedule::seeded(7), 1 << 40)?;
/// // world.net().trace() are the events of seed 7's run that takes first what was sent last
/// ```
pub fn run_lifo<P: Ends>(
    alloc: Global,
    world: &mut World<P>,
    schedule: &mut Schedule,
    turns: u64,
) -> Result<(), RunFault>
    requires trace { world.old.net.trace ≡ [] }
    ensures run { HasRun P.rules turns world.old world.new schedule.old schedule.new }
    ensures whole { OnOk result (IsWhole P.rules turns world.old world.new schedule.old schedule.new) }
    ensures over { OnOk result (ready_events P.rules world.new ≡ []) }
    ensures limit { result ≡ Err RunFault.TurnLimit → IsAtLimit P.rules turns world.new }
    ensures at_limit { IsAtLimit P.rules turns world.new → result ≡ Err RunFault.TurnLimit }
{
    run_followed(alloc, world, schedule, turns, &mut ())
}

/// The same run, while a follower follows it: what that keeps is of the run's events so far, however the run stops.
pub fn run_followed<P: Ends, F: Follower<P>>(
    alloc: Global,
    world: &mut World<P>,
    schedule: &mut Schedule,
    turns: u64,
    kept: &mut F,
) -> Result<(), RunFault>
    requires trace { world.old.net.trace ≡ [] }
    requires kept { F.is_of world.old.net.graph world.old.net.trace kept.old }
    ensures run { HasRun P.rules turns world.old world.new schedule.old schedule.new }
    ensures whole { OnOk result (IsWhole P.rules turns world.old world.new schedule.old schedule.new) }
    ensures over { OnOk result (ready_events P.rules world.new ≡ []) }
    ensures limit { result ≡ Err RunFault.TurnLimit → IsAtLimit P.rules turns world.new }
    ensures at_limit { IsAtLimit P.rules turns world.new → result ≡ Err RunFault.TurnLimit }
    ensures kept { F.is_of world.new.net.graph world.new.net.trace kept.new }
{
    if turns == 0 && world.ready_count() > 0 {
        return Err(RunFault::TurnLimit);
    }
    let mut latest = Latest::of(alloc, world)?;
    'events: while world.ready_count() > 0 {
        if world.net().trace().len() as u64 >= turns {
            return Err(RunFault::TurnLimit);
        }
        play_next(alloc, world, &mut latest, schedule, kept)?;
    }
    Ok(())
}

/// The next event happens, and what is kept keeps up with it. A refusal leaves all as it was.
fn play_next<P: Protocol, F: Follower<P>>(
    alloc: Global,
    world: &mut World<P>,
    latest: &mut Latest,
    schedule: &mut Schedule,
    kept: &mut F,
) -> Result<(), AllocError>
    requires some { 0 < length (ready_events P.rules world.old) }
    requires latest { AreLatest P.rules world.old.net latest.old }
    requires kept { F.is_of world.old.net.graph world.old.net.trace kept.old }
    ensures ok { OnOk result (HasPlayedNext P.rules world.old world.new schedule.old schedule.new) }
    ensures err { OnErr result (world.new ≡ world.old) }
    ensures word { OnErr result (schedule.new ≡ schedule.old) }
    ensures latest { AreLatest P.rules world.new.net latest.new }
    ensures kept { F.is_of world.new.net.graph world.new.net.trace kept.new }
{
    let mut rest = schedule.copy()?;
    let placed = latest.pick(world, &mut rest);
    let sends = world.play_followed(alloc, placed, kept)?;
    latest.follow(world, placed, &sends);
    *schedule = rest;
    Ok(())
}
