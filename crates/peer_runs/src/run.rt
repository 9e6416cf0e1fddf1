//! Runs whose events a schedule picks.
ghost use Rattle.std.specs.Prelude.{◌≡◌, [], ◌<◌, length, OnErr, OnOk};
ghost use Rattle.peer_runs.specs.Runs.{HasPlayedNext, HasRun, IsAtLimit, IsWhole};
ghost use Rattle.peer_runs.specs.WorldState.{ready_events};

use crate::fault::RunFault;
use crate::follower::Follower;
use crate::world::World;
use peer_machine::protocol::Protocol;
use peer_schedule::schedule::Schedule;
use std::alloc::{AllocError, Global};

/// Runs a world on by a schedule: each word picks one of the events that are ready, and it happens, until none is ready or
/// the events, those before the call among them, have come to the turns. That is asked before memory is, so where memory is
/// refused a turn was left; the world stands after the events so far, and the word whose event was refused is picked by
/// again.
///
/// ```text
/// let mut world = World::<Echo>::open(alloc, (), graph, WakeSet::All)?;
/// run_seeded(alloc, &mut world, &mut Schedule::seeded(7), 1 << 40)?;
/// // world.net().trace() are the events of the run of seed 7, and none is ready any more
/// ```
pub fn run_seeded<P: Protocol>(
    alloc: Global,
    world: &mut World<P>,
    schedule: &mut Schedule,
    turns: u64,
) -> Result<(), RunFault>
    ensures run { HasRun P.rules turns world.old world.new schedule.old schedule.new }
    ensures whole { OnOk result (IsWhole P.rules turns world.old world.new schedule.old schedule.new) }
    ensures over { OnOk result (ready_events P.rules world.new ≡ []) }
    ensures limit { result ≡ Err RunFault.TurnLimit → IsAtLimit P.rules turns world.new }
    ensures at_limit { IsAtLimit P.rules turns world.new → result ≡ Err RunFault.TurnLimit }
{
    run_followed(alloc, world, schedule, turns, &mut ())
}

/// The same run, while a follower follows it. Memory that the follower was refused stops the run where another event would be
/// made, and else shows in what is kept; that is of the run's events so far, however the run stops.
pub fn run_followed<P: Protocol, F: Follower<P>>(
    alloc: Global,
    world: &mut World<P>,
    schedule: &mut Schedule,
    turns: u64,
    kept: &mut F,
) -> Result<(), RunFault>
    requires kept { F.is_of world.old.net.graph world.old.net.trace kept.old }
    ensures run { HasRun P.rules turns world.old world.new schedule.old schedule.new }
    ensures whole { OnOk result (IsWhole P.rules turns world.old world.new schedule.old schedule.new) }
    ensures over { OnOk result (ready_events P.rules world.new ≡ []) }
    ensures limit { result ≡ Err RunFault.TurnLimit → IsAtLimit P.rules turns world.new }
    ensures at_limit { IsAtLimit P.rules turns world.new → result ≡ Err RunFault.TurnLimit }
    ensures kept { F.is_of world.new.net.graph world.new.net.trace kept.new }
{
    'events: while world.ready_count() > 0 {
        if world.net().trace().len() as u64 >= turns {
            return Err(RunFault::TurnLimit);
        }
        play_next(alloc, world, schedule, kept)?;
    }
    Ok(())
}

/// The next word picks one of the events that are ready, and it happens. A refusal leaves the world and the word.
fn play_next<P: Protocol, F: Follower<P>>(
    alloc: Global,
    world: &mut World<P>,
    schedule: &mut Schedule,
    kept: &mut F,
) -> Result<(), AllocError>
    requires some { 0 < length (ready_events P.rules world.old) }
    requires kept { F.is_of world.old.net.graph world.old.net.trace kept.old }
    ensures ok { OnOk result (HasPlayedNext P.rules world.old world.new schedule.old schedule.new) }
    ensures err { OnErr result (world.new ≡ world.old) }
    ensures word { OnErr result (schedule.new ≡ schedule.old) }
    ensures kept { F.is_of world.new.net.graph world.new.net.trace kept.new }
{
    let mut rest = schedule.copy()?;
    let place = rest.pick(world.ready_count());
    world.play_followed(alloc, world.ready_placed_at(place), kept)?;
    *schedule = rest;
    Ok(())
}
