//! Runs by the schedule of a seed, with their lengths.
ghost use Rattle.ghs_following.specs.Chains.{longest_chain};
ghost use Rattle.ghs_core.specs.NetState.{network};
ghost use Rattle.ghs_picking.specs.Lengths.{lengths_of};
ghost use Rattle.ghs_picking.specs.Picking.{IsByRounds, IsPickedBy};
ghost use Rattle.ghs_world.specs.WorldState.{WorldState};
ghost use Rattle.std.specs.Prelude.{IfOk, OnOk, [], ◌≡◌};

use crate::followed::run_followed;
use crate::lengths::{RunLengths, begin, lengths_in, lengths_of};
use crate::picking::run_timed;
use ghs_bits::run::bits_of;
use ghs_choices::schedule_kind::ScheduleKind;
use ghs_sched::fault::RunFault;
use ghs_world::world::World;
use std::alloc::{AllocError, Global};

/// Runs a world from its opening on as `run_by_seed` does, until the run has ended or its turns are used, and says how long
/// it is: how many messages its longest chain has, and how many bits its messages. Refusal: out of memory. At every end
/// nothing is out, and the world stands after the events so far.
///
/// ```text
/// let lengths = run_measured(alloc, &mut world, ScheduleKind::Seeded, 7)?;
/// // lengths.chain messages, each because of the one before; lengths.bits in all, in one message lengths.longest at most
/// ```
pub fn run_measured(
    alloc: Global,
    world: &mut World,
    schedule_kind: ScheduleKind,
    seed: u64,
) -> Result<RunLengths, AllocError>
    requires trace { world.old.net.trace ≡ [] }
    requires numbers { world.old.last ≡ 0 }
    ensures graph { world.new.net.graph ≡ world.old.net.graph }
    ensures wake { world.new.wake ≡ world.old.wake }
    ensures turns { world.new.turns ≡ world.old.turns }
    ensures outs { world.new.outs ≡ [] }
    ensures run { OnOk result (IsPickedBy schedule_kind seed world.old.wake world.old.turns world.old.net.graph world.new.net.trace) }
    ensures lengths { IfOk result (λ l. l ≡ lengths_of world.new.net.graph world.new.net.trace) }
{
    match schedule_kind {
        ScheduleKind::Rounds => by_rounds(alloc, world, seed),
        _ => followed(alloc, world, schedule_kind, seed),
    }
}

/// The run of whatever schedule, followed by its chains and its bits.
fn followed(
    alloc: Global,
    world: &mut World,
    schedule_kind: ScheduleKind,
    seed: u64,
) -> Result<RunLengths, AllocError>
    requires trace { world.old.net.trace ≡ [] }
    requires numbers { world.old.last ≡ 0 }
    ensures graph { world.new.net.graph ≡ world.old.net.graph }
    ensures wake { world.new.wake ≡ world.old.wake }
    ensures turns { world.new.turns ≡ world.old.turns }
    ensures outs { world.new.outs ≡ [] }
    ensures run { OnOk result (IsPickedBy schedule_kind seed world.old.wake world.old.turns world.old.net.graph world.new.net.trace) }
    ensures lengths { IfOk result (λ l. l ≡ lengths_of world.new.net.graph world.new.net.trace) }
{
    world.recall_all();
    let mut kept = begin(alloc, world.graph())?;
    match run_followed(alloc, world, schedule_kind, seed, &mut kept) {
        Ok(_) => Ok(lengths_in(&kept)),
        Err(RunFault::TurnLimit) => Ok(lengths_in(&kept)),
        Err(_) => Err(AllocError),
    }
}

/// The run by rounds. Once it has ended, its longest chain has as many messages as there were rounds, so that its events
/// are played once more for the bits alone.
fn by_rounds(alloc: Global, world: &mut World, seed: u64) -> Result<RunLengths, AllocError>
    requires trace { world.old.net.trace ≡ [] }
    requires numbers { world.old.last ≡ 0 }
    ensures graph { world.new.net.graph ≡ world.old.net.graph }
    ensures wake { world.new.wake ≡ world.old.wake }
    ensures turns { world.new.turns ≡ world.old.turns }
    ensures outs { world.new.outs ≡ [] }
    ensures run { OnOk result (IsByRounds seed world.old.wake world.old.turns world.old.net.graph world.new.net.trace) }
    ensures lengths { IfOk result (λ l. l ≡ lengths_of world.new.net.graph world.new.net.trace) }
{
    let (rounds, end) = run_timed(alloc, world, ScheduleKind::Rounds, seed);
    match end {
        Ok(_) => {
            if let Some(rounds) = rounds {
                return with_chain(alloc, world, rounds);
            }
        }
        Err(RunFault::TurnLimit) => {}
        Err(_) => return Err(AllocError),
    }
    let _ = world.turns();
    let net = world.net();
    lengths_of(alloc, net.graph(), net.trace())
}

/// The lengths of a world's run whose longest chain is known.
fn with_chain(alloc: Global, world: &World, chain: u64) -> Result<RunLengths, AllocError>
    requires chain { chain ≡ longest_chain (network world.now.net) world.now.net.trace }
    ensures { IfOk result (λ l. l ≡ lengths_of world.now.net.graph world.now.net.trace) }
{
    let _ = world.turns();
    let net = world.net();
    let bits = bits_of(alloc, net.graph(), net.trace())?;
    Ok(RunLengths {
        chain,
        bits: bits.sent,
        longest: bits.longest,
    })
}
