//! Runs by the schedule of a seed, among whichever events it picks.
ghost use Rattle.ghs_picking.specs.Picking.{AreRounds, IsPickedBy, StopsFor};
ghost use Rattle.ghs_protocol.specs.Marks.{HasEnded};
ghost use Rattle.ghs_sched.specs.Runs.{IsEnd};
ghost use Rattle.ghs_world.specs.WorldState.{home};
ghost use Rattle.std.specs.Prelude.{IfErr, IfOk, OnErr, OnOk, [], ◌≡◌};

use ghs_choices::schedule_kind::ScheduleKind;
use ghs_orders::lifo_run::run_lifo;
use ghs_orders::round_robin_run::run_round_robin;
use ghs_orders::waits_run::run_waiting;
use ghs_patient::run::run_patient;
use ghs_rounds::laws::{
    law_awake_rounds, law_picks_are_by_rounds, law_rounds_are_chains, law_rounds_are_few,
    law_rounds_are_fewer, law_runs_by_rounds_are_short, law_runs_by_rounds_end,
};
use ghs_rounds::run::run_rounds;
use ghs_sched::fault::RunFault;
use ghs_sched::run::{RunEnd, run_seeded};
use ghs_world::world::World;
use peer_schedule::schedule::Schedule;
use std::alloc::Global;

/// Runs a world from its opening on, by the schedule of a seed, until the run has ended or its turns are used. Of the
/// faults TurnLimit comes where the commits have come to the turns, and else Memory. A patient run, one by rounds, or one
/// that takes first what was sent last, that has turns for 2(B + N) events, B the bound on messages and N the nodes,
/// ends, or memory runs out; so does one by round robin that has turns for 4E(B + N) + N, E the links, and on which the seed
/// has no effect; a run that prefers what waits needn't end. At every end nothing is out, and the world stands after the
/// events so far.
///
/// ```text
/// let mut world = World::open(alloc, graph, WakeSet::All, 1 << 40)?;
/// let end = run_by_seed(alloc, &mut world, ScheduleKind::Patient, 7)?;
/// // world.trace() are the events that `ghs run --schedule patient --seed 7 --print trace` prints
/// ```
pub fn run_by_seed(
    alloc: Global,
    world: &mut World,
    schedule_kind: ScheduleKind,
    seed: u64,
) -> Result<RunEnd, RunFault>
    requires trace { world.old.net.trace ≡ [] }
    requires numbers { world.old.last ≡ 0 }
    ensures graph { world.new.net.graph ≡ world.old.net.graph }
    ensures wake { world.new.wake ≡ world.old.wake }
    ensures turns { world.new.turns ≡ world.old.turns }
    ensures outs { world.new.outs ≡ [] }
    ensures whole { OnOk result (IsPickedBy schedule_kind seed world.old.wake world.old.turns world.old.net.graph world.new.net.trace) }
    ensures limit { result ≡ Err RunFault.TurnLimit → IsPickedBy schedule_kind seed world.old.wake world.old.turns world.old.net.graph world.new.net.trace }
    ensures halted { IfOk result (λ e. IsEnd world.new e) }
    ensures going { OnErr result (HasEnded world.new.net.graph (home world.new) → ⊥) }
    ensures fault { IfErr result (λ f. StopsFor world.new f) }
{
    let (_, end) = run_timed(alloc, world, schedule_kind, seed);
    end
}

/// The same, and in how many rounds the run went, where it goes by rounds: B + N at most, and once it has ended as many as
/// its longest chain has messages, and no more than `round_bound` says.
pub fn run_timed(
    alloc: Global,
    world: &mut World,
    schedule_kind: ScheduleKind,
    seed: u64,
) -> (Option<u64>, Result<RunEnd, RunFault>)
    requires trace { world.old.net.trace ≡ [] }
    requires numbers { world.old.last ≡ 0 }
    ensures graph { world.new.net.graph ≡ world.old.net.graph }
    ensures wake { world.new.wake ≡ world.old.wake }
    ensures turns { world.new.turns ≡ world.old.turns }
    ensures outs { world.new.outs ≡ [] }
    ensures rounds { AreRounds schedule_kind seed world.old.wake world.old.turns world.old.net.graph world.new.net.trace result.0 }
    ensures whole { OnOk result.1 (IsPickedBy schedule_kind seed world.old.wake world.old.turns world.old.net.graph world.new.net.trace) }
    ensures limit { result.1 ≡ Err RunFault.TurnLimit → IsPickedBy schedule_kind seed world.old.wake world.old.turns world.old.net.graph world.new.net.trace }
    ensures halted { IfOk result.1 (λ e. IsEnd world.new e) }
    ensures going { OnErr result.1 (HasEnded world.new.net.graph (home world.new) → ⊥) }
    ensures fault { IfErr result.1 (λ f. StopsFor world.new f) }
{
    law_rounds_are_chains();
    law_rounds_are_few();
    law_picks_are_by_rounds();
    law_awake_rounds();
    law_rounds_are_fewer();
    law_runs_by_rounds_are_short();
    law_runs_by_rounds_end();
    let mut schedule = Schedule::seeded(seed);
    let _ = world.turns();
    let _ = world.net().trace();
    match schedule_kind {
        ScheduleKind::Seeded => (None, run_seeded(alloc, world, &mut schedule)),
        ScheduleKind::Patient => (None, run_patient(alloc, world, &mut schedule)),
        ScheduleKind::Rounds => {
            let (rounds, end) = run_rounds(alloc, world, &mut schedule);
            (Some(rounds), end)
        }
        ScheduleKind::Waits => (None, run_waiting(alloc, world, &mut schedule)),
        ScheduleKind::Lifo => (None, run_lifo(alloc, world, &mut schedule)),
        ScheduleKind::RoundRobin => (None, run_round_robin(alloc, world)),
    }
}
