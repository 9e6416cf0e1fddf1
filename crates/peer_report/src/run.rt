//! Runs by a seed's schedule.
ghost use Rattle.peer_report.specs.Runs.{HasRunBy, IsRan};
ghost use Rattle.peer_runs.specs.Runs.{IsAtLimit};
ghost use Rattle.peer_runs.specs.WorldState.{ready_events};
ghost use Rattle.std.specs.Prelude.{◌≡◌, [], IfOk, OnOk};

use crate::ended::ended;
use ghs_choices::schedule_kind::ScheduleKind;
use ghs_graph::graph::Graph;
use peer_machine::ends::Ends;
use peer_network::wake_set::WakeSet;
use peer_picking::lifo_run::run_followed as run_last_followed;
use peer_picking::rounds_run::run_followed as run_rounds_followed;
use peer_runs::fault::RunFault;
use peer_runs::follower::Follower;
use peer_runs::run::run_followed;
use peer_runs::world::World;
use peer_schedule::schedule::Schedule;
use std::alloc::{AllocError, Global};

/// How a run has come to stand.
#[derive(Clone, Copy, Debug, PartialEq, Eq)]
pub enum RunEnd {
    /// It has ended.
    Ended,
    /// Its turns are used, and it hasn't ended.
    Stopped,
}

/// Runs the network of a graph by a schedule of a seed, within the turns, and says how it has come to stand. `Lifo` takes
/// first what was sent last, and `Rounds` goes by rounds; every other kind is the seeded run, since no message is deferred.
/// Refusal: out of memory.
///
/// ```text
/// let (world, end) = run_by_seed::<Boruvka>(alloc, (), graph, WakeSet::All, ScheduleKind::Seeded, 7, 1 << 40)?;
/// // end is RunEnd::Ended: with so many turns no run is stopped
/// ```
pub fn run_by_seed<P: Ends>(
    alloc: Global,
    setting: P::Setting,
    graph: Graph,
    wake: WakeSet,
    schedule_kind: ScheduleKind,
    seed: u64,
    turns: u64,
) -> Result<(World<P>, RunEnd), AllocError>
    requires { P.goes_by setting }
    ensures { IfOk result (λ ran. IsRan P.rules P.has_ended schedule_kind seed wake turns graph ran.0 ran.1) }
{
    run_followed_by_seed(
        alloc,
        setting,
        graph,
        wake,
        schedule_kind,
        seed,
        turns,
        &mut (),
    )
}

/// The same, while a follower follows the run.
pub fn run_followed_by_seed<P: Ends, F: Follower<P>>(
    alloc: Global,
    setting: P::Setting,
    graph: Graph,
    wake: WakeSet,
    schedule_kind: ScheduleKind,
    seed: u64,
    turns: u64,
    kept: &mut F,
) -> Result<(World<P>, RunEnd), AllocError>
    requires setting { P.goes_by setting }
    requires kept { F.is_of graph [] kept.old }
    ensures run { IfOk result (λ ran. IsRan P.rules P.has_ended schedule_kind seed wake turns graph ran.0 ran.1) }
    ensures kept { IfOk result (λ ran. F.is_of ran.0.net.graph ran.0.net.trace kept.new) }
{
    let Ok(mut world) = World::<P>::open(alloc, setting, graph, wake) else {
        return Err(AllocError);
    };
    let end = run_on(
        alloc,
        &mut world,
        schedule_kind,
        &mut Schedule::seeded(seed),
        turns,
        kept,
    );
    // Read for their clauses: the trace is a run of the graph under the wake set, and has ended where nothing is ready.
    let _ = world.net().trace();
    let _ = ended(&world);
    match end {
        Ok(()) => Ok((world, RunEnd::Ended)),
        Err(RunFault::TurnLimit) => Ok((world, RunEnd::Stopped)),
        Err(RunFault::Memory) => Err(AllocError),
    }
}

/// Runs a world on from its opening by a kind of schedule.
fn run_on<P: Ends, F: Follower<P>>(
    alloc: Global,
    world: &mut World<P>,
    schedule_kind: ScheduleKind,
    schedule: &mut Schedule,
    turns: u64,
    kept: &mut F,
) -> Result<(), RunFault>
    requires trace { world.old.net.trace ≡ [] }
    requires kept { F.is_of world.old.net.graph world.old.net.trace kept.old }
    ensures run { HasRunBy schedule_kind P.rules turns world.old world.new schedule.old schedule.new }
    ensures over { OnOk result (ready_events P.rules world.new ≡ []) }
    ensures limit { result ≡ Err RunFault.TurnLimit → IsAtLimit P.rules turns world.new }
    ensures kept { F.is_of world.new.net.graph world.new.net.trace kept.new }
{
    match schedule_kind {
        ScheduleKind::Lifo => run_last_followed(alloc, world, schedule, turns, kept),
        ScheduleKind::Rounds => {
            let (_, end) = run_rounds_followed(alloc, world, schedule, turns, kept);
            end
        }
        ScheduleKind::Seeded
        | ScheduleKind::Patient
        | ScheduleKind::Waits
        | ScheduleKind::RoundRobin => run_followed(alloc, world, schedule, turns, kept),
    }
}
