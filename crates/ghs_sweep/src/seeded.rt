//! The figures of a seed's run by GHS.
ghost use Rattle.ghs_sweep.specs.Measure.{is_connect, is_fixed, kind_word};
ghost use Rattle.ghs_sweep.specs.Sweep.{AreFiguresOf};
ghost use Rattle.peer_sweep.specs.Sweep.{HasTurns};
ghost use Rattle.std.specs.Prelude.{IfOk, [], ◌≡◌};

use crate::figures::figures_with;
use ghs_graph::graph::Graph;
use ghs_picking::measured::run_measured;
use ghs_world::world::World;
use peer_sweep::figures::Figures;
use peer_sweep::measure::Measure;
use peer_sweep::setup::Setup;
use peer_sweep::swept::Swept;
use peer_words::value::Word;
use std::alloc::{AllocError, Global};

/// GHS, as it is swept.
pub struct Ghs {}

impl Swept for Ghs {
    ghost use Rattle.ghs_sweep.specs.Measure.{about_ghs};
    ghost use Rattle.ghs_sweep.specs.Sweep.{AreFiguresOf};

    ghost about = { about_ghs };

    ghost are_figures_of = { AreFiguresOf };

    fn name() -> Word<'static> {
        Word::of(b"ghs")
    }

    fn kinds() -> usize {
        7
    }

    fn kind_name(kind: usize) -> Word<'static> {
        kind_word(kind)
    }

    fn is_fixed(measure: Measure) -> bool {
        is_fixed(measure)
    }

    fn figures_of_seed(
        alloc: Global,
        graph: &Graph,
        setup: Setup,
        seed: u64,
    ) -> Result<Figures, AllocError> {
        figures_of_seed(alloc, graph, setup, seed)
    }

    ghost leave_room = { λ g s seed f are. are.figures.room };
}

/// The name of a kind of messages.
fn kind_word(kind: usize) -> Word<'static>
    ensures { result ≡ kind_word kind }
{
    match kind {
        0 => Word::of(b"connect"),
        1 => Word::of(b"initiate"),
        2 => Word::of(b"test"),
        3 => Word::of(b"accept"),
        4 => Word::of(b"reject"),
        5 => Word::of(b"report"),
        _ => Word::of(b"changeroot"),
    }
}

/// Whether a measure is the graph's, and the same in each run that has ended, by `law_fixed_measures`.
fn is_fixed(measure: Measure) -> bool
    ensures { result ≡ is_fixed measure }
{
    match measure {
        Measure::Kind(kind) => is_connect(kind),
        Measure::Bound | Measure::Level | Measure::Fragments | Measure::Weight => true,
        Measure::Events
        | Measure::Sent
        | Measure::Requeued
        | Measure::Queued
        | Measure::Halted
        | Measure::Chain
        | Measure::Bits
        | Measure::Longest => false,
    }
}

/// Whether a kind is that of Connect.
fn is_connect(kind: Option<usize>) -> bool
    ensures { result ≡ is_connect kind }
{
    match kind {
        Some(kind) => kind == 0,
        None => false,
    }
}

/// The figures of the run that a seed picks, from the opening of a graph to its end or to its last turn. Refusal: out of
/// memory.
///
/// ```text
/// let setup = Setup { schedule_kind: ScheduleKind::Seeded, wake: WakeSet::All, turns: 1 << 40 };
/// let figures = figures_of_seed(alloc, &graph, setup, 7)?;
/// // the run of seed 7 is played once: its lengths are kept from event to event
/// ```
pub fn figures_of_seed(
    alloc: Global,
    graph: &Graph,
    setup: Setup,
    seed: u64,
) -> Result<Figures, AllocError>
    requires { HasTurns setup }
    ensures { IfOk result (λ f. AreFiguresOf graph.now setup seed f) }
{
    match World::open(alloc, graph.copy(alloc)?, setup.wake, setup.turns) {
        Ok(mut world) => figures_in(alloc, &mut world, setup, seed),
        Err((_, error)) => Err(error),
    }
}

/// The same, of a world that stands at its opening.
fn figures_in(
    alloc: Global,
    world: &mut World,
    setup: Setup,
    seed: u64,
) -> Result<Figures, AllocError>
    requires trace { world.old.net.trace ≡ [] }
    requires numbers { world.old.last ≡ 0 }
    requires wake { world.old.wake ≡ setup.wake }
    requires turns { world.old.turns ≡ setup.turns }
    ensures { IfOk result (λ f. AreFiguresOf world.old.net.graph setup seed f) }
{
    let lengths = run_measured(alloc, world, setup.schedule_kind, seed)?;
    figures_with(alloc, world.net(), lengths)
}
