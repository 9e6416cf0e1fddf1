//! Runs of any protocol that finds a tree, has words and whose messages have lengths.
ghost use Rattle.peer_lengths.specs.Lengths.{AreLengths};
ghost use Rattle.peer_sweep.specs.Figures.{AreCounts, AreFigures};
ghost use Rattle.peer_sweep.specs.Runs.{AreFiguresOf, is_bound};
ghost use Rattle.std.specs.Prelude.{◌≡◌, ◌<◌, IfOk, length, slice_index};

use crate::figures::Figures;
use crate::measure::Measure;
use crate::setup::Setup;
use crate::swept::Swept;
use ghs_graph::graph::Graph;
use ghs_report::weight::total_weight;
use peer_lengths::laws::law_bits;
use peer_lengths::lengths::Lengths;
use peer_lengths::meter::Meter;
use peer_machine::ends::FindsTree;
use peer_machine::fixed::Fixed;
use peer_machine::measured::Measured;
use peer_net::ledger::in_total;
use peer_net::net::Net;
use peer_report::branches::branches;
use peer_report::ended::net_ended;
use peer_report::run::run_followed_by_seed;
use peer_words::fixed_words::FixedWords;
use peer_words::value::Word;
use std::alloc::{AllocError, Global};
use std::marker::PhantomData;

/// A protocol swept by its rules.
pub struct ByRules<P> {
    protocol: PhantomData<P>,
}

impl<P: FindsTree + Fixed + FixedWords + Measured> Swept for ByRules<P> {
    ghost use Rattle.peer_sweep.specs.Runs.{AreFiguresOf, about_rules};

    ghost about = { about_rules P.rules P.words };

    ghost are_figures_of = { AreFiguresOf P.rules P.bound P.is_branch P.has_ended };

    fn name() -> Word<'static> {
        P::name()
    }

    fn kinds() -> usize {
        P::kinds(P::setting())
    }

    fn kind_name(kind: usize) -> Word<'static> {
        P::fixed_kind_name(kind)
    }

    fn is_fixed(measure: Measure) -> bool {
        is_bound(measure)
    }

    fn figures_of_seed(
        alloc: Global,
        graph: &Graph,
        setup: Setup,
        seed: u64,
    ) -> Result<Figures, AllocError> {
        seeded::<P>(alloc, P::setting(), graph, setup, seed)
    }

    ghost leave_room = { λ g s seed f are. are.figures.room };
}

/// Whether a measure is the bound, which alone has one value in all runs of a graph that have ended.
pub fn is_bound(measure: Measure) -> bool
    ensures { result ≡ is_bound measure }
{
    match measure {
        Measure::Bound => true,
        _ => false,
    }
}

/// The figures of the run that a seed picks, from the opening of a graph to its end or to its last turn. Refusal: out of
/// memory.
///
/// ```text
/// let lists = Bump::new(alloc);
/// let figures = seeded::<Gather>(alloc, &lists, &graph, setup, 7)?;
/// // the figures of the run that seed 7 picks, by Gather
/// ```
pub fn seeded<P: FindsTree + Measured>(
    alloc: Global,
    setting: P::Setting,
    graph: &Graph,
    setup: Setup,
    seed: u64,
) -> Result<Figures, AllocError>
    requires { P.goes_by setting }
    ensures { IfOk result (λ f. AreFiguresOf P.rules P.bound P.is_branch P.has_ended graph.now setup seed f) }
{
    let copy = graph.copy(alloc)?;
    let mut meter = Meter::<P>::none(alloc, setting, graph)?;
    let (world, _) = run_followed_by_seed::<P, Meter<P>>(
        alloc,
        setting,
        copy,
        setup.wake,
        setup.schedule_kind,
        seed,
        setup.turns,
        &mut meter,
    )?;
    figures_of(alloc, world.net(), meter.lengths()?)
}

/// The figures of a net whose run has these lengths. Refusal: out of memory.
///
/// ```text
/// let figures = figures_of(alloc, world.net(), meter.lengths()?)?;
/// // once a run of two nodes and a link of weight 5 has ended, by Borůvka in step: figures.kinds begins with 2, 1, 0, 1, 0
/// ```
pub fn figures_of<P: FindsTree + Measured>(
    alloc: Global,
    net: &Net<P>,
    lengths: Lengths,
) -> Result<Figures, AllocError>
    requires { AreLengths P.rules net.now.graph net.now.trace lengths }
    ensures { IfOk result (λ f. AreFigures P.rules P.bound P.is_branch P.has_ended net.now.graph net.now.trace f) }
{
    let tree = branches(alloc, net)?;
    let mut figures = counts_of(net, lengths);
    figures.weight = Some(total_weight(&tree));
    figures.ended = net_ended(net);
    Ok(figures)
}

/// What is counted of a net whose run has these lengths, by any protocol: the figures without levels, fragments, weight and
/// end.
///
/// ```text
/// let counts = counts_of(world.net(), meter.lengths()?);
/// // counts.weight is None, and counts.ended false, whatever the protocol
/// ```
pub fn counts_of<P: Measured>(net: &Net<P>, lengths: Lengths) -> Figures
    requires { AreLengths P.rules net.now.graph net.now.trace lengths }
    ensures { AreCounts P.rules P.bound net.now.graph net.now.trace result }
{
    law_bits::<P::Node, P::Message>();
    let graph = net.graph();
    let most = P::bound_of(net.setting(), graph);
    let ledger = net.ledger();
    let total = in_total(ledger.sent) as u64;
    Figures {
        nodes: graph.nodes(),
        links: graph.links(),
        events: net.trace().len() as u64,
        sent: total,
        kinds: first_eight(ledger.sent),
        requeued: ledger.deferred,
        queued: ledger.queued,
        bound: most,
        level: None,
        fragments: None,
        weight: None,
        ended: false,
        lengths,
    }
}

/// The first eight of some counts; 0, where there are fewer.
fn first_eight(counts: &[u64]) -> [u64; 8]
    ensures many { length result ≡ 8 }
    ensures each { (k : _) → k < 8 → k < length counts.now → slice_index result k ≡ slice_index counts.now k }
{
    let mut first = [0; 8];
    for k in 0..counts.len().min(8) {
        first[k] = counts[k];
    }
    first
}
