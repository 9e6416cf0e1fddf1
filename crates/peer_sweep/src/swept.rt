//! Protocols that can be swept.
use crate::figures::Figures;
use crate::measure::Measure;
use crate::setup::Setup;
use ghs_graph::graph::Graph;
use peer_words::value::Word;
use std::alloc::{AllocError, Global};

/// A protocol by which a seed's run is made and measured.
///
/// ```text
/// impl Swept for Ghs { .. }      // its runs by each schedule, with levels and fragments
/// ByRules::<Boruvka>::figures_of_seed(alloc, &graph, setup, 7)?;
/// // the figures of the run that seed 7 picks, by Borůvka in step
/// ```
pub trait Swept {
    ghost use Rattle.std.specs.Prelude.{◌≡◌, ℕ, ◌<◌, IfOk};
    ghost use Rattle.ghs_graph.specs.Graph.{Shape};
    ghost use Rattle.peer_sweep.specs.declared.figures.Figures.{Figures};
    ghost use Rattle.peer_sweep.specs.declared.setup.Setup.{Setup};
    ghost use Rattle.peer_sweep.specs.About.{About};
    ghost use Rattle.peer_sweep.specs.Figures.{LeavesRoom};
    ghost use Rattle.peer_sweep.specs.Sweep.{HasTurns};

    /// What its lines tell of the protocol.
    ghost about: { About };

    /// These are the figures of the run of a graph, by a setup and a seed.
    ghost are_figures_of: { Shape → Setup → ℕ → Figures → Type 0 };

    /// Its name.
    fn name() -> Word<'static>
        ensures { result ≡ about.name };

    /// How many kinds of messages it has.
    fn kinds() -> usize
        ensures { result ≡ about.kinds };

    /// The name of a kind of messages, by its number, from 0 on.
    fn kind_name(kind: usize) -> Word<'static>
        requires { kind < about.kinds }
        ensures { result ≡ about.kind kind };

    /// Whether a measure has one value in all runs of a graph that have ended.
    fn is_fixed(measure: Measure) -> bool
        ensures { result ≡ about.is_fixed measure };

    /// The figures of the run that a seed picks, from the opening of a graph to its end or to its last turn. Refusal: out of
    /// memory.
    fn figures_of_seed(
        alloc: Global,
        graph: &Graph,
        setup: Setup,
        seed: u64,
    ) -> Result<Figures, AllocError>
        requires { HasTurns setup }
        ensures { IfOk result (λ f. are_figures_of graph.now setup seed f) };

    /// They leave room for the sums of many.
    ghost leave_room: { (g : Shape) (setup : Setup) (seed : ℕ) (f : Figures) → are_figures_of g setup seed f → LeavesRoom f };
}
