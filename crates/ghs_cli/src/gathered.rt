//! Gather, swept.
use bumpalo::Bump;
use gather::protocol::Gather;
use gather_node::message::KINDS;
use ghs_graph::graph::Graph;
use peer_sweep::figures::Figures;
use peer_sweep::measure::Measure;
use peer_sweep::rules::{is_bound, seeded};
use peer_sweep::setup::Setup;
use peer_sweep::swept::Swept;
use peer_words::fixed_words::FixedWords;
use peer_words::spoken::Spoken;
use peer_words::value::Word;
use std::alloc::{AllocError, Global};

/// Gather swept by its rules. The lists of a run lie in an arena, which is given up with the run.
pub(crate) struct Gathered {}

impl Swept for Gathered {
    ghost use Rattle.gather.specs.Words.{words};
    ghost use Rattle.gather_node.specs.Gather.{gather};
    ghost use Rattle.gather_protocol.specs.Bound.{bound_of};
    ghost use Rattle.gather_protocol.specs.Laws.{HasEnded, marks_branch};
    ghost use Rattle.peer_sweep.specs.Runs.{AreFiguresOf, about_rules};

    ghost about = { about_rules gather words };

    ghost are_figures_of = { AreFiguresOf gather bound_of marks_branch HasEnded };

    fn name() -> Word<'static> {
        Gather::name()
    }

    fn kinds() -> usize {
        KINDS
    }

    fn kind_name(kind: usize) -> Word<'static> {
        Gather::fixed_kind_name(kind)
    }

    fn is_fixed(measure: Measure) -> bool {
        is_bound(measure)
    }

    fn figures_of_seed(
        alloc: Global,
        graph: &Graph,
        setup: Setup,
        seed: u64,
    ) -> Result<Figures, AllocError> {
        let lists = Bump::new(alloc);
        seeded::<Gather>(alloc, &lists, graph, setup, seed)
    }

    ghost leave_room = { λ g s seed f are. are.figures.room };
}
