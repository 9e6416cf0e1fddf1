//! What holds of the figures of every run. The law is a function that does nothing.
ghost use Rattle.peer_sweep.specs.Measure.{FixedMeasuresAgree};
ghost use Rattle.peer_sweep.specs.Runs.{AreFiguresOf, about_rules};

use peer_machine::ends::FindsTree;
use peer_machine::measured::Measured;
use peer_words::fixed_words::FixedWords;

/// In any two runs of a graph the bound is the same: it is all that the lines of a protocol swept by its rules call fixed.
pub fn law_bound_is_fixed<P: FindsTree + FixedWords + Measured>()
    ensures { FixedMeasuresAgree (AreFiguresOf P.rules P.bound P.is_branch P.has_ended) (about_rules P.rules P.words) }
{}
