//! What holds of the figures of every run. The law is a function that does nothing.
ghost use Rattle.ghs_sweep.specs.Measure.{FixedMeasuresAgree};

/// In any two runs of a graph that have ended, whatever the order of their events and whoever wakes, Connects, bound, level,
/// fragments and weight are the same.
pub fn law_fixed_measures()
    ensures { FixedMeasuresAgree }
{}
