//! Laws of the definitions, which cost nothing to call.
ghost use Rattle.ghs_sched.specs.Picks.{PicksAreOne, SeededRunIsOne};

/// What a schedule picks is one list: of two lists of events that it picks from one trace on, one begins with the other.
pub fn law_picks()
    ensures { PicksAreOne }
{}

/// A schedule has one seeded run from a trace on, and whatever it has picked is the beginning of it.
pub fn law_seeded_run()
    ensures { SeededRunIsOne }
{}
