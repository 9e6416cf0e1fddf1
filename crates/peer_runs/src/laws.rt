//! What holds of seeded runs under any rules. Each law is a function that does nothing; `S` is the type of a node's states,
//! `M` that of messages.
ghost use Rattle.peer_machine.specs.Rules.{Rules};
ghost use Rattle.peer_runs.specs.Picks.{PicksAreOne, SeededRunIsOne};

/// What a schedule picks is one list: of two lists of events that it picks from one trace on, one begins with the other.
pub fn law_picks<S, M>()
    ensures { (r : Rules S M) → PicksAreOne r }
{}

/// A schedule has one seeded run from a trace on, and whatever it has picked is the beginning of it.
pub fn law_seeded_run<S, M>()
    ensures { (r : Rules S M) → SeededRunIsOne r }
{}
