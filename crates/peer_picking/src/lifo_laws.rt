//! What holds of runs that take first what was sent last, under any rules. Each law is a function that does nothing; `S` is the
//! type of a node's states, `M` that of messages.
ghost use Rattle.peer_machine.specs.Rules.{Rules};
ghost use Rattle.peer_picking.specs.LifoPicks.{LatestIsOne, LifoPicksAreOne, LifoRunIsOne};

/// There is one Take at most that is the latest.
pub fn law_latest<S, M>()
    ensures { (r : Rules S M) → LatestIsOne r }
{}

/// What is picked so is one list: of two lists of events from one trace on, the longer begins with the other.
pub fn law_picks<S, M>()
    ensures { (r : Rules S M) → LifoPicksAreOne r }
{}

/// A schedule has one such run from a trace on, and whatever is picked so is the beginning of it.
pub fn law_lifo_run<S, M>()
    ensures { (r : Rules S M) → LifoRunIsOne r }
{}
