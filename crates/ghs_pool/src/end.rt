//! Why a run of workers stops before its end.
use thiserror::Error;

/// Why a run of workers hasn't ended, or what stands in the way.
#[derive(Clone, Copy, Debug, Drop, PartialEq, Eq, Error)]
pub enum PoolFault {
    /// The commits have come to the turns, or no ticket number is left.
    #[error("turn limit reached")]
    TurnLimit,
    /// Never answered: while a run goes on, an event is ready.
    #[error("no event is ready and the run has not ended")]
    Stalled,
    /// Never answered: each lawful event has a rule.
    #[error("a message met a state that has no rule")]
    Unforeseen,
    #[error("out of memory")]
    Memory,
    /// The workers stopped, and none of the faults before was met.
    #[error("the world is not the one that was given")]
    Strange,
    /// A thread couldn't be started.
    #[error("a thread could not be started")]
    NoThread,
}
