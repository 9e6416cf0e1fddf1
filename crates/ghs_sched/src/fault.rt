//! Why a run stops.
pub use peer_schedule::fault::ReplayFault;
pub use peer_texts::fault::TraceFault;
use thiserror::Error;

/// Why a run stops before its end.
#[derive(Clone, Copy, Debug, Drop, PartialEq, Eq, Error)]
pub enum RunFault {
    /// The commits have come to the turns, or no ticket number is left.
    #[error("turn limit reached")]
    TurnLimit,
    /// Never answered: while a run goes on, an event is ready.
    #[error("no event is ready and the run has not ended")]
    Stalled,
    /// Never answered: each lawful event has a rule.
    #[error("a message met a state that has no rule")]
    Unforeseen,
    #[error("out of memory")]
    Memory,
}
