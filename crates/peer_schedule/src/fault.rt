//! Why events can't be done again.
use thiserror::Error;

/// Why events can't be done again. Events are counted from 1.
#[derive(Clone, Copy, Debug, Drop, PartialEq, Eq, Error)]
pub enum ReplayFault {
    /// The first event that isn't lawful where it stands.
    #[error("event {0} is not lawful")]
    NotLawful(u64),
    /// Never answered: each lawful event has a rule.
    #[error("event {0} met a state that has no rule")]
    Unforeseen(u64),
    #[error("out of memory")]
    Memory,
}
