//! Why the steps of a stored run aren't written.
use thiserror::Error;

/// Why the steps of a stored run aren't written, or not to their end. Events are counted from 1.
#[derive(Clone, Copy, Debug, Drop, PartialEq, Eq, Error)]
pub enum StepsFault {
    /// The first event that isn't lawful where it stands.
    #[error("trace event {0} is not lawful")]
    NotLawful(u64),
    #[error("out of memory")]
    Memory,
    #[error("output failed after {written} bytes")]
    Write { written: u128 },
}
