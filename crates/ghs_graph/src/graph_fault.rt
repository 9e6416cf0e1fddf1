//! Why a graph is refused.
use std::alloc::AllocError;
use thiserror::Error;

/// Why a graph is refused.
#[derive(Clone, Copy, Debug, PartialEq, Eq, Error)]
pub enum GraphFault {
    #[error("out of memory")]
    Memory,
}

impl From<AllocError> for GraphFault {
    fn from(_error: AllocError) -> GraphFault {
        GraphFault::Memory
    }
}
