//! Why a node has no reaction.
ghost use Rattle.std.specs.Prelude.{◌≡◌};
ghost use Rattle.ghs_node.specs.declared.fault.NodeFault.{NodeFault};

use std::alloc::AllocError;
use thiserror::Error;

/// Why a node has no reaction to a piece of work; the first that holds is answered.
#[derive(Clone, Copy, Debug, PartialEq, Eq, Error)]
pub enum NodeFault {
    /// The message came in at a port that the node doesn't have.
    #[error("the node has no such port")]
    NoPort,
    /// There is no rule for this state and this work.
    #[error("a message met a state that has no rule")]
    Unforeseen,
    /// A message to be sent found no room.
    #[error("out of memory")]
    Memory,
}

impl From<AllocError> for NodeFault {
    ghost from_gives = { λ _ e. e ≡ NodeFault.Memory };

    fn from(_error: AllocError) -> NodeFault {
        NodeFault::Memory
    }
}
