//! Why a text is no stored run of a protocol.
ghost use Rattle.peer_texts.specs.declared.fault.TraceFault.TheVariants.{Memory};
ghost use Rattle.peer_trace.specs.declared.fault.StoredFault.TheVariants.{Trace};
ghost use Rattle.std.specs.Prelude.{◌≡◌};

use crate::protocol::Protocol;
use peer_texts::fault::TraceFault;
use std::alloc::AllocError;
use thiserror::Error;

/// Why a text is no stored run of the protocol that is asked for.
#[derive(Clone, Copy, Debug, Drop, PartialEq, Eq, Error)]
pub enum StoredFault {
    /// It is one of this other protocol.
    #[error("a run of {}", .0.name())]
    Other(Protocol),
    /// It is one of a user's own protocol.
    #[error("a run of a user's own protocol")]
    Own,
    /// It is no trace's text, or memory ran out.
    #[error("{0}")]
    Trace(TraceFault),
}

impl From<TraceFault> for StoredFault {
    ghost from_gives = { λ x e. e ≡ Trace x };

    fn from(fault: TraceFault) -> StoredFault {
        StoredFault::Trace(fault)
    }
}

impl From<AllocError> for StoredFault {
    ghost from_gives = { λ _ e. e ≡ Trace Memory };

    fn from(_error: AllocError) -> StoredFault {
        StoredFault::Trace(TraceFault::Memory)
    }
}
