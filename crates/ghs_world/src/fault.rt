//! Why a world refuses.
ghost use Rattle.std.specs.Prelude.{◌≡◌};
ghost use Rattle.ghs_world.specs.declared.fault.OutFault.{OutFault};

use std::alloc::AllocError;
use thiserror::Error;

/// Why an event isn't checked out; the first that holds is answered.
#[derive(Clone, Copy, Debug, PartialEq, Eq, Error)]
pub enum OutFault {
    /// The graph has no such node, or the node no such port.
    #[error("no such node or port")]
    NoSuch,
    /// The node is out already.
    #[error("the node is out")]
    Busy,
    /// No message waits at the port; or the node doesn't sleep, or may not wake by itself.
    #[error("nothing to do there")]
    Nothing,
    /// The commits and the tickets that are out have come to the turns, or no ticket number is left.
    #[error("turn limit reached")]
    TurnLimit,
    #[error("out of memory")]
    Memory,
}

impl From<AllocError> for OutFault {
    ghost from_gives = { λ _ e. e ≡ OutFault.Memory };

    fn from(_error: AllocError) -> OutFault {
        OutFault::Memory
    }
}

/// Why a step isn't committed; the first that holds is answered.
#[derive(Clone, Copy, Debug, PartialEq, Eq, Error)]
pub enum CommitFault {
    /// No ticket of the step's number is out here.
    #[error("no such ticket is out")]
    UnknownTicket,
    /// The event, the node or the work isn't that of the ticket that is out.
    #[error("the step is not that of the ticket")]
    Altered,
    #[error("out of memory")]
    Memory,
}

/// Why a ticket isn't taken back; the first that holds is answered.
#[derive(Clone, Copy, Debug, PartialEq, Eq, Error)]
pub enum BackFault {
    /// No ticket of this number is out here.
    #[error("no such ticket is out")]
    UnknownTicket,
    /// The event, the node or the work isn't that of the ticket that is out.
    #[error("the ticket is not the one that is out")]
    Altered,
}
