//! Why texts lead to no world, and why a run stops before its end.
ghost use Rattle.peer_hand.specs.Faults.{of_graph, of_replay, of_stored, of_trace};
ghost use Rattle.peer_hand.specs.declared.fault.HandFault.TheVariants.{Memory};
ghost use Rattle.std.specs.Prelude.{◌≡◌};

use ghs_gr::fault::GrFault;
use peer_schedule::fault::ReplayFault;
use peer_texts::fault::TraceFault;
use peer_trace::fault::StoredFault;
use peer_trace::protocol::Protocol;
use std::alloc::AllocError;

/// Why there is no answer. Events are counted from 1.
#[derive(Clone, Copy, Debug, Drop, PartialEq, Eq)]
pub enum HandFault {
    /// The one text is no graph's.
    Graph(GrFault),
    /// The other is no trace's.
    Trace(TraceFault),
    /// It is a run of this other protocol.
    Other(Protocol),
    /// It is a run of a user's own protocol.
    Own,
    /// The first event that isn't lawful where it stands.
    NotLawful(u64),
    /// A run that goes on has used all its turns.
    TurnLimit,
    /// Memory ran out.
    Memory,
}

impl From<GrFault> for HandFault {
    ghost from_gives = { λ x e. e ≡ of_graph x };

    fn from(fault: GrFault) -> HandFault {
        match fault {
            GrFault::Memory => HandFault::Memory,
            fault => HandFault::Graph(fault),
        }
    }
}

impl From<TraceFault> for HandFault {
    ghost from_gives = { λ x e. e ≡ of_trace x };

    fn from(fault: TraceFault) -> HandFault {
        match fault {
            TraceFault::Memory => HandFault::Memory,
            fault => HandFault::Trace(fault),
        }
    }
}

impl From<StoredFault> for HandFault {
    ghost from_gives = { λ x e. e ≡ of_stored x };

    fn from(fault: StoredFault) -> HandFault {
        match fault {
            StoredFault::Other(protocol) => HandFault::Other(protocol),
            StoredFault::Own => HandFault::Own,
            StoredFault::Trace(fault) => fault.into(),
        }
    }
}

impl From<ReplayFault> for HandFault {
    ghost from_gives = { λ x e. e ≡ of_replay x };

    fn from(fault: ReplayFault) -> HandFault {
        match fault {
            ReplayFault::NotLawful(event) => HandFault::NotLawful(event),
            ReplayFault::Unforeseen(_) => HandFault::Memory,
            ReplayFault::Memory => HandFault::Memory,
        }
    }
}

impl From<AllocError> for HandFault {
    ghost from_gives = { λ _ e. e ≡ Memory };

    fn from(_error: AllocError) -> HandFault {
        HandFault::Memory
    }
}
