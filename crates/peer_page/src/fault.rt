//! Why a run has no page.
ghost use Rattle.std.specs.Prelude.{◌≡◌};
ghost use Rattle.peer_page.specs.declared.fault.PageFault.TheVariants.{Memory};

use std::alloc::AllocError;

/// Why a run has no page.
#[derive(Clone, Copy, Debug, Drop, PartialEq, Eq)]
pub enum PageFault {
    /// The network has more than `PAGE_NODES` nodes, or more than `PAGE_EVENTS` events are to be shown.
    TooLarge,
    /// Memory ran out.
    Memory,
}

impl From<AllocError> for PageFault {
    ghost from_gives = { λ _ e. e ≡ Memory };

    fn from(_error: AllocError) -> PageFault {
        PageFault::Memory
    }
}

/// Why a stored run has no page. Events are counted from 1.
#[derive(Clone, Copy, Debug, Drop, PartialEq, Eq)]
pub enum StoredFault {
    /// The first event that isn't lawful where it stands.
    NotLawful(u64),
    /// The network has too many nodes, or too many events are to be shown.
    TooLarge,
    /// Memory ran out.
    Memory,
}
