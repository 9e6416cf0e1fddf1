//! Why no network is made.
ghost use Rattle.ghs_make.specs.declared.fault.MakeFault.TheVariants.{Memory};
ghost use Rattle.std.specs.Prelude.{◌≡◌};

use std::alloc::AllocError;
use thiserror::Error;

/// Why no network is made. Of several faults the first one here counts.
#[derive(Clone, Copy, Debug, Drop, PartialEq, Eq, Error)]
pub enum MakeFault {
    #[error("nodes: 1 to 1048576")]
    Nodes,
    #[error("this kind takes no number of links")]
    LinksGiven,
    #[error("this kind has weights of its own")]
    WeightsGiven,
    #[error("links: {least} to {most}")]
    Links { least: u32, most: u32 },
    #[error("more than 8388608 links")]
    TooManyLinks,
    #[error("out of memory")]
    Memory,
}

impl From<AllocError> for MakeFault {
    ghost from_gives = { λ _ e. e ≡ Memory };

    fn from(_error: AllocError) -> MakeFault {
        MakeFault::Memory
    }
}
