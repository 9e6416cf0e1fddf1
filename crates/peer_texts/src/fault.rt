//! Why a text gives no trace.
ghost use Rattle.peer_texts.specs.Reading.{of_line};
ghost use Rattle.peer_texts.specs.declared.fault.TraceFault.TheVariants.{Memory};
ghost use Rattle.std.specs.Prelude.{◌≡◌};

use std::alloc::AllocError;
use thiserror::Error;

/// What can be wrong with one line. Of two faults the first one here counts.
#[derive(Clone, Copy, Debug, Drop, PartialEq, Eq)]
pub enum LineFault {
    /// The line is none that its place allows.
    BadLine,
    /// A field that has to be a number isn't one, or is above its limit.
    Number,
}

/// Why a text gives no trace. Lines are numbered from 1.
#[derive(Clone, Copy, Debug, Drop, PartialEq, Eq, Error)]
pub enum TraceFault {
    #[error("line {0}: not a line of this format")]
    BadLine(u64),
    #[error("line {0}: number missing or out of range")]
    Number(u64),
    #[error("events said {said}, found {found}")]
    Count { said: u64, found: u64 },
    #[error("out of memory")]
    Memory,
}

impl TraceFault {
    /// A fault of the line of this number.
    pub fn at(fault: LineFault, line: u64) -> TraceFault
        ensures { result ≡ of_line fault line }
    {
        match fault {
            LineFault::BadLine => TraceFault::BadLine(line),
            LineFault::Number => TraceFault::Number(line),
        }
    }
}

impl From<AllocError> for TraceFault {
    ghost from_gives = { λ _ e. e ≡ Memory };

    fn from(_error: AllocError) -> TraceFault {
        TraceFault::Memory
    }
}
