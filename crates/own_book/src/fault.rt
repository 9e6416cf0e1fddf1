//! Why a text is no book.
ghost use Rattle.own_book.specs.Book.{of_line};
ghost use Rattle.own_book.specs.declared.fault.BookFault.TheVariants.{Memory};
ghost use Rattle.std.specs.Prelude.{◌≡◌};

use std::alloc::AllocError;
use thiserror::Error;

/// What can be wrong with one line. Of two faults the first one here counts, but that BadLine and Number come in the order of
/// the line's fields.
#[derive(Clone, Copy, Debug, Drop, PartialEq, Eq)]
pub enum LineFault {
    /// There are as many lines before it as a book may have.
    TooMany,
    /// It has more bytes than a line may have.
    TooLong,
    /// It is no question with an answer.
    BadLine,
    /// The number of a node or a port is missing or out of range.
    Number,
    /// The line of this number, before it, has another answer to the same question.
    Wavers(u64),
}

/// Why a text is no book. Lines are numbered from 1.
#[derive(Clone, Copy, Debug, Drop, PartialEq, Eq, Error)]
pub enum BookFault {
    #[error("more than 1048576 lines")]
    TooMany,
    #[error("line {0}: more than 1048576 bytes")]
    TooLong(u64),
    #[error("line {0}: not a question with an answer")]
    BadLine(u64),
    #[error("line {0}: number missing or out of range")]
    Number(u64),
    #[error("line {line}: another answer than in line {first}")]
    Wavers { first: u64, line: u64 },
    #[error("out of memory")]
    Memory,
}

impl BookFault {
    /// A fault of the line of this number.
    pub fn at(fault: LineFault, line: u64) -> BookFault
        ensures { result ≡ of_line fault line }
    {
        match fault {
            LineFault::TooMany => BookFault::TooMany,
            LineFault::TooLong => BookFault::TooLong(line),
            LineFault::BadLine => BookFault::BadLine(line),
            LineFault::Number => BookFault::Number(line),
            LineFault::Wavers(first) => BookFault::Wavers { first, line },
        }
    }
}

impl From<AllocError> for BookFault {
    ghost from_gives = { λ _ e. e ≡ Memory };

    fn from(_error: AllocError) -> BookFault {
        BookFault::Memory
    }
}
