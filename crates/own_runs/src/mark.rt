//! The mark of a book, and whether a book fits a stored run's.
ghost use Rattle.own_runs.specs.Mark.{Fits, Misfits, mark_of as mark_of_book};
ghost use Rattle.std.specs.Prelude.{IfOk, MatchResult, ◌≡◌};

use crate::sum::sum_of;
use own_book::book::Book;
use own_rules::looks::name_of;
use peer_trace::mark::OwnMark;
use std::alloc::{AllocError, Global};
use thiserror::Error;

/// Why a book isn't that of a stored run.
#[derive(Clone, Copy, Debug, Drop, PartialEq, Eq, Error)]
pub enum Misfit {
    /// It has fewer entries than that book had.
    #[error("the book has fewer entries than that of the run")]
    Shorter,
    /// It has other entries.
    #[error("the run is one of another book")]
    Another,
}

/// The mark under which a run by this book is stored: the name that its greeting gives the protocol, or `-`; how many entries it
/// has; and the sum of their text. Refusal: out of memory.
///
/// ```text
/// let mark = mark_of(alloc, &book)?;
/// let fitting = fits(&book, &mark);           // Ok(())
/// let other = fits(&front, &mark);            // Err(Misfit::Shorter), where `front` has fewer entries
/// ```
pub fn mark_of(alloc: Global, book: &Book) -> Result<OwnMark, AllocError>
    ensures { IfOk result (λ mark. mark ≡ mark_of_book book.now) }
{
    let name = Vec::from_slice(alloc, name_of(book))?;
    let sum = Vec::from_slice(alloc, &sum_of(book, book.len()))?;
    Ok(OwnMark::new(name, book.len() as u64, sum))
}

/// Whether a book fits the mark of a stored run: it has as many entries at least, and the first of them have that sum. Entries that
/// were added behind them change nothing. Refusals, in this order: Shorter, Another.
pub fn fits(book: &Book, mark: &OwnMark) -> Result<(), Misfit>
    ensures { MatchResult result (λ _. Fits book.now mark.now) (Misfits book.now mark.now) }
{
    if mark.entries() > book.len() as u64 {
        return Err(Misfit::Shorter);
    }
    if sum_of(book, mark.entries() as usize).as_slice() != mark.sum() {
        return Err(Misfit::Another);
    }
    Ok(())
}
