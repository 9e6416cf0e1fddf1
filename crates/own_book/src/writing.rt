//! The text of a book, written.
ghost use Rattle.own_book.specs.Entry.{Entry};
ghost use Rattle.own_book.specs.Text.{book_text, entry_text, line_text};
ghost use Rattle.std.specs.Prelude.{IfOk, Some, [], slice_get, ◌++◌, ◌∷◌, ◌≡◌};

use crate::book::Book;
use std::alloc::{AllocError, Global};

/// Appends the line of a question with its answer. Whether it is one that `read_line` reads isn't asked here.
///
/// ```text
/// put_line(&mut text, b"open 1 5:1-2", b"asleep=yes")?;       // appends b"open 1 5:1-2 = asleep=yes\n"
/// ```
pub fn put_line(text: &mut Vec<u8>, question: &[u8], answer: &[u8]) -> Result<(), AllocError>
    ensures { IfOk result (λ _. text.new.items ≡ text.old.items ++ line_text question.now answer.now ++ 10 ∷ []) }
{
    text.extend_from_slice(question)?;
    text.extend_from_slice(b" = ")?;
    text.extend_from_slice(answer)?;
    text.extend_from_slice(b"\n")
}

/// The text of a book: a line for each entry, in the order of the lines that it was read from.
pub fn write_book(alloc: Global, book: &Book) -> Result<Vec<u8>, AllocError>
    ensures { IfOk result (λ text. text.items ≡ book_text book.now) }
{
    let mut text = Vec::new(alloc);
    for index in 0..book.len() {
        put_entry(&mut text, book, index)?;
    }
    Ok(text)
}

/// Appends the line of the entry at this place.
fn put_entry(text: &mut Vec<u8>, book: &Book, index: usize) -> Result<(), AllocError>
    ensures { IfOk result (λ _. (e : Entry) → slice_get book.now index ≡ Some e → text.new.items ≡ text.old.items ++ entry_text e) }
{
    match book.entry(index) {
        Some((question, answer)) => put_line(text, question, answer),
        None => Ok(()),
    }
}
