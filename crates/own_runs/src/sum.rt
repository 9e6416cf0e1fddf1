//! The sum by which the first entries of a book are known again.
ghost use Rattle.own_book.specs.Entry.{Entry};
ghost use Rattle.own_runs.specs.Sum.{sum_text};
ghost use Rattle.own_book.specs.Text.{entry_text, line_text};
ghost use Rattle.sha2.specs.Hashers.{Holds256};
ghost use Rattle.std.specs.Prelude.{List, Some, [], length, slice_get, take, ℕ, ◌++◌, ◌∷◌, ◌≡◌, ◌≤◌};

use own_book::book::Book;
use sha2::{Digest, Sha256};

/// The SHA-256 of the text of a book's first entries, as `write_book` writes them: 64 digits in hexadecimal, in lower case.
///
/// ```text
/// let sum = sum_of(&book, 1);
/// // of a book that begins with `own 1 = own 1 echo explore() back()` b"3c77..", as `head -n 1 echo.book | sha256sum` prints
/// ```
pub fn sum_of(book: &Book, entries: usize) -> [u8; 64]
    requires { entries ≤ length book.now }
    ensures { result ≡ sum_text (take entries book.now) }
{
    let mut hasher = Sha256::new();
    for index in 0..entries {
        add_entry(&mut hasher, book, index);
    }
    let mut digits = [0; 64];
    match hex::encode_to_slice(hasher.finalize(), &mut digits) {
        Ok(()) => digits,
        Err(_) => unreachable!(),
    }
}

/// Adds the line of the entry at this place.
fn add_entry(hasher: &mut Sha256, book: &Book, index: usize)
    ensures { (m : List ℕ) (e : Entry) → slice_get book.now index ≡ Some e → Holds256 hasher.old m → Holds256 hasher.new (m ++ entry_text e) }
{
    if let Some((question, answer)) = book.entry(index) {
        add_line(hasher, question, answer);
    }
}

/// Adds the line of a question with its answer.
fn add_line(hasher: &mut Sha256, question: &[u8], answer: &[u8])
    ensures { (m : List ℕ) → Holds256 hasher.old m → Holds256 hasher.new (m ++ line_text question.now answer.now ++ 10 ∷ []) }
{
    hasher.update(question);
    hasher.update(b" = ");
    hasher.update(answer);
    hasher.update(b"\n");
}
