//! A book: the answers to questions, read from a text and looked up.
ghost use Rattle.own_book.specs.Book.{HasEntries, HasFault, HaveFault};
ghost use Rattle.own_book.specs.Entry.{answer_in, entry, entry_for, told_in};
ghost use Rattle.own_book.specs.Line.{Line, meaning};
ghost use Rattle.own_book.specs.Reads.{HasRead};
ghost use Rattle.own_book.specs.declared.fault.BookFault.TheVariants.{Memory};
ghost use Rattle.std.specs.Prelude.{IfErr, IfNone, IfOk, IfSome, List, None, OnOk, Some, [], length, slice_get, ℕ, ◌++◌, ◌+◌, ◌<◌, ◌^◌, ◌∷◌, ◌≡◌, ◌≢◌};

use crate::fault::{BookFault, LineFault};
use crate::line::read_line;
use ghs_lines::lines::next_line;
use indexmap::IndexMap;
use std::alloc::{AllocError, Global};
use std::marker::Model;

/// How many lines a book may have.
pub const LINES: u64 = 1_048_576;

/// An answer, and the number of the line that first says it.
#[derive(Drop)]
pub struct Told {
    line: u64,
    answer: Vec<u8>,
}

/// A book: the answers to questions. Contracts see its entries, in the order of their lines.
#[derive(Drop)]
pub struct Book {
    told: IndexMap<Vec<u8>, Told>,
}

impl Model for Book {
    ghost use Rattle.own_book.specs.Entry.{Entry, entry};
    ghost use Rattle.std.specs.Prelude.{List, map};

    ghost Value = { List Entry };

    ghost view = { λ b. map (λ e. entry e.0.items e.1.line e.1.answer.items) b.told.entries };
}

impl Book {
    /// No answer.
    fn new(alloc: Global) -> Book
        ensures { result ≡ [] }
    {
        Book {
            told: IndexMap::new(alloc),
        }
    }

    /// What the book answers to a question; none where it says nothing. The time doesn't grow with the book.
    ///
    /// ```text
    /// let book = read_book(alloc, b"open 1 5:1-2 = asleep=yes\n")?;
    /// let answer = book.answer(b"open 1 5:1-2");      // Some(b"asleep=yes")
    /// let none = book.answer(b"open 2 5:1-2");        // None
    /// ```
    pub fn answer(&self, question: &[u8]) -> Option<&[u8]>
        ensures some { IfSome result (λ answer. answer_in self.now question.now ≡ Some answer.now) }
        ensures none { IfNone result (answer_in self.now question.now ≡ None) }
    {
        let (_, answer) = self.told(question)?;
        Some(answer)
    }

    /// The same, with the number of the line that says it first.
    pub fn told(&self, question: &[u8]) -> Option<(u64, &[u8])>
        ensures some { IfSome result (λ x. told_in self.now question.now ≡ Some (x.0, x.1.now)) }
        ensures none { IfNone result (entry_for self.now question.now ≡ None) }
    {
        match self.told.get(question) {
            Some(told) => Some((told.line, told.answer.as_slice())),
            None => None,
        }
    }

    /// How many entries the book has.
    pub fn len(&self) -> usize
        ensures { result ≡ length self.now }
    {
        self.told.len()
    }

    /// The question and the answer of an entry, by its place in the order of their lines, counted from 0.
    pub fn entry(&self, index: usize) -> Option<(&[u8], &[u8])>
        ensures some { IfSome result (λ x. (number : ℕ) × (slice_get self.now index ≡ Some (entry x.0.now number x.1.now))) }
        ensures none { IfNone result (slice_get self.now index ≡ None) }
    {
        match self.told.get_index(index) {
            Some((question, told)) => Some((question.as_slice(), told.answer.as_slice())),
            None => None,
        }
    }

    /// Puts one more entry behind the others.
    fn add(
        &mut self,
        alloc: Global,
        question: &[u8],
        line: u64,
        answer: &[u8],
    ) -> Result<(), AllocError>
        requires { entry_for self.old question.now ≡ None }
        ensures { OnOk result (self.new ≡ self.old ++ entry question.now line answer.now ∷ []) }
    {
        let question = Vec::from_slice(alloc, question)?;
        let answer = Vec::from_slice(alloc, answer)?;
        match self.told.insert(question, Told { line, answer }) {
            Ok(_) => Ok(()),
            Err(_) => Err(AllocError {}),
        }
    }
}

/// What lines without a fault have said.
#[derive(Drop)]
pub struct Reading {
    /// The book so far.
    pub(crate) book: Book,
    /// How many lines there are.
    pub(crate) lines: u64,
}

impl Reading {
    /// Takes one more line.
    fn take(&mut self, alloc: Global, line: &[u8]) -> Result<(), BookFault>
        requires room { self.old.lines + 1 < 2 ^ 64 }
        ensures read { IfOk result (λ _. (lines : List Line) → HasRead lines self.old → HasRead (lines ++ meaning line.now ∷ []) self.new) }
        ensures fault { IfErr result (λ fault. fault ≢ Memory → (lines more : List Line) → HasRead lines self.old → HaveFault (lines ++ meaning line.now ∷ more) fault) }
        ensures lines { self.new.lines ≡ self.old.lines + 1 }
    {
        let before = self.lines;
        self.lines += 1;
        if before >= LINES {
            return Err(BookFault::at(LineFault::TooMany, self.lines));
        }
        let (question, answer) = match read_line(line) {
            Ok(parts) => parts,
            Err(fault) => return Err(BookFault::at(fault, self.lines)),
        };
        match self.book.told(question) {
            Some((first, told)) => {
                if told != answer {
                    return Err(BookFault::at(LineFault::Wavers(first), self.lines));
                }
                Ok(())
            }
            None => {
                self.book.add(alloc, question, self.lines, answer)?;
                Ok(())
            }
        }
    }
}

/// The book that a text is: lines `QUESTION = ANSWER`, each as `read_line` has it. A question may stand in several lines, with
/// the same answer. Refusals, of the first faulty line: TooMany, TooLong, BadLine, Number, Wavers, the first that holds; or
/// out of memory.
pub fn read_book(alloc: Global, text: &[u8]) -> Result<Book, BookFault>
    ensures entries { IfOk result (λ book. HasEntries text.now book) }
    ensures fault { IfErr result (λ fault. fault ≢ Memory → HasFault text.now fault) }
{
    let mut reading = Reading {
        book: Book::new(alloc),
        lines: 0,
    };
    let mut rest = text;
    'lines: while let Some((line, after)) = next_line(rest) {
        reading.take(alloc, line)?;
        rest = after;
    }
    let Reading { book, .. } = reading;
    Ok(book)
}
