//! The texts of a book, each with its number.
ghost use Rattle.own_book.specs.Answer.{IsReadable, are_kinds, are_sends, are_types, said_by, sends_in};
ghost use Rattle.own_book.specs.Entry.{Entry};
ghost use Rattle.own_book.specs.Question.{asked};
ghost use Rattle.own_rules.specs.Rules.{numbered};
ghost use Rattle.own_rules.specs.Texts.{messages_of, names_of, noted, number_in, said_to, text_at, texts_in, texts_of, texts_said, types_of};
ghost use Rattle.std.specs.Prelude.{IfOk, OnOk, Some, [], fold, length, position, slice_get, true, ◌≡◌};
ghost use Rattle.std.specs.Str.{bytes_eq};

use crate::node::Message;
use indexmap::IndexSet;
use own_book::answer::{Answer, next_sent, read_answer};
use own_book::book::Book;
use own_book::kind::next_kind;
use own_book::question::asked_of;
use std::alloc::{AllocError, Global};
use std::marker::Model;

/// Texts, none twice. Contracts see their list; a text's number is its place.
#[derive(Drop)]
pub struct Texts {
    set: IndexSet<Vec<u8>>,
}

impl Model for Texts {
    ghost use Rattle.std.specs.Prelude.{ℕ, List, map};

    ghost Value = { List (List ℕ) };

    ghost view = { λ t. map (λ v. v.items) t.set.keys };
}

impl Texts {
    /// No text.
    pub fn new(alloc: Global) -> Texts
        ensures { result ≡ [] }
    {
        Texts {
            set: IndexSet::new(alloc),
        }
    }

    /// How many texts there are.
    pub(crate) fn len(&self) -> usize
        ensures { result ≡ length self.now }
    {
        self.set.len()
    }

    /// The number of a text that is there.
    pub(crate) fn place(&self, text: &[u8]) -> Option<usize>
        ensures { result ≡ position (bytes_eq text.now) self.now }
    {
        self.set.get_index_of(text)
    }

    /// The number of a text; where it isn't there, the one behind all others.
    pub(crate) fn number(&self, text: &[u8]) -> usize
        ensures { result ≡ number_in self.now text.now }
    {
        match self.place(text) {
            Some(number) => number,
            None => self.len(),
        }
    }

    /// The text with a number; where there is none, one without bytes.
    pub(crate) fn text(&self, number: usize) -> &[u8]
        ensures { result.now ≡ text_at self.now number }
    {
        match self.set.get_index(number) {
            Some(text) => text.as_slice(),
            None => b"",
        }
    }

    /// What is sent, by numbers. Refusal: out of memory.
    pub(crate) fn numbered(
        &self,
        alloc: Global,
        sends: &[u8],
    ) -> Result<Vec<(u32, Message)>, AllocError>
        requires { are_sends sends.now ≡ true }
        ensures { IfOk result (λ list. list.items ≡ numbered self.now (sends_in sends.now)) }
    {
        let mut list = Vec::new(alloc);
        let mut rest = sends;
        'sends: while let Some((sent, after)) = next_sent(rest) {
            let text = self.number(sent.message);
            list.push((sent.port, Message { text }))?;
            rest = after;
        }
        Ok(list)
    }

    /// Puts a text behind the others, where it isn't there.
    pub(crate) fn note(&mut self, alloc: Global, text: &[u8]) -> Result<(), AllocError>
        ensures { OnOk result (self.new ≡ noted self.old text.now) }
    {
        if self.set.contains(text) {
            return Ok(());
        }
        let text = Vec::from_slice(alloc, text)?;
        self.set.insert(text)?;
        Ok(())
    }

    /// Notes the messages that are sent.
    fn note_messages(&mut self, alloc: Global, sends: &[u8]) -> Result<(), AllocError>
        requires { are_sends sends.now ≡ true }
        ensures { OnOk result (self.new ≡ fold noted self.old (messages_of (sends_in sends.now))) }
    {
        let mut rest = sends;
        'sends: while let Some((sent, after)) = next_sent(rest) {
            self.note(alloc, sent.message)?;
            rest = after;
        }
        Ok(())
    }

    /// Notes what an answer says.
    fn note_answer(&mut self, alloc: Global, answer: Answer) -> Result<(), AllocError>
        requires { IsReadable answer }
        ensures { OnOk result (self.new ≡ fold noted self.old (texts_said (Some (said_by answer.entry)))) }
    {
        match answer {
            Answer::State(state) => self.note(alloc, state),
            Answer::Reaction {
                state,
                waits: _,
                sends,
            } => {
                self.note(alloc, state)?;
                self.note_messages(alloc, sends)
            }
            Answer::Greeting { name: _, kinds: _ } => Ok(()),
            Answer::GivesUp(_) => Ok(()),
        }
    }

    /// Notes what the answer to a question says.
    fn note_exchange(
        &mut self,
        alloc: Global,
        question: &[u8],
        answer: &[u8],
    ) -> Result<(), AllocError>
        ensures { OnOk result (self.new ≡ fold noted self.old (texts_said (said_to (asked question.now) answer.now))) }
    {
        let Ok(asked) = asked_of(question) else {
            return Ok(());
        };
        match read_answer(asked, answer) {
            Some(answer) => self.note_answer(alloc, answer),
            None => Ok(()),
        }
    }

    /// Notes what the entry at this place says.
    fn note_entry(&mut self, alloc: Global, book: &Book, index: usize) -> Result<(), AllocError>
        ensures { OnOk result ((e : Entry) → slice_get book.now index ≡ Some e → self.new ≡ fold noted self.old (texts_in e)) }
    {
        match book.entry(index) {
            Some((question, answer)) => self.note_exchange(alloc, question, answer),
            None => Ok(()),
        }
    }
}

/// The names of kinds, each once.
pub(crate) fn names_of(alloc: Global, kinds: &[u8]) -> Result<Texts, AllocError>
    requires { are_kinds kinds.now ≡ true }
    ensures { IfOk result (λ names. names ≡ names_of kinds.now) }
{
    let mut names = Texts::new(alloc);
    let mut rest = kinds;
    'kinds: while let Some((kind, after)) = next_kind(rest) {
        names.note(alloc, kind.name)?;
        rest = after;
    }
    Ok(names)
}

/// The types of the first of these kinds that has this name; none where there is no such kind.
pub(crate) fn types_of<'k>(kinds: &'k [u8], name: &[u8]) -> &'k [u8]
    requires { are_kinds kinds.now ≡ true }
    ensures types { result.now ≡ types_of kinds.now name.now }
    ensures readable { are_types result.now ≡ true }
{
    let mut rest = kinds;
    'kinds: while let Some((kind, after)) = next_kind(rest) {
        if kind.name == name {
            return kind.types;
        }
        rest = after;
    }
    b""
}

/// The texts of a book.
pub(crate) fn texts_of(alloc: Global, book: &Book) -> Result<Texts, AllocError>
    ensures { IfOk result (λ texts. texts ≡ texts_of book.now) }
{
    let mut texts = Texts::new(alloc);
    for index in 0..book.len() {
        texts.note_entry(alloc, book, index)?;
    }
    Ok(texts)
}
