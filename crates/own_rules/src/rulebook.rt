//! A book, ready to run.
ghost use Rattle.own_book.specs.Sends.{kind_in};
ghost use Rattle.own_book.specs.Answer.{are_kinds, are_sends, saying, sends_in};
ghost use Rattle.own_book.specs.Entry.{told_in};
ghost use Rattle.own_book.specs.Parts.{cut_at};
ghost use Rattle.own_book.specs.declared.question.Asked.TheVariants.{Opening};
ghost use Rattle.own_rules.specs.Deed.{deed_of};
ghost use Rattle.own_rules.specs.Done.{AreSends, done_by};
ghost use Rattle.own_book.specs.Asking.{open_text};
ghost use Rattle.own_rules.specs.Looks.{kind_look as look_of_kind, title_of as title_of_book};
ghost use Rattle.own_rules.specs.Questions.{answer_at};
ghost use Rattle.own_rules.specs.Ready.{Does};
ghost use Rattle.own_rules.specs.Rules.{numbered, opened, opened_by, stopped as stopped_at};
ghost use Rattle.own_rules.specs.Texts.{kind_among, kinds_many, kinds_of, names_of as kinds_named, number_in, text_at, texts_of as texts_of_book};
ghost use Rattle.own_rules.specs.Words.{kind_name as kind_called};
ghost use Rattle.std.specs.Prelude.{IfNone, IfOk, IfSome, None, Some, codes, true, ◌≡◌};

use crate::deed::{Done, done_by_answer};
use crate::looks::{Looks, looks_of, title_of};
use crate::node::{Allowance, Lookup, Message, Reason, State, Stop};
use crate::places::{Places, asked_for, places_of};
use crate::ready::{Ready, ready_of};
use crate::texts::{Texts, names_of, texts_of};
use ghs_graph::port::Port;
use own_book::answer::{Answer, next_sent, read_answer};
use own_book::answer_fault::AnswerFault;
use own_book::asking::put_open;
use own_book::book::Book;
use own_book::parts::cut;
use own_book::question::Asked;
use own_book::variables::says_asleep;
use peer_words::value::Word;
use std::alloc::{AllocError, Global};
use std::marker::Model;

/// A book with its texts numbered and its answers found by numbers. Contracts see the entries of the book.
#[derive(Drop)]
pub struct Rulebook {
    book: Book,
    /// The kinds of messages that the greeting names.
    kinds: Vec<u8>,
    /// Their names.
    names: Texts,
    texts: Texts,
    places: Places,
    /// What each answer does, where it is ready.
    ready: Vec<Option<Ready>>,
    /// The title of its pages, and what these are told of each kind.
    title: Vec<u8>,
    looks: Looks,
}

impl Model for Rulebook {
    ghost use Rattle.own_book.specs.Entry.{Entry};
    ghost use Rattle.own_rules.specs.Places.{IsIndexed};
    ghost use Rattle.std.specs.Prelude.{List};

    ghost Value = { List Entry };

    ghost view = { λ r. r.book };

    ghost invariant = { λ r. IsIndexed r.book r.kinds.items r.names r.texts r.places r.title.items r.looks r.ready.items };
}

impl Rulebook {
    /// A book made ready, in a time that grows with its text. Refusal: out of memory.
    ///
    /// ```text
    /// let rules = Rulebook::of(alloc, read_book(alloc, text)?)?;
    /// // contracts see the entries of the book that was read
    /// ```
    pub fn of(alloc: Global, book: Book) -> Result<Rulebook, AllocError>
        ensures { IfOk result (λ rules. rules ≡ book) }
    {
        let texts = texts_of(alloc, &book)?;
        let places = places_of(alloc, &book, &texts)?;
        let kinds = greeted_kinds(alloc, &book)?;
        let names = names_of(alloc, &kinds)?;
        let ready = ready_of(alloc, &kinds, &texts, &book)?;
        let title = title_of(alloc, &book)?;
        let looks = looks_of(alloc, &kinds, &names)?;
        Ok(Rulebook {
            book,
            kinds,
            names,
            texts,
            places,
            ready,
            title,
            looks,
        })
    }

    /// The text with a number.
    pub fn text(&self, number: usize) -> &[u8]
        ensures { result.now ≡ text_at (texts_of_book self.now) number }
    {
        self.texts.text(number)
    }

    /// What the book says to a question, with the number of its line.
    pub(crate) fn told(&self, question: &[u8]) -> Option<(u64, &[u8])>
        ensures some { IfSome result (λ told. told_in self.now question.now ≡ Some (told.0, told.1.now)) }
        ensures none { IfNone result (told_in self.now question.now ≡ None) }
    {
        self.book.told(question)
    }

    /// What the book answers to a question.
    pub(crate) fn answer(&self, lookup: Lookup) -> Option<&[u8]>
        ensures some { IfSome result (λ answer. answer_at (texts_of_book self.now) self.now lookup ≡ Some answer.now) }
        ensures none { IfNone result (answer_at (texts_of_book self.now) self.now lookup ≡ None) }
    {
        let place = self.places.place(lookup)?;
        let (_, answer) = self.book.entry(place)?;
        Some(answer)
    }

    /// What a node of so many ports with this allowance does by the book.
    pub(crate) fn done(&self, ports: u32, left: Allowance, lookup: Lookup) -> Done<'_>
        ensures done { done_by result ≡ deed_of self.now ports left lookup }
        ensures sends { AreSends result }
    {
        match self.answer(lookup) {
            None => Done::Stops(Reason::Unanswered),
            Some(answer) => done_by_answer(
                &self.kinds,
                ports,
                left,
                read_answer(asked_for(lookup), answer),
            ),
        }
    }

    /// What a node of so many ports with this allowance does by the book, where that is ready.
    pub(crate) fn ready(&self, ports: u32, left: Allowance, lookup: Lookup) -> Option<&Ready>
        ensures { IfSome result (λ it. Does (texts_of_book self.now) it.now left (deed_of self.now ports left lookup)) }
    {
        let place = self.places.place(lookup)?;
        let it = self.ready.get(place)?.as_ref()?;
        if it.ports <= ports && it.price(left) <= u64::from(left.messages) {
            Some(it)
        } else {
            None
        }
    }

    /// The number of the text of a state.
    pub(crate) fn number(&self, text: &[u8]) -> usize
        ensures { result ≡ number_in (texts_of_book self.now) text.now }
    {
        self.texts.number(text)
    }

    /// What is sent, by numbers. Refusal: out of memory.
    pub(crate) fn numbered(
        &self,
        alloc: Global,
        sends: &[u8],
    ) -> Result<Vec<(u32, Message)>, AllocError>
        requires { are_sends sends.now ≡ true }
        ensures { IfOk result (λ list. list.items ≡ numbered (texts_of_book self.now) (sends_in sends.now)) }
    {
        self.texts.numbered(alloc, sends)
    }

    /// How far a node comes by its opening, with the allowance `most`. Refusal: out of memory.
    pub(crate) fn opened(
        &self,
        alloc: Global,
        v: u32,
        ports: &[Port],
        most: Allowance,
    ) -> Result<State, AllocError>
        ensures { IfOk result (λ state. state ≡ opened self.now most (told_in self.now (open_text v ports.now))) }
    {
        let mut question = Vec::new(alloc);
        put_open(&mut question, v, ports)?;
        match self.book.told(&question) {
            None => Ok(stopped(Reason::Unanswered)),
            Some((_, answer)) => Ok(self.opened_by(most, answer)),
        }
    }

    /// The same by this answer.
    fn opened_by(&self, most: Allowance, answer: &[u8]) -> State
        ensures { result ≡ opened_by self.now most (saying Opening answer.now) }
    {
        match read_answer(Asked::Opening, answer) {
            Some(Answer::State(state)) => State::Runs {
                text: self.number(state),
                asleep: says_asleep(state),
                left: most,
            },
            Some(Answer::GivesUp(_)) => stopped(Reason::Fails(AnswerFault::GivesUp)),
            _ => stopped(Reason::Fails(AnswerFault::Garbled)),
        }
    }

    /// The kinds of messages that the greeting names.
    pub(crate) fn greeted(&self) -> &[u8]
        ensures kinds { result.now ≡ kinds_of self.now }
        ensures readable { are_kinds result.now ≡ true }
    {
        self.kinds.as_slice()
    }

    /// How many kinds of messages there are.
    pub fn kinds(&self) -> usize
        ensures { result ≡ kinds_many (kinds_of self.now) }
    {
        let count = self.names.len();
        if count == 0 { 1 } else { count }
    }

    /// The names of the kinds that the greeting names, each once, in their order. Refusal: out of memory.
    pub fn kind_names(&self, alloc: Global) -> Result<Vec<Word<'_>>, AllocError>
        ensures { IfOk result (λ names. names.items ≡ kinds_named (kinds_of self.now)) }
    {
        let mut names = Vec::new(alloc);
        for kind in 0..self.names.len() {
            names.push(Word::of(self.names.text(kind)))?;
        }
        Ok(names)
    }

    /// The kind of a message.
    pub(crate) fn kind(&self, message: &Message) -> usize
        ensures { result ≡ kind_among (kinds_of self.now) (text_at (texts_of_book self.now) message.now.text) }
    {
        self.kind_of(self.text(message.text))
    }

    /// The kind of the message with this text.
    pub(crate) fn kind_of(&self, text: &[u8]) -> usize
        ensures { result ≡ kind_among (kinds_of self.now) text.now }
    {
        match self.names.place(kind_name(text)) {
            Some(kind) => kind,
            None => 0,
        }
    }

    /// The name of a kind, by its number; a dash where there is none.
    pub(crate) fn kind_name(&self, kind: usize) -> &[u8]
        ensures { result.now ≡ kind_called self.now kind }
    {
        if kind < self.names.len() {
            self.names.text(kind)
        } else {
            b"-"
        }
    }

    /// The title of a page of its runs.
    pub(crate) fn title(&self) -> &[u8]
        ensures { result.now ≡ title_of_book self.now }
    {
        &self.title
    }

    /// What such a page is told of a kind, by its number.
    pub(crate) fn kind_look(&self, kind: usize) -> &[u8]
        ensures { result.now ≡ look_of_kind self.now kind }
    {
        self.looks.of(kind)
    }
}

/// A node that has stopped at its opening.
fn stopped(reason: Reason) -> State
    ensures { result ≡ stopped_at None reason }
{
    State::Stopped(Stop {
        asked: None,
        reason,
    })
}

/// The kinds of messages that the greeting of a book names; none where it has no greeting.
fn greeted_kinds(alloc: Global, book: &Book) -> Result<Vec<u8>, AllocError>
    ensures kinds { IfOk result (λ kinds. kinds.items ≡ kinds_of book.now) }
    ensures readable { IfOk result (λ kinds. are_kinds kinds.items ≡ true) }
{
    let Some((_, answer)) = book.told(b"own 1") else {
        return Ok(Vec::new(alloc));
    };
    match read_answer(Asked::Greeting, answer) {
        Some(Answer::Greeting { name: _, kinds }) => Vec::from_slice(alloc, kinds),
        _ => Ok(Vec::new(alloc)),
    }
}

/// What stands before the first `(` of a message; all of it where there is none.
pub(crate) fn kind_name(message: &[u8]) -> &[u8]
    ensures { result.now ≡ kind_in message.now (cut_at 40 message.now) }
{
    match cut(message, b'(') {
        Some((kind, _)) => kind,
        None => message,
    }
}
