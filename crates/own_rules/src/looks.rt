//! What a page is told of a book's protocol, besides its words.
ghost use Rattle.own_book.specs.Answer.{are_kinds, saying};
ghost use Rattle.own_book.specs.declared.question.Asked.TheVariants.{Greeting};
ghost use Rattle.own_rules.specs.Looks.{is_free, letter_of, look_of, looks_in, title_of, titled};
ghost use Rattle.own_rules.specs.Texts.{name_greeted, name_of as name_of_book, names_of};
ghost use Rattle.std.specs.Prelude.{IfOk, find, slice_index_or, true, ◌≡◌};

use crate::texts::{Texts, types_of};
use own_book::answer::{Answer, read_answer};
use own_book::book::Book;
use own_book::question::Asked;
use peer_words::json::put_word_member;
use std::alloc::{AllocError, Global};
use std::marker::Model;

/// What a page is told of the only kind of a book that names none.
pub const NAMELESS: &[u8] = br##""name":"-","short":"-","letter":"-","has":[],"types":"""##;

/// What it is told behind the kinds. Variables and other marks it learns from the nodes themselves.
pub const LOOK: &[u8] =
    br##""own":true,"lengths":"It has the bits that say its kind, and those of its values by their types: {level} of a level, {number} of a node, {weight} of a weight, {count} of a count, {key} of a key.","marks":[{"mark":"basic","name":"basic","look":"open"},{"mark":"branch","name":"branch","look":"tree"},{"mark":"rejected","name":"rejected","look":"closed"}],"phases":[{"phase":"yes","name":"asleep","look":"asleep","legend":"sleeps"},{"phase":"no","name":"awake","look":"plain","legend":"awake"},{"phase":"stopped","name":"stopped","look":"searching","legend":"stopped"}],"variables":[["phase","halted"]],"opening":{"phase":"yes","halted":false},"ports":[],"rows":{"goes_on":"The node does what its book answers.","waits":"The node defers the message.","stopped":"The node has stopped: its book has no answer to the question, or one that no node may give. It does nothing any more."},"waits":{"waits":"Its book answers wait"}"##;

/// What a page is told of each kind of messages. Contracts see the list of its members.
#[derive(Drop)]
pub(crate) struct Looks {
    list: Vec<Vec<u8>>,
}

impl Model for Looks {
    ghost use Rattle.std.specs.Prelude.{ℕ, List, map};

    ghost Value = { List (List ℕ) };

    ghost view = { λ l. map (λ v. v.items) l.list.items };
}

impl Looks {
    /// That of the kind with a number; where there is none, that of a kind without a name.
    pub(crate) fn of(&self, kind: usize) -> &[u8]
        ensures { result.now ≡ slice_index_or self.now kind NAMELESS.now }
    {
        match self.list.get(kind) {
            Some(look) => look.as_slice(),
            None => NAMELESS,
        }
    }
}

/// What is told of each of these kinds, whose names they are. Refusal: out of memory.
pub(crate) fn looks_of(alloc: Global, kinds: &[u8], names: &Texts) -> Result<Looks, AllocError>
    requires readable { are_kinds kinds.now ≡ true }
    requires names { names.now ≡ names_of kinds.now }
    ensures { IfOk result (λ looks. looks ≡ looks_in kinds.now) }
{
    let mut list = Vec::new(alloc);
    let mut letters = Vec::new(alloc);
    for kind in 0..names.len() {
        let name = names.text(kind);
        let letter = letter_of(&letters, name);
        list.push(look_of(alloc, name, letter, types_of(kinds, name))?)?;
        letters.push(letter)?;
    }
    Ok(Looks { list })
}

/// The letter of a kind, where these letters stand for others.
fn letter_of(used: &[u8], name: &[u8]) -> u8
    ensures { result ≡ letter_of used.now name.now }
{
    match free_letter(used, name) {
        Some(letter) => letter,
        None => first_letter(name),
    }
}

fn first_letter(name: &[u8]) -> u8
    ensures { result ≡ slice_index_or name.now 0 45 }
{
    match name.first() {
        Some(letter) => *letter,
        None => b'-',
    }
}

/// The first letter of a name that stands for no kind yet.
fn free_letter(used: &[u8], name: &[u8]) -> Option<u8>
    ensures { result ≡ find (is_free used.now) name.now }
{
    let mut rest = name;
    while let Some((letter, after)) = rest.split_first() {
        if is_free(used, *letter) {
            return Some(*letter);
        }
        rest = after;
    }
    None
}

fn is_free(used: &[u8], letter: u8) -> bool
    ensures { result ≡ is_free used.now letter }
{
    !used.contains(&letter)
}

/// What is told of one kind. Refusal: out of memory.
#[tactic(auto, unfolding(crate::specs::Looks::look_of))]
fn look_of(alloc: Global, name: &[u8], letter: u8, types: &[u8]) -> Result<Vec<u8>, AllocError>
    ensures { IfOk result (λ look. look.items ≡ look_of name.now letter types.now) }
{
    let mut look = Vec::new(alloc);
    put_word_member(&mut look, b"", b"name", name)?;
    put_word_member(&mut look, b",", b"short", name)?;
    put_word_member(&mut look, b",", b"letter", &[letter])?;
    look.extend_from_slice(b",\"has\":[]")?;
    put_word_member(&mut look, b",", b"types", types)?;
    Ok(look)
}

/// The title of a page. Refusal: out of memory.
pub(crate) fn title_of(alloc: Global, book: &Book) -> Result<Vec<u8>, AllocError>
    ensures { IfOk result (λ title. title.items ≡ title_of book.now) }
{
    titled(alloc, name_of(book))
}

#[tactic(auto, unfolding(crate::specs::Looks::titled))]
fn titled(alloc: Global, name: &[u8]) -> Result<Vec<u8>, AllocError>
    ensures { IfOk result (λ title. title.items ≡ titled name.now) }
{
    let mut title = Vec::new(alloc);
    title.extend_from_slice(b"ghs: ")?;
    title.extend_from_slice(name)?;
    title.extend_from_slice(b" (own)")?;
    Ok(title)
}

/// The name that a book's greeting gives the protocol; a dash where it gives none.
pub fn name_of(book: &Book) -> &[u8]
    ensures { result.now ≡ name_of_book book.now }
{
    match book.told(b"own 1") {
        None => b"-",
        Some((_, answer)) => name_in(answer),
    }
}

/// The same, by the answer to the greeting.
fn name_in(answer: &[u8]) -> &[u8]
    ensures { result.now ≡ name_greeted (saying Greeting answer.now) }
{
    match read_answer(Asked::Greeting, answer) {
        Some(Answer::Greeting { name, kinds: _ }) => name,
        _ => b"-",
    }
}
