//! Where the book answers each question of a run.
ghost use Rattle.own_book.specs.Entry.{Entry};
ghost use Rattle.own_book.specs.Query.{asked_by};
ghost use Rattle.own_rules.specs.Places.{ArePlaces, first_at, place_in};
ghost use Rattle.own_rules.specs.Questions.{asked_for as asks_for, lookup_by, lookup_of as lookup_of_entry};
ghost use Rattle.own_rules.specs.declared.node.Lookup.{Lookup as AnyLookup};
ghost use Rattle.std.specs.Option.{option_map};
ghost use Rattle.std.specs.Prelude.{IfOk, OnOk, [], length, slice_get, take, ◌+◌, ◌<◌, ◌≡◌};

use crate::node::Lookup;
use crate::texts::Texts;
use indexmap::IndexMap;
use own_book::book::Book;
use own_book::question::{Asked, Query, read_query};
use std::alloc::{AllocError, Global};
use std::marker::Model;

/// Lookups with the places of entries. Contracts see the place of each.
#[derive(Drop)]
pub(crate) struct Places {
    map: IndexMap<Lookup, usize>,
}

impl Model for Places {
    ghost use Rattle.own_rules.specs.declared.node.Lookup.{Lookup};
    ghost use Rattle.std.specs.Prelude.{ℕ, List};

    ghost Value = { List (Lookup × ℕ) };

    ghost view = { λ p. p.map.entries };
}

impl Places {
    /// No lookup.
    fn new(alloc: Global) -> Places
        ensures { result ≡ [] }
    {
        Places {
            map: IndexMap::new(alloc),
        }
    }

    /// The place of a lookup.
    pub(crate) fn place(&self, lookup: Lookup) -> Option<usize>
        ensures { result ≡ place_in self.now lookup }
    {
        match self.map.get(&lookup) {
            Some(place) => Some(*place),
            None => None,
        }
    }

    /// Gives a lookup a place, where it has none.
    fn note(&mut self, lookup: Lookup, place: usize) -> Result<(), AllocError>
        ensures { OnOk result ((l : AnyLookup) → place_in self.new l ≡ first_at self.old lookup place l) }
    {
        if self.place(lookup).is_some() {
            return Ok(());
        }
        self.map.insert(lookup, place)?;
        Ok(())
    }

    /// Gives the lookup of the entry at a place this place, where it has none.
    fn note_entry(&mut self, texts: &Texts, book: &Book, index: usize) -> Result<(), AllocError>
        requires { index < length book.now }
        ensures { OnOk result (ArePlaces texts.now (take index book.now) self.old → ArePlaces texts.now (take (index + 1) book.now) self.new) }
    {
        match lookup_at(texts, book, index) {
            Some(lookup) => self.note(lookup, index),
            None => Ok(()),
        }
    }
}

/// What the question of a lookup asks for.
pub(crate) fn asked_for(lookup: Lookup) -> Asked
    ensures { result ≡ asks_for lookup }
{
    match lookup {
        Lookup::Wake { node: _, state: _ } => Asked::Wake,
        Lookup::Take {
            node: _,
            port: _,
            message: _,
            state: _,
        } => Asked::Take,
    }
}

/// The lookup of a question, where the book says its texts.
fn lookup_of(texts: &Texts, query: Option<Query>) -> Option<Lookup>
    ensures { result ≡ lookup_by texts.now (option_map asked_by query.entry) }
{
    match query? {
        Query::Wake { node, state } => {
            let state = texts.place(state)?;
            Some(Lookup::Wake { node, state })
        }
        Query::Take {
            node,
            port,
            message,
            state,
        } => {
            let message = texts.place(message)?;
            let state = texts.place(state)?;
            Some(Lookup::Take {
                node,
                port,
                message,
                state,
            })
        }
    }
}

/// The lookup of the entry at this place.
pub(crate) fn lookup_at(texts: &Texts, book: &Book, index: usize) -> Option<Lookup>
    ensures { (e : Entry) → slice_get book.now index ≡ Some e → result ≡ lookup_of_entry texts.now e }
{
    let (question, _) = book.entry(index)?;
    lookup_of(texts, read_query(question))
}

/// The places of a book, each the first that answers.
pub(crate) fn places_of(alloc: Global, book: &Book, texts: &Texts) -> Result<Places, AllocError>
    ensures { IfOk result (λ places. ArePlaces texts.now book.now places) }
{
    let mut places = Places::new(alloc);
    for index in 0..book.len() {
        places.note_entry(texts, book, index)?;
    }
    Ok(places)
}
