//! Values that a text says.
ghost use Rattle.std.specs.Prelude.{◌≡◌, ◌++◌, ◌∷◌, [], IfOk};

use ghs_graph::key::Key;
use std::alloc::{AllocError, Global};
use std::marker::Model;

/// A word of a protocol: printable ASCII. Names have no quote and no backslash.
#[derive(Drop)]
pub struct Word<'s> {
    letters: &'s [u8],
}

impl<'s> Model for Word<'s> {
    ghost use Rattle.std.specs.Prelude.{ℕ, List};

    ghost Value = { List ℕ };

    ghost view = { λ w. w.letters.now };
}

impl<'s> Word<'s> {
    /// The word that these letters make.
    pub fn of(letters: &'s [u8]) -> Word<'s>
        ensures { result ≡ letters.now }
    {
        Word { letters }
    }

    pub fn letters(&self) -> &'s [u8]
        ensures { result.now ≡ self.now }
    {
        self.letters
    }

    /// The same word.
    pub fn again(&self) -> Word<'s>
        ensures { result ≡ self.now }
    {
        Word::of(self.letters)
    }
}

/// Links, as a text says them: a list of their keys.
#[derive(Drop)]
pub struct Links<'s> {
    keys: &'s [Key],
}

impl<'s> Model for Links<'s> {
    ghost use Rattle.std.specs.Prelude.{List};
    ghost use Rattle.ghs_graph.specs.declared.key.Key.{Key};

    ghost Value = { List Key };

    ghost view = { λ l. l.keys.now };
}

impl<'s> Links<'s> {
    /// The links of these keys.
    pub fn of(keys: &'s [Key]) -> Links<'s>
        ensures { result ≡ keys.now }
    {
        Links { keys }
    }

    pub fn keys(&self) -> &'s [Key]
        ensures { result.now ≡ self.now }
    {
        self.keys
    }

    /// The same links.
    pub fn again(&self) -> Links<'s>
        ensures { result ≡ self.now }
    {
        Links::of(self.keys)
    }
}

/// What a text says of a variable, or of what a message carries.
#[derive(Drop)]
pub enum Value<'s> {
    Number(u64),
    /// A port; none where the variable has none.
    Port(Option<u32>),
    Link(Option<Key>),
    Links(Links<'s>),
    /// A port, and the key heard of there.
    Best(Option<(u32, Key)>),
    Word(Word<'s>),
    Flag(bool),
}

impl<'s> Value<'s> {
    /// The same value.
    pub fn again(&self) -> Value<'s>
        ensures { result ≡ self.now }
    {
        match self {
            Value::Number(number) => Value::Number(*number),
            Value::Port(port) => Value::Port(*port),
            Value::Link(key) => Value::Link(*key),
            Value::Links(links) => Value::Links(links.again()),
            Value::Best(best) => Value::Best(*best),
            Value::Word(word) => Value::Word(word.again()),
            Value::Flag(flag) => Value::Flag(*flag),
        }
    }
}

/// A value with its name.
#[derive(Drop)]
pub struct Said<'s> {
    pub name: Word<'s>,
    pub value: Value<'s>,
}

impl<'s> Said<'s> {
    pub fn new(name: &'s [u8], value: Value<'s>) -> Said<'s>
        ensures { result ≡ record { name = name.now; value = value.entry } }
    {
        Said {
            name: Word::of(name),
            value,
        }
    }

    /// The same once more.
    pub fn again(&self) -> Said<'s>
        ensures { result ≡ self.now }
    {
        Said {
            name: self.name.again(),
            value: self.value.again(),
        }
    }
}

/// What a message carries: any number of values with their names. Contracts see their list.
#[derive(Drop)]
pub struct Carried<'s> {
    items: Vec<Said<'s>>,
}

impl<'s> Model for Carried<'s> {
    ghost use Rattle.std.specs.Prelude.{List};
    ghost use Rattle.peer_words.specs.declared.value.Said.{Said};

    ghost Value = { List Said };

    ghost view = { λ c. c.items.items };
}

impl<'s> Carried<'s> {
    /// No value. Takes no memory.
    pub fn new(alloc: Global) -> Carried<'s>
        ensures { result ≡ [] }
    {
        Carried {
            items: Vec::new(alloc),
        }
    }

    /// Appends a value. Refusal: out of memory.
    pub fn push(&mut self, said: Said<'s>) -> Result<(), AllocError>
        ensures { IfOk result (λ _. self.new ≡ self.old ++ said.entry ∷ []) }
    {
        self.items.push(said)?;
        Ok(())
    }

    /// The values with their names, in the order of the text.
    pub fn as_slice(&self) -> &[Said<'s>]
        ensures { result.now ≡ self.now }
    {
        &self.items
    }
}

/// A message in words: the name of its kind, and what it carries.
#[derive(Drop)]
pub struct Saying<'s> {
    pub kind: Word<'s>,
    pub carried: Carried<'s>,
}

impl<'s> Saying<'s> {
    /// A message of this kind that carries nothing. Takes no memory.
    ///
    /// ```text
    /// Saying::bare(alloc, b"test").with(Said::new(b"level", Value::Number(1)))?;
    /// // test(1)
    /// ```
    pub fn bare(alloc: Global, kind: &'s [u8]) -> Saying<'s>
        ensures { result ≡ record { kind = kind.now; carried = [] } }
    {
        Saying {
            kind: Word::of(kind),
            carried: Carried::new(alloc),
        }
    }

    /// The message with one value more. Refusal: out of memory.
    pub fn with(mut self, said: Said<'s>) -> Result<Saying<'s>, AllocError>
        ensures { IfOk result (λ s. s ≡ record { kind = self.entry.kind; carried = self.entry.carried ++ said.entry ∷ [] }) }
    {
        self.carried.push(said)?;
        Ok(self)
    }
}
