//! Texts that are borrowed from a book, and questions.
ghost use Rattle.std.specs.Prelude.{◌≡◌};

use std::marker::Model;

/// A text that stands in a book. Contracts see its bytes.
#[derive(Drop)]
pub struct Text<'a> {
    bytes: &'a [u8],
}

impl<'a> Model for Text<'a> {
    ghost use Rattle.std.specs.Prelude.{ℕ, List};

    ghost Value = { List ℕ };

    ghost view = { λ t. t.bytes.now };
}

impl<'a> Text<'a> {
    /// The text of these bytes.
    pub fn of(bytes: &'a [u8]) -> Text<'a>
        ensures { result ≡ bytes.now }
    {
        Text { bytes }
    }

    /// Its bytes.
    pub fn bytes(&self) -> &'a [u8]
        ensures { result.now ≡ self.now }
    {
        self.bytes
    }
}

/// A question. Contracts see its bytes.
#[derive(Drop)]
pub struct Question {
    bytes: Vec<u8>,
}

impl Model for Question {
    ghost use Rattle.std.specs.Prelude.{ℕ, List};

    ghost Value = { List ℕ };

    ghost view = { λ q. q.bytes.items };
}

impl Question {
    /// The question that these bytes are.
    pub fn of(bytes: Vec<u8>) -> Question
        ensures { result ≡ bytes.items }
    {
        Question { bytes }
    }

    /// Its bytes.
    pub fn bytes(&self) -> &[u8]
        ensures { result.now ≡ self.now }
    {
        self.bytes.as_slice()
    }
}
