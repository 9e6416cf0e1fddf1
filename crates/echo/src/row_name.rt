//! The row of the rules by which a node reacts.
ghost use Rattle.std.specs.Prelude.{◌≡◌};
ghost use Rattle.echo.specs.RowName.{row_name};
ghost use Rattle.echo.specs.Words.{row_word};

use crate::node::{Message, Node};
use peer_machine::work::Work;
use peer_words::value::Word;

/// The rows of the rules.
#[derive(Clone, Copy, Debug, PartialEq, Eq)]
pub enum RowName {
    /// A sleeper wakes by itself, and asks all.
    Wakes,
    /// A sleeper gets a message, and asks the others.
    Joins,
    /// One that takes part gets a message.
    Hears,
}

/// The row by which a node reacts to some work.
///
/// ```text
/// let row = row_of(&node, &Work::Wake);
/// // RowName::Wakes
/// ```
pub fn row_of(node: &Node, work: &Work<Message>) -> RowName
    ensures { result ≡ row_name node.now work.now }
{
    match work {
        Work::Wake => RowName::Wakes,
        Work::Deliver { .. } => {
            if node.head.awake {
                RowName::Hears
            } else {
                RowName::Joins
            }
        }
    }
}

/// The name of a row, as texts have it.
pub(crate) fn row_word(row: RowName) -> Word<'static>
    ensures { result ≡ row_word row }
{
    match row {
        RowName::Wakes => Word::of(b"Wakes"),
        RowName::Joins => Word::of(b"Joins"),
        RowName::Hears => Word::of(b"Hears"),
    }
}
