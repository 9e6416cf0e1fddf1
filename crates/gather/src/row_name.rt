//! The row of the rules by which a node reacts.
ghost use Rattle.std.specs.Prelude.{◌≡◌};
ghost use Rattle.gather.specs.RowName.{back_row, explore_row, message_row, row_name};
ghost use Rattle.gather.specs.Words.{row_word};

use gather_node::message::Message;
use gather_node::node::Node;
use peer_machine::work::Work;
use peer_words::value::Word;

/// The rows of the rules.
#[derive(Clone, Copy, Debug, PartialEq, Eq)]
pub enum RowName {
    /// A sleeper wakes by itself, and starts a wave of its own.
    Wakes,
    /// A sleeper gets an Explore, and joins its wave.
    Joins,
    /// A node gets an Explore of a smaller wave, and leaves its own for it.
    Leaves,
    /// An Explore of the node's own wave: it awaits one answer less.
    Hears,
    /// A Back of the node's own wave: the same, and links come with it.
    Gathers,
    /// An Explore of a greater wave, or a Back of a wave that has lost.
    Ignores,
    /// A Tree: the node knows its links of the tree, and tells its children theirs.
    Told,
}

/// The row by which a node reacts to some work.
///
/// ```text
/// let row = row_of(&node, &Work::Wake);
/// // RowName::Wakes
/// ```
pub fn row_of<'s>(node: &Node<'s>, work: &Work<Message<'s>>) -> RowName
    ensures { result ≡ row_name node.now work.now }
{
    match work {
        Work::Wake => RowName::Wakes,
        Work::Deliver { port: _, message } => row_of_message(node.head().wave, message),
    }
}

/// The row of a message.
fn row_of_message<'s>(own: Option<u32>, message: &Message<'s>) -> RowName
    ensures { result ≡ message_row own message.now }
{
    match message {
        Message::Explore(wave) => row_of_explore(own, *wave),
        Message::Back(wave, _) => row_of_back(own, *wave),
        Message::Tree(_) => RowName::Told,
    }
}

/// The row of an Explore.
fn row_of_explore(own: Option<u32>, wave: u32) -> RowName
    ensures { result ≡ explore_row own wave }
{
    match own {
        None => RowName::Joins,
        Some(own) => {
            if wave < own {
                RowName::Leaves
            } else if own == wave {
                RowName::Hears
            } else {
                RowName::Ignores
            }
        }
    }
}

/// The row of a Back.
fn row_of_back(own: Option<u32>, wave: u32) -> RowName
    ensures { result ≡ back_row own wave }
{
    if own == Some(wave) {
        RowName::Gathers
    } else {
        RowName::Ignores
    }
}

/// The name of a row, as texts have it.
pub(crate) fn row_word(row: RowName) -> Word<'static>
    ensures { result ≡ row_word row }
{
    match row {
        RowName::Wakes => Word::of(b"Wakes"),
        RowName::Joins => Word::of(b"Joins"),
        RowName::Leaves => Word::of(b"Leaves"),
        RowName::Hears => Word::of(b"Hears"),
        RowName::Gathers => Word::of(b"Gathers"),
        RowName::Ignores => Word::of(b"Ignores"),
        RowName::Told => Word::of(b"Told"),
    }
}
