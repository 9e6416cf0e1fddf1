//! The row of the rules by which a node reacts.
ghost use Rattle.std.specs.Prelude.{◌≡◌};
ghost use Rattle.boruvka_node.specs.Reaction.{wakes};
ghost use Rattle.boruvka.specs.Words.{row_word};
ghost use Rattle.boruvka.specs.RowName.{connect_row, message_row, row_name, up, woken_up};

use boruvka_node::head::Head;
use boruvka_node::message::{Message, Phase};
use boruvka_node::node::{Node, is_asleep};
use ghs_node::level::Level;
use peer_machine::work::Work;
use peer_words::value::Word;

/// The rows of the rules' table. That of a Connect of the node's own level is two: the link is no core yet, or it is one.
#[derive(Clone, Copy, Debug, PartialEq, Eq)]
pub enum RowName {
    Wakes,
    /// A Connect of the node's level, which is noted.
    ConnectNoted,
    /// A Connect of the node's level over the link that the node has chosen too.
    ConnectCore,
    /// A Connect of the level below, whose sender is called in.
    ConnectLate,
    InitiateEnters,
    NameHeard,
    ReportHeard,
    RootMoves,
}

/// The row by which a node reacts to some work. A sleeper that gets a message wakes first: its row is that of the message.
///
/// ```text
/// let row = row_of(&node, &Work::Wake);
/// // RowName::Wakes
/// ```
pub fn row_of(node: &Node, work: &Work<Message>) -> RowName
    ensures { result ≡ row_name node.now work.now }
{
    match work {
        Work::Wake => RowName::Wakes,
        Work::Deliver { port, message } => row_of_message(node, *port, *message),
    }
}

/// The row of a message that has come in at a port.
fn row_of_message(node: &Node, port: u32, message: Message) -> RowName
    ensures { result ≡ message_row node.now port message }
{
    match message {
        Message::Connect(level) => row_of_connect(node, port, level),
        Message::Initiate(..) => RowName::InitiateEnters,
        Message::Name(..) => RowName::NameHeard,
        Message::Report(_) => RowName::ReportHeard,
        Message::ChangeRoot => RowName::RootMoves,
    }
}

/// The row of a Connect.
fn row_of_connect(node: &Node, port: u32, level: Level) -> RowName
    ensures { result ≡ connect_row (up node.now) port level }
{
    let head = head_up(node);
    if level.get() == head.level.get() {
        if head.out == Some(port) {
            RowName::ConnectCore
        } else {
            RowName::ConnectNoted
        }
    } else {
        RowName::ConnectLate
    }
}

/// The node's variables as it comes to a message: a sleeper has woken.
fn head_up(node: &Node) -> Head
    ensures { result ≡ (up node.now).head }
{
    if is_asleep(node) {
        woken_head(node)
    } else {
        *node.head()
    }
}

/// The variables of a sleeper once it has woken.
fn woken_head(node: &Node) -> Head
    ensures { result ≡ (woken_up (wakes node.now) node.now).head }
{
    let mut head = *node.head();
    head.level = Level::ZERO;
    head.phase = Phase::Rest;
    if node.degree() == 0 {
        head.halted = true;
    } else {
        head.out = Some(0);
    }
    head
}

/// The name of a row, as texts have it.
pub(crate) fn row_word(row: RowName) -> Word<'static>
    ensures { result ≡ row_word row }
{
    match row {
        RowName::Wakes => Word::of(b"Wakes"),
        RowName::ConnectNoted => Word::of(b"Connect_noted"),
        RowName::ConnectCore => Word::of(b"Connect_core"),
        RowName::ConnectLate => Word::of(b"Connect_late"),
        RowName::InitiateEnters => Word::of(b"Initiate_enters"),
        RowName::NameHeard => Word::of(b"Name_heard"),
        RowName::ReportHeard => Word::of(b"Report_heard"),
        RowName::RootMoves => Word::of(b"Root_moves"),
    }
}
