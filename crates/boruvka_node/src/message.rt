//! Messages between neighbours.
ghost use Rattle.std.specs.Prelude.{◌≡◌};
ghost use Rattle.boruvka_node.specs.Boruvka.{boruvka};

use ghs_graph::key::Key;
use ghs_node::level::Level;
use peer_machine::again::Again;

/// A node's phase: not yet woken, in search of the fragment's least outgoing link, or at rest.
#[derive(Clone, Copy, Debug, PartialEq, Eq)]
pub enum Phase {
    Sleeping,
    Search,
    Rest,
}

/// A message of the protocol. A fragment's name is the key of its core link.
#[derive(Clone, Copy, Debug, PartialEq, Eq)]
pub enum Message {
    /// A fragment of this level has chosen the link as its least outgoing one.
    Connect(Level),
    /// Calls the far end into the fragment of this level and name, and to its search.
    Initiate(Level, Key),
    /// Tells the far end which fragment the sender is in.
    Name(Level, Key),
    /// The least key that leaves the fragment from the sender or from below it; none where nothing does.
    Report(Option<Key>),
    /// The way to the fragment's least outgoing link leads on over the receiver.
    ChangeRoot,
}

impl Again for Message {
    fn again(&self) -> Message {
        *self
    }
}

/// How many kinds of messages there are.
pub const KINDS: usize = 5;

/// The kind of a message, from 0 on.
pub fn kind(message: &Message) -> usize
    ensures { result ≡ boruvka.kind_of message.now }
{
    match message {
        Message::Connect(_) => 0,
        Message::Initiate(..) => 1,
        Message::Name(..) => 2,
        Message::Report(_) => 3,
        Message::ChangeRoot => 4,
    }
}
