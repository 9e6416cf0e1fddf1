//! Messages between neighbours.
ghost use Rattle.std.specs.Prelude.{◌≡◌};
ghost use Rattle.gather_node.specs.Gather.{gather};

use crate::links::Links;
use peer_machine::again::Again;

/// A message of the protocol. A wave has the number of the node that started it.
#[derive(Debug, Drop)]
pub enum Message<'s> {
    /// Asks the far end to take part in this wave.
    Explore(u32),
    /// All behind the sender have taken part in this wave: the forest of the links there.
    Back(u32, Links<'s>),
    /// The links of the tree, of those that the receiver had sent.
    Tree(Links<'s>),
}

impl<'s> Again for Message<'s> {
    fn again(&self) -> Message<'s> {
        match self {
            Message::Explore(wave) => Message::Explore(*wave),
            Message::Back(wave, links) => Message::Back(*wave, links.again()),
            Message::Tree(links) => Message::Tree(links.again()),
        }
    }
}

/// How many kinds of messages there are.
pub const KINDS: usize = 3;

/// The kind of a message, from 0 on.
pub fn kind(message: &Message) -> usize
    ensures { result ≡ gather.kind_of message.now }
{
    match message {
        Message::Explore(_) => 0,
        Message::Back(..) => 1,
        Message::Tree(_) => 2,
    }
}
