//! Messages between neighbours.
ghost use Rattle.std.specs.Prelude.{◌≡◌};
ghost use Rattle.ghs_node.specs.Kind.{kind_of};

use crate::kind::Kind;
use crate::level::Level;
use ghs_graph::key::Key;

/// A node's phase: not yet woken, in search of the fragment's least outgoing link, or at rest.
#[derive(Clone, Copy, Debug, PartialEq, Eq)]
pub enum Phase {
    Sleeping,
    Find,
    Found,
}

/// A message of the protocol. A fragment's name is the key of its core link; a Report without a key says
/// that no outgoing link was found.
#[derive(Clone, Copy, Debug, Default, PartialEq, Eq)]
pub enum Message {
    Connect(Level),
    Initiate(Level, Key, Phase),
    Test(Level, Key),
    #[default]
    Accept,
    Reject,
    Report(Option<Key>),
    ChangeRoot,
}

impl Message {
    /// The message's kind.
    pub fn kind(self) -> Kind
        ensures { result ≡ kind_of self }
    {
        match self {
            Message::Connect(_) => Kind::Connect,
            Message::Initiate(..) => Kind::Initiate,
            Message::Test(..) => Kind::Test,
            Message::Accept => Kind::Accept,
            Message::Reject => Kind::Reject,
            Message::Report(_) => Kind::Report,
            Message::ChangeRoot => Kind::ChangeRoot,
        }
    }
}
