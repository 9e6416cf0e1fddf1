//! What a reaction sends.
ghost use Rattle.std.specs.Prelude.{◌≡◌, ℕ, List, [], ◌∷◌, ◌++◌, IfOk, OnErr};
ghost use Rattle.ghs_node.specs.declared.message.Message.{Message};

use crate::message::Message;
use smallvec::SmallVec;
use std::alloc::{AllocError, Global};
use std::marker::Model;

/// How many messages stand in the list itself. Of 100 reactions that send, in a road-like network, 98 send no more. A step
/// of a worker is moved with its reaction, so there is no room for all that a node may send.
const INLINE: usize = 2;

/// The messages of a reaction, each with the port it goes out on, in the order of sending. Those of a reaction that
/// sends no more than two take no memory of their own.
#[derive(Debug, Drop)]
pub struct Sends {
    list: SmallVec<(u32, Message), INLINE>,
}

impl Model for Sends {
    ghost Value = { List (ℕ × Message) };

    ghost view = { λ s. s.list.items };
}

impl Sends {
    /// No message.
    pub fn none(alloc: Global) -> Sends
        ensures { result ≡ [] }
    {
        Sends {
            list: SmallVec::new(alloc),
        }
    }

    /// One message more, the last.
    pub fn push(&mut self, port: u32, message: Message) -> Result<(), AllocError>
        ensures ok { IfOk result (λ _. self.new ≡ self.old ++ (port, message) ∷ []) }
        ensures err { OnErr result (self.new ≡ self.old) }
    {
        self.list.push((port, message))?;
        Ok(())
    }

    /// The messages with their ports.
    pub fn as_slice(&self) -> &[(u32, Message)]
        ensures { result.now ≡ self.now }
    {
        self.list.as_slice()
    }
}
