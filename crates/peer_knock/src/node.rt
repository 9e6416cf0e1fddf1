//! A node of knocking, its one message, and how it changes.
use peer_machine::again::Again;

/// A message.
#[derive(Clone, Copy, Debug, PartialEq, Eq)]
pub enum Message {
    Knock,
}

impl Again for Message {
    fn again(&self) -> Message {
        *self
    }
}

/// Whether the node is awake after the reaction.
#[derive(Clone, Copy, Debug)]
pub struct Change {
    pub awake: bool,
}

/// A node: its number of ports, and whether it is awake.
#[derive(Clone, Copy, Debug)]
pub struct Node {
    pub ports: u32,
    pub awake: bool,
}
