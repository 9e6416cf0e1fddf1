//! A node of the echo wave, what it is told, and how it changes.
use peer_machine::again::Again;

/// A message: the wave goes on, or has come back.
#[derive(Clone, Copy, Debug, PartialEq, Eq)]
pub enum Message {
    /// Asks the far end to take part.
    Explore,
    /// All behind the sender have taken part.
    Echo,
}

/// The variables of a node.
#[derive(Clone, Copy, Debug, PartialEq, Eq)]
pub struct Head {
    pub awake: bool,
    /// The port at which the wave came; none at a node that woke by itself.
    pub parent: Option<u32>,
    /// From how many ports no message has come yet, at a node that is awake.
    pub awaits: u32,
}

/// How a node changes in one reaction.
#[derive(Clone, Copy, Debug, PartialEq, Eq)]
pub enum Change {
    /// It takes part.
    Joins { parent: Option<u32>, awaits: u32 },
    /// It awaits so many answers still.
    Awaits(u32),
}

/// A node: its number of ports, and its variables.
#[derive(Debug, Drop)]
pub struct Node {
    pub ports: u32,
    pub head: Head,
}

impl Again for Message {
    fn again(&self) -> Message {
        *self
    }
}
