//! What a node keeps beside its ports.

/// A node's own variables. Ports are numbered from 0 in key order.
#[derive(Clone, Copy, Debug, PartialEq, Eq)]
pub struct Head {
    /// The wave that the node takes part in; none while it sleeps.
    pub wave: Option<u32>,
    /// The port at which the wave came; none at a leader.
    pub parent: Option<u32>,
    /// From how many ports an answer is awaited.
    pub awaits: u32,
    /// Whether the node knows the tree.
    pub halted: bool,
}

impl Head {
    /// The variables of a node that nothing has happened to.
    pub const UNTOUCHED: Head = Head {
        wave: None,
        parent: None,
        awaits: 0,
        halted: false,
    };
}
