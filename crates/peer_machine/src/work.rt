//! What a node may be told, and what it answers.

/// One piece of work: to wake by itself, or a message that has come in at a port.
#[derive(Debug, Drop)]
pub enum Work<M> {
    Wake,
    Deliver { port: u32, message: M },
}

/// What a reaction does: how the node changes, and the messages that go out, each with its port, in the order of sending.
#[derive(Debug, Drop)]
pub struct Answer<C, M> {
    pub change: C,
    pub sends: Vec<(u32, M)>,
}
