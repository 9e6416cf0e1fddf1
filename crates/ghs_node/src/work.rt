//! What a node may be told.
use crate::message::Message;

/// One piece of work: to wake by itself, or a message that has come in at a port.
#[derive(Clone, Copy, Debug, PartialEq, Eq)]
pub enum Work {
    Wake,
    Deliver { port: u32, message: Message },
}
