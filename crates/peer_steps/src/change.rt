//! What differs at a node after an event.
use peer_words::value::{Said, Word};

/// A mark or a variable of a node that differs from what it was.
#[derive(Drop)]
pub enum Change<'s> {
    /// A port, and its new mark.
    Mark(u32, Word<'s>),
    /// A variable, with its new value.
    Variable(Said<'s>),
    /// The name of a variable that the node has no more.
    Gone(Word<'s>),
}
