//! What a pass knows.
use std::collections::LinkedList;

/// How many shares there are in all, how many of them the pass holds, and what was put and taken by it. While the queue is
/// being opened its first pass counts `all` up. It is there for the rule alone, and no value of it is made.
pub struct PassView {
    pub opening: bool,
    pub all: u64,
    pub shares: u64,
    pub put: LinkedList<u32>,
    pub taken: LinkedList<u32>,
}
