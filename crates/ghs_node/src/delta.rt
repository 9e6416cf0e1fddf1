//! What a reaction does.
use crate::head::Head;
use crate::mark::Mark;
use crate::sends::Sends;

/// What becomes of the message that was delivered: it is done with, or goes to the end of its queue.
#[derive(Clone, Copy, Debug, PartialEq, Eq)]
pub enum Fate {
    Consumed,
    Requeued,
}

/// What a reaction does: the node's new head, the one mark that changes, the messages that go out, the
/// fate of the message that came in, and whether the node halts.
#[derive(Debug, Drop)]
pub struct Delta {
    pub head: Head,
    pub mark: Option<(u32, Mark)>,
    pub sends: Sends,
    pub fate: Fate,
    pub halts: bool,
}
