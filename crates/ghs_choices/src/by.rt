//! What the figures of a run are told apart by.

/// By the node of each event, by its level once the event has happened, or by the row of the table of rules that applied.
#[derive(Clone, Copy, Debug, PartialEq, Eq)]
pub enum By {
    Node,
    Level,
    Rule,
}
