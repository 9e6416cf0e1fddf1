//! What the end of a run is checked for.

/// What a user asks of the end of a run by their own protocol, as `--check` names it.
#[derive(Clone, Copy, Debug, PartialEq, Eq)]
pub enum Check {
    /// The links that both ends mark as branches are those of the minimum spanning forest, and no end marks one alone.
    Tree,
    /// The links that an end marks as branches have no cycle, and join what the graph joins.
    Spanning,
    /// Each component has one leader.
    Leader,
    /// Each node has halted.
    Halted,
}
