//! Components with their cores.
use ghs_graph::key::Key;

/// A component of a graph, named by its least node, and the core in which all of it unites.
#[derive(Clone, Copy, Debug, PartialEq, Eq)]
pub struct Component {
    /// The least node.
    pub root: u32,
    /// The level of the last fragment.
    pub level: u32,
    /// The link that is its core; none where a node has no links.
    pub link: Option<Key>,
}
