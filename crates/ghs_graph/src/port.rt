//! Ports of nodes.
use crate::key::Key;

/// A node's end of a link: the link's key, the node at the far end, and that node's port on this link.
#[derive(Clone, Copy, Debug, PartialEq, Eq)]
pub struct Port {
    pub key: Key,
    pub far: u32,
    pub far_port: u32,
}
