//! One node of the protocol Gather: what it keeps (`Node`), what it may be told (`Message`), and its reaction (`react`). Each node
//! that wakes by itself starts a wave of its own number, and the wave of the smallest number wins. Links come in with the
//! answers, the leader computes the forest, and each node tells each child which of the links that it had sent are in it. The
//! rules are `specs/Reaction.antt`; as those of a protocol `gather` of `specs/Gather.antt`.
//!
//! Proved: wherever there is a rule, `react` answers the change and the messages that it gives, and `Node::apply` makes that
//! change. `react` leaves the node as it is; `apply` takes no memory. The forest of the links that a node knows is their minimum
//! spanning forest (`forest_of`). The lists of a run lie in an arena (`Links`): a message, a change and a node refer to them, so
//! they can be had once more at no cost (`Again`). The arena keeps each list until it is dropped.
//!
//! Limits: fewer than 2^24 ports. Counted by hand, and not proved: a forest of n links, none of whose ends is above N, takes
//! O(N + n log n) steps. What a list of n links has in common with one of m takes O(m + n log m) where the second is in key
//! order, and so do the marks of n ports by a tree of m links; in any other order both take O(n m). A forest is in key order,
//! and so is what it has in common with any list. Of runs nothing is proved here.
//! Next: `peer_machine`, the machine that these rules make of a network.
#![tactic(auto)]

pub mod change;
pub mod forest;
pub mod head;
pub mod links;
pub mod message;
pub mod node;
pub mod react;

pub use peer_machine::work;
