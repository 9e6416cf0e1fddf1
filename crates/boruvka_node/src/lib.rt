//! One node of the protocol Borůvka in step: what it keeps (`Node`), what it may be told (`Message`), and its reaction
//! (`react`). Fragments of one level grow side by side; a node tells its neighbours which fragment it is in, and none runs ahead.
//! The rules, a definition a row, are `specs/Reaction.antt`; as those of a protocol `boruvka` of `specs/Boruvka.antt`.
//!
//! Proved: wherever there is a rule, `react` answers the change and the messages that it gives, and `Node::apply` makes that
//! change. `react` leaves the node as it is; `apply` takes no memory. A reaction takes constant time, and time as the least
//! Basic port rises, but for one by which the node enters a fragment, which goes over its ports.
//!
//! Limits: fewer than 2^24 ports, and levels to `ghs_node::level::TOP_LEVEL`, of which no graph has more. Of runs nothing is
//! proved here. Next: `peer_machine`, the machine that these rules make of a network.
#![tactic(auto)]

pub mod change;
mod draft;
pub mod head;
pub mod mark;
pub mod message;
pub mod node;
pub mod port_state;
mod ports;
pub mod react;

pub use peer_machine::work;
