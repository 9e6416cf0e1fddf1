//! Chains of messages of a run of any protocol, each sent because of the one before: a number for each node, and one for each
//! message that waits.
//!
//! Proved: `Chains` keep the numbers that `specs/Chains.antt` defines when a node takes a message, and consumes or defers it
//! (`hear`), and when it sends (`send`); the greatest of a node's is `longest`. They look at no message.
//!
//! Which events a run has and what its nodes send, a caller says. Next: `ghs_following`, where they follow runs of GHS, and
//! `peer_lengths`, which says them of a run of any protocol.
#![tactic(auto)]

pub mod chains;
mod line;
mod rows;
