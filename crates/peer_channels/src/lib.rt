//! The channels of a network: for each direction of a link a list of messages, of any type, which waits at the port it leads to.
//!
//! Proved: `send` puts a message last in the queue at the far end, and changes no other queue (`Changes`); `push`,
//! `take_front`, `requeue`, `front`, `len_at` and `total` are those of lists. `reserve_for` makes room for what a node
//! sends, changes no list and is refused only where room is missing (`room`, `full`); so a send after it can't fail.
//!
//! Each call asks for a port that is there (`HasQueue`). A queue in which no second message waits takes no memory of its
//! own. Worked example: `queues` in `ghs_run_examples`. Next: `peer_net` and `ghs_core`, which send over these.
#![tactic(auto)]

mod blocks;
pub mod channels;
mod claims;
mod line;
mod place;
mod queue;
