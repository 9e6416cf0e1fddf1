//! The net of one thread: all nodes and all queues, and the list of what has happened.
//!
//! Proved: a `Net` is the machine's net after its trace. `Net::play` makes exactly the one event and appends it (`event`,
//! `trace`), and `reserve` makes the room for it before. `ended` says exactly whether each component has a halted core
//! node, and then `branches` is the minimum spanning forest (`forest`); `ledger` balances, and is within the bound
//! (`counts`, `bound`).
//!
//! `play` takes no reaction but the table's (`IsAnswer`), and a trace has at most 2^40 events. Worked runs: `nets` in
//! `ghs_run_examples`. Next: `ghs_world`, which lets nodes go out of a net to be served elsewhere.
#![tactic(auto)]

pub mod census;
mod counts;
mod dispatch;
pub mod fairness;
mod halts;
pub mod ledger;
mod marked;
pub mod net;
pub mod one_end;
mod parts;
pub mod waits;

pub use peer_network::event;
