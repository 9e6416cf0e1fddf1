//! The net of one thread, of any protocol: all nodes and all queues, and the list of what has happened.
//!
//! Proved, for each protocol P: a `Net<P>` is the machine's net after its trace, by the rules of P. `Net::play` makes
//! exactly the one event, appends it, and answers what its node has sent (`event`, `trace`, `sends`); where an allocation is
//! refused the net is as it was (`err`). A rule is never missing, by the law of P. `ledger` balances, and is within the bound
//! of P (`counts`, `bound`).
//!
//! A net keeps the setting that it was opened with, which the rules of P are made of (`setting`), so who plays it names none.
//! `play` takes the time of the reaction and of its sends. Nodes are numbered from 1, ports from 0. Next: `peer_runs`, which
//! plays events by a seed and plays runs again, and `echo`, a protocol that runs in it.
#![tactic(auto)]

mod counts;
pub mod ledger;
pub mod net;
mod parts;
mod sending;

pub use peer_machine::event;
