//! What is kept of a run of GHS from event to event: the walk of a run that keeps it, and its chains, how many messages follow
//! from one another.
//!
//! A `Follower` says what is kept of which run (`is_of`), and follows each event before it happens; a pair of followers is
//! one. Proved: `follow_all` plays the events of a run once more, each followed, and so gives what is kept of the whole run
//! (`kept`).
//!
//! Proved of chains: `RunChains`, which follow the events of a run while they are made, have the numbers that are defined over
//! lists of events (`specs/Chains.antt`), and give the longest chain (`longest`). It is at most what was sent
//! (`law_chain_is_sent`), and so within the bound (`law_chain_within_bound`); to swap neighbors that have nothing to do with
//! each other doesn't change it (`law_swap`). The numbers themselves, which are those of a run of any protocol, `peer_chains`
//! keeps.
//!
//! A run has at most 2^40 events. After a refusal, which is want of memory, what was kept is of no use. Next: `ghs_bits`, which
//! follows too, `ghs_rounds`, whose rounds are the longest chain, and `ghs_picking`, whose runs are followed while they are made.
#![tactic(auto)]

pub mod chains;
pub mod fate;
pub mod follower;
pub mod laws;
mod pair;
pub mod walk;
