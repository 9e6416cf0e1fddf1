//! The echo wave (Chang 1982, Segall 1983) as a protocol: one that wakes by itself, an initiator, asks all its neighbors, each of
//! them asks on, and the answers come back along the tree so found.
//!
//! Proved: the reactions are those of the rules (`Echo`, an `impl Protocol`); in every run of every graph, whoever wakes,
//! each lawful event has a rule, and at most twice as many messages are sent as there are links (the laws of the `impl`). Each
//! message has one bit (`Measured`). A run has ended where each node takes part and awaits no answer, which is so just in
//! silence with all awake (`Ends`); its branches, the links to parents, are then a forest of the graph (`FindsTree`).
//!
//! At the end exactly two messages were sent for each link (`law_sends`), the branches join each node with exactly one
//! initiator (`law_trees`), and where one node woke in each component they span it (`law_spans`). Its runs can be explored
//! (`Explorable`), told (`Spoken`) and shown on pages (`Viewed`). Next: `peer_examples`.
#![tactic(auto)]

mod bits;
mod ends;
mod explorable;
mod face;
pub mod laws;
pub mod looks;
pub mod node;
pub mod protocol;
pub mod row_name;
mod spoken;
mod viewed;
