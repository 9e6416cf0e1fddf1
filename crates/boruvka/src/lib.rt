//! Borůvka in step as a protocol that runs: the node of `boruvka_node` with the laws of `boruvka_protocol`, given to
//! `peer_net` as an `impl` of `Protocol`.
//!
//! Proved: nodes open, react and change as the rules `boruvka` say; in every run of every graph each lawful event has a rule,
//! and at most 2EK + 3NK + N messages are sent, for N nodes, E links and K the floor of log2 N (the laws of the `impl`).
//!
//! So a `Net<Boruvka>` is the net of its run, and what `boruvka_protocol` proves of every run holds of it. Its messages have the
//! lengths that the rules state (`Measured`). Its runs can be explored (`Explorable`): a face tells the states of a network's
//! nodes apart, a copy is the same node, messages are compared as they are, on 12 nodes and 20 links no run sends more than
//! 65,535 messages, and each run comes to its end. Its runs can be told (`Spoken`): `row_of` is the row by which a node reacts,
//! a message has the name of its kind, and a change keeps the marks of all ports but those that it touches. Its runs can be shown
//! on pages (`Viewed`). A run has ended where with each node one is joined that has halted, which is so just in silence with all
//! awake (`Ends`), and its Branch links are then the minimum spanning forest (`FindsTree`). Next: `peer_report`, the text of a
//! run that has ended.
#![tactic(auto)]

mod bits;
mod bound;
mod copy;
mod ends;
mod explorable;
mod face;
pub mod looks;
pub mod protocol;
pub mod row_name;
mod spoken;
mod viewed;
