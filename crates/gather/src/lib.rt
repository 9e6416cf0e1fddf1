//! Gather as a protocol that runs: the node of `gather_node` with the laws of `gather_protocol`, given to `peer_net` as an `impl`
//! of `Protocol`. Its setting is the arena in which the lists of its messages lie: whoever opens a run holds it.
//!
//! Proved: nodes open, react and change as the rules `gather` say; in every run of every graph each lawful event has a rule, and
//! at most 2E·N + N - 1 messages are sent, for N nodes and E links (the laws of the `impl`).
//!
//! So a `Net<Gather>` is the net of its run, and what `gather_protocol` proves of every run holds of it. Its messages have the
//! lengths that the rules state (`Measured`). A run has ended where no message waits and each node has halted, which is so just in
//! silence with all awake (`Ends`), and its Branch links are then the minimum spanning forest (`FindsTree`). Its runs can be
//! explored (`Explorable`): a face tells the states of a network's nodes apart, a copy is the same node, messages are compared as
//! they are, on 12 nodes and 20 links no run sends more than 491 messages, and each run comes to its end (`Finite`). Its runs can
//! be told (`Spoken`): `row_of` is the row by which a node reacts, a message has the name of its kind, and a change keeps the marks
//! of all ports but those that it touches. Its runs can be shown on pages (`Viewed`). Next: `peer_net`, the net of a run.
#![tactic(auto)]

mod bits;
mod ends;
mod explorable;
mod face;
pub mod looks;
pub mod protocol;
pub mod row_name;
mod spoken;
mod viewed;
