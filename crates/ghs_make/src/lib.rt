//! Networks of well-known kinds, made by a seed: which links they have, their weights, and their `.gr` text.
//!
//! Proved: `Network::of` is the network that is asked for, or the first fault (`asked`, `refused`); `write_network`
//! writes exactly its text (`ok`), which is read without a fault and has just these links (`law_made`). No link is there
//! twice (`law_simple`), and all nodes are joined unless it is a forest (`law_connected`).
//!
//! 1 to 2^20 nodes, and at most 2^23 links. A network is never kept: which links a node has follows from its `Plan`. That
//! slow networks are slow, busy ones busy, and far cores and chain wakes near the bounds on rounds isn't claimed;
//! docs/class/STUDY.md has figures. Worked examples: `ghs_tool_examples`.
#![tactic(auto)]

mod blocks;
mod ends;
mod far;
pub mod fault;
pub mod kind;
pub mod laws;
pub mod network;
mod picks;
pub mod plan;
mod rows;
mod text;
mod weight;
pub mod weights;
mod word;
pub mod write;
