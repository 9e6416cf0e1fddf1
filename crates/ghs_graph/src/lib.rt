//! Graphs with ports, and their minimum spanning forests: all that can be said of a network before a message is sent.
//!
//! Proved: `Graph::build` gives the graph of what was read, and fails only if allocation fails; `Graph::ports` are in key
//! order. `tree_of` and `tree_slow` are the minimum spanning forest (`IsTree`): each graph has one (`law_one_tree`), and
//! no links that join as much weigh less (`law_least`). `bound` is 2E + 5N·k, the bound on the messages of a run, k being
//! `floor_log2` of N.
//!
//! That a graph and its forest take O((N + E) log N) steps is counted by hand, and not proved. Next: `ghs_node`, a node
//! with such ports.
#![tactic(auto)]

pub mod bounds;
pub mod graph;
pub mod graph_fault;
pub mod key;
pub mod laws;
mod layout;
pub mod port;
pub mod spanning;
pub mod tree;
mod triples;
pub mod union_find;
