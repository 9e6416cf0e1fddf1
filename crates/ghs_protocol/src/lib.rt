//! The network as one pure machine: events in, states and counts out. There is no code: the definitions stand in `specs/`,
//! and each theorem is the contract of a function without a body, in `laws`, `interleavings` and `cores`.
//!
//! Proved of every run of every graph, in every order of its events: messages sent are within the bound (`law_bound`);
//! Branch links lie in the minimum spanning forest (`law_branch_links`), and where the run has ended they are it
//! (`law_tree`); each lawful event has a rule (`law_rules`); no run is ever stuck (`law_progress`); a patient one has at
//! most 2(B + N) events, B the bound and N the nodes (`law_patience`); which core a component ends with is the graph's
//! and not the run's (`law_one_core`).
//!
//! What has to be believed for each is listed in docs/PROOF.md. Next: `ghs_core`, a net that runs as this machine does.
#![tactic(auto)]

pub mod cores;
pub mod interleavings;
pub mod laws;

pub use peer_network::event;
