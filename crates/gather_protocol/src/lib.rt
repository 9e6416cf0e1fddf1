//! Gather in every run of every graph. However its events interleave and whoever wakes, waves collect the links at a leader. No
//! code but `laws`.
//!
//! Proved, for N nodes and E links: each lawful event has a rule (`law_rules`); no message is deferred (`law_kinds`); no node
//! falls asleep (`law_awake`); where W nodes may wake by themselves, no run sends more than 2E·W + N - 1 messages (`law_wakers`),
//! in C pieces 2E·W + N - C (`law_pieces`), so none more than 2E·N + N - 1 (`law_sends`), which is below 2^64
//! (`law_bound_fits`), nor has more than N events more (`law_short_runs`). A run that one node begins has sent just 2E + N - 1 at
//! its end (`law_one_waker`). Each node keeps its number and the keys of its ports (`law_nodes`).
//!
//! At every moment a node that has halted has marked those of its links that are of the minimum spanning forest, and no others,
//! and a node that has not has marked none (`law_marks`). Silence is the end: where no message waits, each node that is awake has
//! halted, and nobody sleeps in its component (`law_silence`); with all awake the Branch links are then the forest (`law_end`).
//!
//! Nothing is said of the lengths of messages. The invariant was tried on all orders of small networks before it was proved.
//!
//! `proofs/Waves.antt` has what every net of a run keeps of its waves, and `proofs/Trees.antt` of the tree that is told (`Events`,
//! `TreeEvents`); `proofs/Bypass.antt` says when a list of links stands for another in a forest. Next: `gather_node`, the rules.
#![tactic(auto)]

pub mod laws;
