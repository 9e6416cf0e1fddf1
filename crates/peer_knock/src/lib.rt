//! Knocking, the smallest protocol that defers messages: a node that wakes by itself knocks at all its neighbors, and a sleeping
//! node defers a knock until it wakes, if sleepers are patient. Only the running program knows whether they are. It shows how a
//! protocol defers, that the machine's deferral isn't empty, and rules that are known only when a run begins (`Chosen`).
//!
//! Proved: the reactions and what is deferred are those of the rules (`Knocking`, an `impl Protocol`). In every run of every
//! graph, whichever nodes wake, each lawful event has a rule, and at most twice as many messages are sent as there are links
//! (the laws of the `impl`). `times_deferred` is told whether sleepers are patient when it runs, and counts how often a run
//! of just these rules defers (`ok`, `fault`, `run`).
//!
//! Not claimed: that its runs end. A sleeping node may take and defer a knock again and again. Next: `peer_examples`, which
//! plays such a run.
#![tactic(auto)]

pub mod deferring;
pub mod knock;
pub mod node;
