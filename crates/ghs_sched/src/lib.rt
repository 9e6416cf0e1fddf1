//! Runs: those that a schedule picks, and runs done again.
//!
//! Proved: `run_seeded` makes exactly the events that its schedule picks, each among those that are lawful at that moment
//! (`HasRun`), and answers Halted exactly where the run has ended; each seed has one run (`law_seeded_run`). Memory aside,
//! `replay` gives the world after a list of events exactly where it is a run, and else names the first that isn't lawful
//! (`ok`, `fault`).
//!
//! Not proved: that a seeded run ends. Schedules and the texts of traces are those of `peer_schedule` and `peer_texts`, which
//! stand here under their old names too. Next: `ghs_patient`, whose runs surely end, and `ghs_picking`, which has all
//! schedules.
#![tactic(auto)]

pub mod fault;
pub mod laws;
pub mod replay;
pub mod run;

pub use peer_schedule::schedule;
pub use peer_texts::trace;
