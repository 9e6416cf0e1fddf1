//! What the runs of any protocol go by: the schedule of a seed, by which events are picked; and why a list of events can't be
//! done again.
//!
//! Proved: a schedule is the stream of words of Xoshiro256++ from its seed on, and picks by the next word (`Schedule::pick`).
//! Not proved: that a seed picks evenly. Next: `peer_runs` and `ghs_sched`, whose runs a schedule picks.
#![tactic(auto)]

pub mod fault;
pub mod schedule;
