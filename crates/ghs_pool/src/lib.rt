//! Workers round one locked world: threads that check events out, perform them outside the lock and commit them, or make
//! some of a node of many ports at once under the lock, fed by a queue of ready nodes; and a board on which each event is
//! published.
//!
//! Proved: `run_workers` and `run_watched` hand the world back with nothing out, with its graph, wake set and turns, its
//! trace begun with the old one (`out`, `follows`); so it is what one thread leaves that does the events of its trace in
//! order. Each end is the world's (`end`): Halted comes only where the run has ended. What was published goes on too
//! (`told`, `board`).
//!
//! 1 to 64 workers. Not proved: that a run of workers ends, that a thread gets its turn, how long it takes; runs are
//! tested in `ghs_pool_examples` and by `bench/many_runs`. How workers go about it: docs/ARCHITECTURE.md, "Workers".
#![tactic(auto)]

mod bell;
pub mod desk;
pub mod end;
mod feed;
mod fill;
mod floor;
pub mod gate;
mod hand;
mod moves;
mod notes;
mod pace;
mod settle;
pub mod shop;
mod visit;
pub mod workers;
