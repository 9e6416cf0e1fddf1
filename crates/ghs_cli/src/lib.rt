//! The program's engine: the work that command lines ask for.
//!
//! Proved: at success `serve` has written exactly what the task prints of the bytes that it read, and else it answers the
//! first fault whose cause is there (`serves`). Read and Write come exactly where a device failed (`read`, `write`); the
//! output is made whole before its first byte goes out, except for steps and networks that are made (`unwritten`).
//! `sweep_networks` is the same for sweeps of several networks (`swept`). What goes by a user's book is in `own_cli`.
//!
//! Only tested: the lines of `--progress`, failing devices (`ghs_hostile_examples`), and the built
//! program (`cases/`). docs/ARCHITECTURE.md leads from a command to the crates below.
#![tactic(auto)]

mod any_explore;
mod any_run;
mod any_view;
mod beside;
mod charting;
mod exploring;
mod fronts;
mod gathered;
mod making;
pub mod networks;
mod parting;
mod printing;
mod progress;
pub mod reading;
mod replaying;
mod running;
pub mod serve;
mod stepping;
mod sweeping;
mod swept;
mod viewing;
