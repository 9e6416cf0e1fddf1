//! Patient runs: of the events that may happen one that moves the run on comes next, and so every run ends.
//!
//! Proved: `run_patient` makes exactly the events that its schedule patiently picks (`run`), at most 2(B + N) of them, B
//! the bound on messages and N the nodes (`short`); where turns for so many are left it ends with Halted or with out of
//! memory (`ends`, `fault`).
//!
//! `Choices` keeps which events move the run on, at two bits an event. How long that takes is counted by hand
//! (docs/ARCHITECTURE.md, "Schedules"), and not proved. Next: `ghs_rounds` and `ghs_orders`, whose picks are patient ones
//! too.
#![tactic(auto)]

pub mod choices;
pub mod keeping;
pub mod run;
