//! What the program's commands have in common: their faults, how long a run is, and what is told of its steps.
//!
//! Proved: the exit status of each fault (`ServeFault::status`), which fault of the program those of the crates below are (the
//! `From`s), and the text of a run's time (`time_text_of`, `time_text`). `specs/Stepping.antt` and `specs/Causes.antt` say what
//! has gone out of steps and when a fault comes; the commands' contracts cite them.
//!
//! Only tested: the texts of faults. Read `ghs_cli` next, or for a user's own protocol `own_cli`.
#![tactic(auto)]

pub mod fault;
pub mod sheets;
pub mod timing;
