//! What a command chooses among, as plain types: which events a schedule picks among (`ScheduleKind`), which steps are
//! shown (`Choice`) and in what form (`Form`), what the figures of a run are told apart by (`By`), and what its end is checked
//! for (`Check`).
//!
//! They stand below all that acts on them, so that `ghs_commands`, which reads them off a command line, is proved without
//! runs, steps and figures. Next: `ghs_picking`, `ghs_steps`, `ghs_parts` and `own_rules`, which act on them.
#![tactic(auto)]

pub mod by;
pub mod check;
pub mod choice;
pub mod form;
pub mod schedule_kind;
