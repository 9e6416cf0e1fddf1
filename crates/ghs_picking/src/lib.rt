//! Runs from the opening on by the schedule of a seed, among whichever events it picks (`ScheduleKind`), their time and
//! their bits. It is what `ghs run`, `ghs sweep` and `ghs view` call.
//!
//! Proved: `run_by_seed` makes exactly the events that the seed picks, to the end of the run or the last turn (`whole`,
//! `limit`, by `IsPickedBy`); `run_timed` also says in how many rounds (`rounds`), and `run_measured` how long the longest
//! chain is, and how many bits the messages have (`lengths`). `lengths_of`, `lap_count` and `time_text` are the lengths of a
//! run that is known by its events, its laps, and their text; `round_bound` is the number that the rounds of a run that has
//! ended can't exceed.
//!
//! Patient runs, runs by rounds and runs that take first what was sent last surely end where turns are left for 2(B + N)
//! events, and runs by round robin where turns are left for 4E(B + N) + N; of the others that isn't proved. The world has to
//! stand at its opening, with no ticket number used. Next: `ghs_sweep`, whose lines are of such runs.
#![tactic(auto)]

mod followed;
pub mod laps;
pub mod lengths;
mod making;
pub mod measured;
mod patient;
pub mod picking;
pub mod round_bound;
mod seeded;
pub mod time;
