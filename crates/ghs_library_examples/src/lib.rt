//! The examples of docs/LIBRARY.md, as tests alone: graphs and their forests, runs by a seed, stored runs line by line, all runs
//! of a small network. The page shows these functions word for word, and `.ci/documents` compares both.
//!
//! The texts and numbers stand in README, docs/class/LESSON.md and docs/FORMATS.md, or were reckoned by hand or by
//! `bench/echo`. No test is of a fault: the crates' own tests have those. Next: the crates that the page names.
#![tactic(auto)]

#[cfg(test)]
mod exploring;
#[cfg(test)]
mod fault;
#[cfg(test)]
mod following;
#[cfg(test)]
mod ghs_running;
#[cfg(test)]
mod reading;
#[cfg(test)]
mod running;
