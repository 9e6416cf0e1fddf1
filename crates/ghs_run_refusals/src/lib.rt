//! Each allocation of runs, and of calls that write and read what came of them, refused in turn. Tests alone.
//!
//! Runs are seeded, patient, by workers and done again; texts are those of numbers, trees, traces, steps and a page. What
//! shows runs is refused too: sweeps and their figures, runs by part, charts, and pages. After a refusal nothing is out, and
//! the world is the one after its trace; a text is the one that is made where nothing is refused. `ghs_refusing` gives the
//! orders; docs/REFUSALS.md has the counts.
#![tactic(auto)]

#[cfg(test)]
mod charts;
#[cfg(test)]
mod comparing;
#[cfg(test)]
mod pages;
#[cfg(test)]
mod parts;
#[cfg(test)]
mod runs;
#[cfg(test)]
mod sweeps;
#[cfg(test)]
mod texts;
