//! Worked examples of what is told and asked of runs, and of networks that are made. Tests alone.
//!
//! - `steps` has runs of small graphs with all their lines, as docs/FORMATS.md spells them.
//! - `parts` has the run of the triangle by node, by level and by rule, as text and as JSON, counted by hand from what its
//!   steps say.
//! - `rounds` has numbers of rounds as `bench/rounds` counts them, by a machine of its own.
//! - `explorations` has small networks explored: with which counts their runs end, and a run of each, which is done again
//!   by `replay` and ends as its row says. The lines of `explored_rows` are those that `bench/explore --table` prints, an
//!   explorer that shares nothing with `ghs_explore`.
//! - `networks` has texts of networks, by hand where a seed picks nothing, and else as a program in another language
//!   reckons them; and calls that make one, with each allocation refused, by `ghs_refusing`.
#![tactic(auto)]

#[cfg(test)]
mod explorations;
#[cfg(test)]
mod explored_rows;
#[cfg(test)]
mod fixtures;
#[cfg(test)]
mod networks;
#[cfg(test)]
mod parts;
#[cfg(test)]
mod rounds;
#[cfg(test)]
mod steps;
