//! Each allocation of command lines and whole tasks refused in turn. Tests alone.
//!
//! `read_job` of many lines, and `serve` from bytes to bytes: where an allocation is refused it says so and has written
//! nothing. `ghs_refusing` gives the orders; docs/REFUSALS.md has the counts, and those of the built program.
#![tactic(auto)]

#[cfg(test)]
mod programs;
