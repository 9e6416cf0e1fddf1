//! Hostile input and hostile devices, as tests alone: texts damaged at random, and readers and writers that fail
//! anywhere.
//!
//! `damage` damages graphs, traces and command lines, 100,000 of each kind, by the words of a `Schedule`, and cuts good
//! texts short: each is answered by a text or by one named fault. `failing` has readers and writers that fail after any
//! number of bytes or move few at a time. `faults` has the texts of faults that no input brings about.
#![tactic(auto)]

#[cfg(test)]
mod damage;
#[cfg(test)]
mod failing;
#[cfg(test)]
mod faults;
