//! Graph texts: the `.gr` format of the 9th DIMACS Implementation Challenge, and the devices that texts are read from and
//! written to.
//!
//! Proved: `read_gr`, of a reader, and `judge`, of a text at hand, give exactly the graph of the text, or its first fault
//! (`TextIs`). `read_text` gives all bytes to the end. No text has two judgements (`law_one_judgement`).
//!
//! Limits: 2^28 bytes (`TEXT_LIMIT`), 2^20 nodes (`NODE_LIMIT`), 2^23 arc lines (`ARC_LIMIT`). Readers that fail or give
//! few bytes at a time are tested in `ghs_examples` and `ghs_hostile_examples`. Next: `ghs_graph`, which makes
//! ports and forests of a `RawGraph`.
#![tactic(auto)]

mod arc;
mod check;
pub mod device;
mod digits;
pub mod fault;
pub mod judgement;
mod key;
pub mod laws;
mod line;
mod pass;
mod problem;
pub mod raw_graph;
mod reading;
pub mod steps;
pub mod text;
