//! The graphs of the tests: texts, runs of some of them, and the graph of a text. Tests alone use them, so nothing here
//! has a contract. The run of the triangle (`traces`) is page/samples/triangle15.trace, which docs/class/LESSON.md tells event
//! by event.
#![tactic(auto)]

pub mod build;
pub mod graphs;
pub mod traces;
