//! The text of a trace: a list of events, written and read.
//!
//! Proved: `write_trace` and `read_trace` are exact, and what was written is read back (`law_trace`); each text has one
//! list of events or one fault (`law_one_reading`).
//!
//! Whether an event names a node or a port of a graph isn't asked here. A trace has at most 2^40 events (`EVENT_LIMIT`).
//! Next: `peer_trace`, whose heads name the protocol.
#![tactic(auto)]

pub mod fault;
pub mod laws;
mod line;
mod reading;
pub mod trace;
