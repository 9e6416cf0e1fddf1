//! A run that a hand leads: from a graph's text and a trace's text what a page has to be told, or the run that goes on
//! from there by a seed. Nothing is kept between two calls.
//!
//! Proved: `hand_seen` hands over the data of the run so far with the events that may come next, or the first fault
//! (`IsSeenAnswer`); `hand_run` the text of the run that goes on by a seed (`IsRunAnswer`). An event is offered exactly
//! where the trace with it added is a run (`law_offered`).
//!
//! An answer that doesn't fit into the buffer changes nothing, and says how long it is (`IsHandedOver`). No call has a
//! precondition. What speaks of no protocol stands in `peer_hand`. Next: `ghs_web`, which exports the two.
#![tactic(auto)]

pub mod answers;
pub mod going;
pub mod laws;
pub mod led;
pub mod seen;
pub mod timed;
