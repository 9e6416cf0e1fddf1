//! A run of any protocol that a hand leads: from a graph's text and a trace's text what a page has to be told, or the run that
//! goes on from there by a seed; and what such calls have in common, whatever the protocol. Nothing is kept between two calls.
//!
//! Proved, for each protocol P whose runs end (`Ends`) and have pages (`Viewed`): `hand_seen` hands over the data of the run so
//! far with the events that may come next, or the first fault (`IsSeenAnswer`); `hand_run` the text of the run that goes on by a
//! seed (`IsRunAnswer`). An event is offered exactly where the trace with it added is a run (`law_offered`). `hand_over` hands
//! over any text, or the line of a fault.
//!
//! An answer that doesn't fit into the buffer changes nothing, and says how long it is (`IsHandedOver`). A call asks for nothing
//! but a setting by which P goes (`goes_by`). A protocol whose runs end in silence defers nothing, so no offer is said to wait.
//! Next: `ghs_hand`, the same of GHS, whose nodes defer.
#![tactic(auto)]

pub mod answers;
pub mod choices;
pub mod fault;
pub mod going;
pub mod handing;
pub mod laws;
pub mod led;
pub mod seen;
pub mod texts;
pub mod timed;
pub mod words;
