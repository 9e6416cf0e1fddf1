//! All runs, for a page: from a graph's text with which counts of messages the runs end, and a run of each.
//!
//! Proved: `hand_outcomes` hands over the text of `ghs explore`, and behind it the stored run of each row, as `ghs explore
//! --print trace` prints it; or the line of what stands against it (`IsOutcomesAnswer`). Each is so only where it is so: a graph
//! is too large exactly with more than 12 nodes or 20 links, and more states than the limit can be reached where that is said.
//! Out of numbers and out of memory may come anywhere.
//!
//! It has no precondition, and keeps nothing. A caller who wants to tell how far it has come calls with rising limits: as long as
//! there are more states than the limit, that is the answer. Next: `ghs_web`, which exports it.
#![tactic(auto)]

mod any;
mod ghs;
pub mod outcomes;
mod words;
