//! What each event of a run does, as a line of text or of JSON: the row of the table, what changed at the node, what it
//! sent.
//!
//! Proved: `write_steps` writes exactly the lines of the chosen events of a stored run (`ok`), and names the first event
//! that isn't lawful before it writes a byte (`unlawful`). What the lines say leads from the state at any moment of a run
//! to the state after it, without a rule of the protocol (`law_deltas`).
//!
//! The lines go out by portions, so the memory doesn't grow with the text, and a run is played twice. Worked runs:
//! `ghs_tool_examples`. Next: `ghs_view`, the same lines on a page, and `ghs_parts`, which counts over them.
#![tactic(auto)]

pub mod change;
pub mod json;
pub mod laws;
pub mod line;
pub mod moment;
pub mod sent;
pub mod show;
pub mod words;
pub mod write;
