//! What each event of a run does, as a line of text or of JSON, of any protocol that has words: the row of the rules, what
//! changed at the node, what it sent. docs/FORMATS.md has the format.
//!
//! Proved: `write_steps` writes exactly the lines of the chosen events of a stored run (`ok`), and names the first event
//! that isn't lawful before it writes a byte (`err`, `unlawful`). `put_lines` appends those of all events of a run, and hands
//! out the net behind them. `changes` are all marks and variables that differ, and nothing else.
//!
//! The lines of `write_steps` go out by portions, so the memory doesn't grow with the text, and a run is played twice. A line
//! takes the time of its reaction. Worked runs: `peer_examples`. Next: `ghs_steps`, which has the same of GHS.
#![tactic(auto)]

pub mod change;
pub mod fault;
pub mod json;
pub mod line;
pub mod moment;
pub mod noting;
pub mod sent;
pub mod show;
pub mod write;
