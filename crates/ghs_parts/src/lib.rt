//! Figures of a run of GHS by part: by the node that sends, by the level at which it sends, by the rule that applies.
//!
//! Proved: `parts_of` is the sums over the steps of the run (`specs/Parts.antt`), and `put_run` appends their lines, which are
//! those of any protocol (`peer_parts`). Each row of the table has a line, in its order, whether it applied or not.
//! Nothing is left out: what all nodes have sent is what was sent (`law_nodes`), so is what was sent at all levels
//! (`law_levels`), and all rows together applied as often as events happened (`law_rules`).
//!
//! A run of at most 2^40 events is played once more. `ghs_tool_examples` has one counted by hand. `ghs sweep --by` prints
//! them.
#![tactic(auto)]

pub mod laws;
pub mod lines;
pub mod part;
pub mod parts;
pub mod rule;
