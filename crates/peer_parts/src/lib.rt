//! Figures of a run of any protocol by part: by the node that sends, or by the row that applies.
//!
//! Proved, for each protocol that has words (`Spoken`): `NodeParts` and `RowParts` follow a run while it is made, so each event
//! is played once, and keep the sums over its events (`specs/Parts.antt`): of each node the messages of each kind, and of each
//! row how often it applied. Nothing is left out: what all nodes have sent is what was sent (`law_nodes`), and all rows
//! together applied as often as events happened (`law_rows`). `put_seed` appends the lines of the run that a seed picks.
//!
//! Rows are found while the run goes on, and stand in the order in which they applied first; no list of them is asked for. An
//! event takes O(R) where R rows have applied. Levels are no part here: `ghs_parts` has those of GHS, and its lines are these.
#![tactic(auto)]

pub mod columns;
mod counting;
pub mod laws;
pub mod line;
pub mod lines;
pub mod nodes;
pub mod rows;
pub mod seeded;
