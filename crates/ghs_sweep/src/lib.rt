//! How GHS is swept: how a seed's run is made and measured.
//!
//! Proved: `Ghs` can be swept (`Swept`): the figures of a seed are those of the run that its schedule picks (`AreFiguresOf`),
//! among them the messages by kind, the fragments and their greatest level, the weight of the Branch links, the run's longest
//! chain, its bits and its longest message. In all runs of a graph that have ended Connects, bound, level, fragments and weight
//! are the same (`law_fixed_measures`).
//!
//! `figures_of` has the figures of a net. `peer_sweep` makes lines and summaries of them, `ghs_picking` the runs.
#![tactic(auto)]

pub mod figures;
pub mod laws;
pub mod seeded;
