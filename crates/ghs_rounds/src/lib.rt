//! Runs by rounds, which time a run: each message takes one unit of time, and computing none.
//!
//! Proved: `run_rounds` makes exactly the events that its schedule picks by rounds, and says in how many (`run`). No
//! chain has more messages than there were rounds (`chain`), and once the run has ended its longest chain has as many
//! (`law_rounds_are_chains`). There are at most B + N rounds (`law_rounds_are_few`) and 2(B + N) events
//! (`law_runs_by_rounds_are_short`), B the bound on messages and N the nodes.
//!
//! The rounds are told by chains; that the messages of a round are those sent before it is a law
//! (`law_picks_are_by_moments`). The bounds of the literature hold of every run by rounds, in whatever order
//! (`law_awake_rounds`, `law_simple_rounds`).
//!
//! `ghs_tool_examples` has numbers of rounds that `bench/rounds` counts. The world has to stand at its opening.
#![tactic(auto)]

mod choices;
mod clock;
pub mod laws;
mod rounds;
pub mod run;
