//! Sweeps of any protocol: many runs of networks side by side, a line of figures for each seed, or what they come to.
//!
//! Proved: `run_seeds` puts the figures of the runs of exactly these seeds, rising, behind those that there are, whatever
//! the number of threads (`runs`, `count`), for each protocol that can be swept (`Swept`). `ByRules` sweeps any protocol that
//! finds a tree, has words and whose messages have lengths: the figures are of the run that the seed's schedule picks
//! (`AreFiguresOf`), and `counts_of` has what is counted of a net of any protocol (`AreCounts`). `put_head` and `put_runs` append
//! the names of the columns and a line each (`head_line`, `run_lines`), and `put_summary` a line for each measure that the runs
//! have (`AreSummaryLines`). Which column a count of messages stands in comes from the names of kinds (`Table::of`, and
//! `Table::by` for a protocol that is known only when the program runs: `layout_of`). Of each protocol the bound is the graph's
//! (`law_bound_is_fixed`).
//!
//! If allocation fails the figures that there were stay (`err`). A summary is of up to 2^32 runs. Kinds of messages behind the
//! eighth have no column. By `ByRules` each run is measured while it is made. `peer_report` makes these runs, `ghs_sweep`
//! those of GHS, and `ghs_chart` draws figures.
#![tactic(auto)]

pub mod column;
pub mod figures;
pub mod front;
mod json_line;
pub mod laws;
pub mod line;
pub mod lines;
pub mod measure;
pub mod rules;
pub mod runs;
pub mod setup;
pub mod summary;
pub mod swept;
pub mod table;
mod teller;
