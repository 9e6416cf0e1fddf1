//! Output texts: of a tree, and of a net or a world whose run has ended; the cores of a graph's components; and writing a text
//! out. docs/FORMATS.md has the formats.
//!
//! Proved: `tree_text` is a line for each link and one for their weight. `report_text`, of a net, and `run_text`, of a
//! world, are the text of a run that has ended: its forest, the messages sent, their sum and the bound (`text`, by
//! `IsReportText`), and are refused exactly where the run goes on (`not_ended`). `write_out` writes the first bytes, and
//! at success all (`ok`, `err`).
//!
//! Proved of cores: `components_of` has each component once, with the core and level to which merging the graph leads in whatever
//! order (`AreAll`, `IsOfGraph`); `put_graph_cores` puts their lines behind a text, and `put_ended_cores` those with which a run
//! has ended. In every run the two are the same (`law_cores_agree`). That merging takes O(N + E log N) steps is not proved.
//!
//! `put_field` and `put_word` put a field of a line of comma separated values, and `total_weight` adds up what links weigh.
//! `send_portion` and `send_off` write long texts by portions of 65,536 bytes, for `ghs_make` and `ghs_steps`.
#![tactic(auto)]

pub mod component;
pub mod core_laws;
pub mod core_lines;
pub mod ended_cores;
pub mod fields;
mod fragments;
pub mod merging;
pub mod portions;
pub mod report_text;
pub mod run_text;
pub mod tree_text;
pub mod weight;
pub mod write_out;
