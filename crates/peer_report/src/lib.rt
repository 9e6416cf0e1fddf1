//! Reports of a run of any protocol: whether it has ended, the links that it has found, its text once it has ended, and the
//! text of all runs of a small network; and runs that a seed's schedule picks. docs/FORMATS.md has the formats.
//!
//! Proved: `ended`, of a world, and `net_ended`, of a net, say whether the run has ended, as the protocol means it (`Ends`).
//! `link_ports` are the links of a graph with their ports at both ends, `branches` the branch links, in key order, and what the
//! protocol finds once the run has ended (`FindsTree`). `report_text`, of a net, and `run_text`, of a world, are the text of a run
//! that has ended, and are refused exactly where it goes on.
//! `account_text` is the part without links, and `put_account` that part of a run that may go on. `run_by_seed` leaves the world
//! after the seed's run, which has ended or has used its turns; with turns for the bound and the nodes together no run stops for
//! lack of turns (`law_turns`). `run_followed_by_seed` does the same while a follower follows the run. `explored_text` prints what
//! `peer_explore` finds.
//!
//! `branches` and `net_ended` go over all nodes and links, `ended` asks one number. Next: `peer_machine`, the traits.
#![tactic(auto)]

pub mod account;
pub mod branches;
pub mod ended;
pub mod explored_text;
pub mod laws;
pub mod links;
pub mod report_text;
pub mod run;
