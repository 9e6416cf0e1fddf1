//! The world: a net from which nodes go out on tickets and come back as commits. Its net is the home view, in which what
//! is out still stands where it was; so what is proved of nets holds of it, whatever is out.
//!
//! Proved: `World::check_out` gives a lawful event with the home view's node and work, or the first refusal that applies
//! (`ticket`, `fault`); `Ticket::perform` makes the table's row; `commit` makes exactly the event of a step that is out,
//! or hands it back and changes nothing (`commits`, `err`). Where nothing is out and nothing ready the run has ended
//! (`ended`: `still`).
//!
//! There may be 1 to 2^40 commits, as many as its turns. Steps of other worlds are tried in `ghs_run_examples`. Next:
//! `ghs_sched`, which picks events by a seed, and `ghs_pool`, where threads serve a world.
#![tactic(auto)]

pub mod fault;
pub mod laws;
mod outs;
pub mod ready;
pub mod ticket;
mod upkeep;
pub mod woken;
pub mod world;

pub use ghs_core::event;
pub use peer_network::wake_set;
