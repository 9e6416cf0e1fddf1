//! Seeded runs and replays of any protocol, in a net of one thread whose lawful events stand in an index.
//!
//! Proved, for each protocol P: a `World<P>` has a run of the rules of P, in which only nodes of its wake set wake by
//! themselves (`World::net`: `run`), and `is_ready`, `ready_count` and `ready_at` answer for exactly the events that may
//! happen. `World::play` makes exactly the one event, or leaves all as it was (`played`, `err`). `run_seeded` makes exactly
//! the events that its schedule picks, each among those that are lawful at that moment (`run`, `whole`), until none is
//! (`over`) or the events have come to the turns (`limit`, `at_limit`); each seed has one run (`law_seeded_run`). `run_followed`
//! makes the same run, and a `Follower` keeps something of it from event to event (`kept`). Memory aside,
//! `replay` gives the world after a list of events exactly where it is a run, and else names the first that isn't lawful
//! (`ok`, `fault`).
//!
//! Beside its reaction an event takes O(1) for each message that it sends, and a pick O(log N). Not proved: that a seeded run
//! comes to its end, which is the protocol's affair. Next: `peer_examples`, where the echo wave runs so.
#![tactic(auto)]

pub mod fault;
pub mod follower;
pub mod laws;
pub mod replay;
pub mod run;
mod upkeep;
pub mod world;
