//! Runs by rounds, and runs that take first what was sent last, by any protocol that never defers.
//!
//! Rounds time a run: each message takes one unit of time, and computing none. Proved: `run_rounds` makes exactly these events,
//! and says in how many rounds (`run`, `whole`): those that the schedule's words pick of the events of their round, until no event
//! is lawful (`over`) or the events have come to the turns (`limit`, `at_limit`). A message that ends a chain of n messages belongs
//! to round n (`Rounds`). No chain has more messages than there were rounds, and once the run is over its longest chain has just
//! as many (`law_chains_are_within_rounds`, `law_rounds_are_chains`).
//!
//! `run_lifo` makes exactly these events: the Take at the port to which a message was sent last, of those at which one waits, and
//! where none waits the wake that the schedule's next word picks; it ends as rounds do. Each seed has one such run
//! (`law_lifo_run`), and which Take is next is determined by the events so far (`law_latest`).
//!
//! The world has to stand at its opening. An event takes 16 bytes and two bits by rounds, and 20 bytes where the last comes first,
//! with 4 a node; that beside its reaction an event takes O(log N) steps, and each message that it sends O(1) or O(log N), is not
//! proved. Next: `ghs_rounds` and `ghs_orders`, where a message can wait that would only be deferred.
#![tactic(auto)]

mod latest;
pub mod lifo_laws;
pub mod lifo_run;
mod round;
mod rounds;
pub mod rounds_laws;
pub mod rounds_run;
