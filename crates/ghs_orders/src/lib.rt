//! Runs of GHS in an order: what was sent last first, what waits first, or round robin.
//!
//! Proved of `lifo`: `run_lifo` takes first what was sent last, as long as a message would be consumed; where none would be, the
//! schedule picks patiently (`run`, by `IsLatest`). It has at most 2(B + N) events, B the bound on messages and N the nodes
//! (`short`), and where turns and ticket numbers for so many are left it ends, unless memory runs out (`ends`). Which Take is next
//! is determined by the events so far (`law_latest_is_one`). `Latest` takes some 28 bytes an event, and 4 a node.
//!
//! Proved of `waits`: as long as a message would only be put back, `run_waiting` takes one of these next, as its schedule picks
//! (`run`). Halted comes exactly where the run has ended (`halted`, `going`), and TurnLimit only where no turn or ticket number is
//! left (`fault`). Nothing is said of its end: a message that waits alone at its port is put back again and again, until the turns
//! are used. `Waiting` keeps these events at a bit an event.
//!
//! Proved of round robin: lap after lap the ports are gone over in their order, and from each that holds a message when its place
//! comes one is taken; nodes that may wake do so in the first lap. `run_round_robin` makes exactly these events (`run`, by
//! `IsPickedInTurn`), in at most 2(B + N) laps (`laps`), so at most 4E(B + N) + N of them, E the links (`short`); and where turns
//! for so many, and ticket numbers, are left it ends, unless memory runs out (`ends`). Which event is next is determined by the
//! events so far (`law_turn_is_one`), and each wake is one of the first lap (`law_wakes_come_first`). It is weakly fair: each lap
//! takes from each port that holds, when the lap begins, a message that its node wouldn't put back (`law_laps_are_fair`). It isn't
//! quick: it takes again and again what is only put back.
//!
//! For `lifo` and round robin the world has to stand at its opening. That each event takes O(log N) steps is not proved.
//! `ghs_patient` picks the other way round.
#![tactic(auto)]

pub mod laps;
pub mod latest;
pub mod lifo_laws;
pub mod lifo_run;
mod numbers;
mod order;
mod ranks;
pub mod round_robin_laws;
pub mod round_robin_run;
mod turns;
pub mod waiting;
pub mod waits_run;
