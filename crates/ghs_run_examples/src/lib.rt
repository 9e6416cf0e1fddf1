//! Worked examples of nets and worlds, as tests alone: roots and components, queues, nets played event by event, worlds
//! served ticket by ticket, steps that a world doesn't take, and runs of a seed.
//!
//! The graphs are small enough to count by hand (`ghs_test_graphs`). Where nodes are served in turn every fragment is
//! measured after every event, and the sum of messages sent compared with the most that a run sends (`nets`).
#![tactic(auto)]

#[cfg(test)]
mod bits;
#[cfg(test)]
mod commits;
#[cfg(test)]
mod comparing;
#[cfg(test)]
mod graphs;
#[cfg(test)]
mod nets;
#[cfg(test)]
mod queues;
#[cfg(test)]
mod runs;
#[cfg(test)]
mod strangers;
#[cfg(test)]
mod texts;
#[cfg(test)]
mod worlds;
