//! Each allocation of calls of graphs, nets, boards, queues and worlds refused in turn. Tests alone.
//!
//! A call that is refused has to say so, and to hand back what it took: graphs and nets are compared with equal ones, a
//! world with its twin, and the same call is made again. To split a reader or a pass off has to take no memory.
//! `ghs_refusing` gives the orders, on the path of five; docs/REFUSALS.md has the counts.
#![tactic(auto)]

#[cfg(test)]
mod graphs;
#[cfg(test)]
mod nets;
#[cfg(test)]
mod shared;
#[cfg(test)]
mod worlds;
