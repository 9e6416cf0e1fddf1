//! The network under any protocol: its nodes and their ports, as a graph gives them; the events that may happen there; and
//! which nodes may wake by themselves.
//!
//! Proved: `WakeSet::has` tells whether a node of a graph may wake by itself, and in the set First are exactly the nodes that
//! are their own roots (`law_first`). All else here are definitions, and what follows from them.
//!
//! Next: `peer_machine`, the machine that any protocol makes of a network, and `ghs_protocol`, that of GHS.
#![tactic(auto)]

pub mod event;
pub mod laws;
pub mod wake_set;
