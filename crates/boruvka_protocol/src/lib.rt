//! Borůvka in step, a protocol whose fragments take one level after another, in every run of every graph, however its events
//! interleave; and levels of a graph, as in Borůvka's algorithm: all classes of nodes take their least ways out at once, again and
//! again. No code but `laws`.
//!
//! Proved of every graph: what is taken lies in the minimum spanning forest (`law_taken`, `law_inside`), and is all of it where
//! no class has a way out (`law_whole`), as at the floor of log2 of the nodes (`law_last_level`). A class of level l has at least
//! 2^l nodes (`law_class_sizes`) and one core, to which least ways out lead (`law_one_core`, `law_ways_to_core`). Ways up lead
//! to its top, and each node knows the least link out from below by its children (`law_ways_up`, `law_subs`). Nothing here computes
//! a level: the definitions are relations. Their values on small graphs stand in `proofs/Examples.antt`.
//!
//! Proved of the protocol, for N nodes, E links and K the floor of log2 N, the greatest number with 2^K at most N (`law_floors`):
//! each lawful event has a rule (`law_rules`); each Branch link lies in the minimum spanning forest, and no Inside link does
//! (`law_branches`, `law_inside`); no run sends more than 2EK + 3NK + N messages (`law_sends`), which is below 2^64
//! (`law_bound_fits`), nor has more than N events more (`law_short_runs`). A halt is the end: where a node has halted, the links of
//! the forest in its component are Branch at both ends, no other link there is Branch, and no message waits there (`law_halt`).
//! Silence is the end: where no message waits in the component of a node that is awake, one node of it has halted, and no other
//! (`law_silence`).
//!
//! Each node keeps its ports (`law_nodes`); who sleeps is as at the opening, and has sent nothing (`law_sleepers`); no node
//! falls asleep or loses level (`law_awake`, `law_levels`); a run has at most as many events as messages sent and nodes
//! together (`law_events`).
//!
//! `proofs/invariant` has the clauses that every net of a run keeps (`proofs/every_run`), since each row of the table does
//! (`proofs/rows`). What follows from them stands in `proofs/follows` and `proofs/bound`. Next: `specs/Levels.antt`, then
//! `boruvka_node`, the rules, and `boruvka`, the protocol as a program.
#![tactic(auto)]

pub mod laws;
pub mod level_laws;
