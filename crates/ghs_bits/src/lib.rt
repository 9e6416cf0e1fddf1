//! Bits: how many the messages of a run have, by a stated length of each.
//!
//! Proved: `Widths::length` is the stated length of a message (`length_of`), and `bits_of` gives the bits of all that a
//! run sends and those of the longest message (`sent`, `longest`). By `law_bits_by_kind` they are what the ledger's
//! counts come to, by `law_bits_within_bound` at most the bound on messages, each as long as an Initiate.
//!
//! The lengths are chosen, as docs/class/COMPARE.md says. `bits_of` plays a run of at most 2^40 events once more; `Bits` follows
//! events while they are made (`Follower`). Worked example: `bits` in `ghs_run_examples`. Next: `ghs_picking`, which says
//! them of a seed's run.
#![tactic(auto)]

pub mod bits;
pub mod laws;
pub mod run;
pub mod widths;
