//! A long row of flags, in which the raised ones are counted and found by their rank: a bit a flag, and counts above the
//! bits.
//!
//! Proved: `Flags::set` changes one flag; `count` and `count_before` count the raised ones; `kth` finds the one before
//! which k are raised (`IsKth`), and `first_from` the first from a place on (`IsFirstFrom`).
//!
//! At most 2^31 flags (`FLAG_LIMIT`). Only `lowered` allocates. Steps are counted in comments, and not proved. Next:
//! `peer_index`, which keeps a network's events in such a row.
#![tactic(auto)]

mod counts;
pub mod flags;
mod row;
mod word;
