//! An index of a network's events: some of them are marked, and the marked ones are counted and found in their order, by
//! node, Wake before ports, ports rising.
//!
//! Proved: `Index::none` and `unmarked` mark no event; `set` and `mark_far_take` change one mark; `count`, `kth`, `has_any`,
//! `first_take` and `node_from` answer for exactly the marked events (`IsIndexOf`). `Places` says which event stands
//! where, for rows that keep more than a mark.
//!
//! Of placed events: `placed` and `kth_placed` give an event with the place of its node's Wake (`IsPlaced`), and
//! `set_placed` and `mark_far_take_placed`, which take one, change the mark that `set` and `mark_far_take` would.
//! `Placed::wake` and `Placed::take` lead to the other events of its node, `far_take_placed` to those at its far ends.
//!
//! An index takes 4 bytes a node, and 12 bytes, a bit and a sixteenth of a bit an event: the node of each place, the
//! place at its far end and that of the node's Wake are stored, and not searched for. All but the bits is shared by the
//! indexes of one graph (`unmarked`). A world keeps its lawful events in one (`ghs_world`, `peer_runs`), a patient run
//! those that move it on (`ghs_patient`).
#![tactic(auto)]

mod bases;
mod ends;
pub mod index;
pub mod placed;
pub mod places;
