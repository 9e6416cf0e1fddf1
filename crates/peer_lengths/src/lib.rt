//! How long a run of any protocol is: its longest chain of messages, each sent because of the one before, and the bits of all
//! that it sends.
//!
//! Proved, for each protocol with lengths (`Measured`): `lengths_of` gives the longest chain (`chain`), the bits of all
//! messages (`bits`) and those of the longest (`longest`) of exactly the run of these events, as `specs/Chain.antt` and
//! `specs/Sends.antt` define them over lists of events. Under any rules the messages are as many as the net counts
//! (`law_sends`), their bits are those of each kind together (`law_bits_by_kind`), no more than if each were as long as the
//! longest (`law_bits`), and no chain has more messages than were sent (`law_chain`). A `Meter` follows a run while it is made
//! (`IsMeterOf`), and then tells the same lengths (`AreLengths`).
//!
//! `lengths_of` plays the events once more, a meter plays none. The lengths are those that the rules state, so chosen and not
//! measured. Worked examples: `peer_examples`. For GHS `ghs_picking` says the same.
#![tactic(auto)]

pub mod laws;
pub mod lengths;
pub mod meter;
mod sent;
