//! Texts of stored runs whose head names the protocol.
//!
//! A run of GHS is stored as `trace COUNT` and a line for each event, as `peer_texts` writes and reads it. A run of another
//! protocol has its name in the head: `trace boruvka COUNT`, `trace echo COUNT`. A run of a user's own protocol has the mark of its
//! book there (`OwnMark`): `trace own NAME entries N sum HEX COUNT`.
//!
//! Proved: `write_trace_of` writes exactly that text (`stored_text`). `read_trace_of` gives the events exactly where the head
//! names the protocol that is asked for and the lines are a trace's (`HasEventsOf`); a text whose head names another one is
//! refused by its name, and every other with its first fault, in the stored text's own lines (`HasFaultOf`). What was written
//! is read back, and refused when another protocol is asked for (`law_stored_trace`); a text has one reading
//! (`law_one_stored_reading`); runs of GHS are read as `peer_texts` reads them (`law_ghs_trace`). `write_own_trace` and
//! `read_own_trace` are as exact for a user's own protocol (`own_text`, `HasOwnEvents`, `HasOwnFault`; `law_own_trace`,
//! `law_one_own_reading`), and `read_trace_of` refuses such a text as Own.
//!
//! Whether the events are a run of a graph isn't asked here, nor whether a book fits a mark. A text whose head has a name or a mark
//! is copied once, without it, to be read. Read `specs/Head.antt` and `specs/Mark.antt` first. Next: `peer_texts`, which has the lines and the faults.
#![tactic(auto)]

pub mod fault;
mod head;
pub mod laws;
pub mod mark;
pub mod own;
pub mod protocol;
pub mod trace;
