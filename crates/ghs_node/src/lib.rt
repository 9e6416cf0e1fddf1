//! One node of the network: what it keeps (`Node`), what it may be told (`Work`, `Message`), and its reaction (`react`),
//! by the procedures of Gallager, Humblet and Spira. The table of reactions, in words, is docs/PROTOCOL.md.
//!
//! Proved: `react` answers exactly the table's row for the node's state and the work (`reaction`, `row`), NoPort and
//! Unforeseen exactly where they belong, and out of memory only where the row sends something. The table is whole: each
//! pair of state and work has one row, or stands on the list of those that have none (`law_table_is_whole`,
//! `law_row_is_one`, `law_list_has_no_row`).
//!
//! `react` leaves the node as it is; `Node::apply` makes the change, and doesn't allocate. `ghs_examples` has an example
//! of each row. Next: `ghs_protocol`, where many nodes react.
#![tactic(auto)]

pub mod delta;
mod draft;
pub mod fault;
pub mod head;
pub mod kind;
pub mod laws;
pub mod level;
pub mod mark;
mod marks;
pub mod message;
pub mod node;
mod procedures;
pub mod react;
mod responses;
pub mod row_name;
pub mod sends;
pub mod work;
