//! Any protocol in a network of nodes that react to a wake or to a message, with FIFO queues at their ports: its rules, the
//! machine that they make of a network, and the trait of a protocol as a program.
//!
//! Proved for any rules, in every run of every graph: of each kind of messages, what was sent was consumed or waits
//! (`law_kinds`), and so over all kinds (`law_ledger`); no count falls (`law_counts`); each take consumes one message, or
//! defers it, and then it goes to the end of its queue (`law_takes`, `law_deferred`); an event changes no node but its own,
//! and of others' queues the ends of those at its node's far ends alone (`law_others`, `law_queues`). Under rules that never
//! defer a run takes no message twice (`law_taken_once`), and if each event leaves its node awake, it has at most as many
//! events as messages sent and nodes together (`law_ends`).
//!
//! A `Protocol` has its rules as a ghost member, and as laws that each lawful event has a rule, and that what is sent is
//! within a bound. Its rules may depend on what only a running program knows, its `Setting`; where they don't, it is `Fixed`.
//! Its messages can be had once more at no cost (`Again`), and one that carries a list refers to it. One whose messages have
//! lengths is `Measured` (`peer_lengths`); one all of whose runs can be explored is `Explorable`, and `Finite` if none goes on
//! for ever (`peer_explore`); one whose runs end in silence with all awake is `Ends`, and if its nodes mark the links that it
//! finds, `FindsTree` (`peer_report`). The machine mirrors that of `ghs_protocol`, over the same networks and events
//! (`peer_network`). Read `specs/Rules.antt` and `specs/Net.antt` first.
#![tactic(auto)]

pub mod again;
pub mod ends;
pub mod explorable;
pub mod fixed;
pub mod laws;
pub mod measured;
pub mod protocol;
pub mod work;

pub use peer_network::event;
