//! What texts say of any protocol: values and their texts, as text and as JSON, and the trait of a protocol whose messages,
//! rows, marks and variables have names.
//!
//! Proved: each `put_` function appends exactly the text of its value, and takes nothing away. `Spoken` ties a protocol's words
//! to its rules: a message's kind and values, the row by which a node reacts, a node's variables and marks; by its law
//! `keeps_marks` a change tells which ports may get other marks. The words are lent by the protocol's setting, so they may be
//! known only when it runs; those of `FixedWords` are there before. `Viewed` adds what the page of a run is told of its protocol.
//!
//! A value that is a word may have any printable ASCII, and JSON gets it with its escapes. Names have no quote and no backslash,
//! so they need none. Next: `peer_steps`, the line of an event.
#![tactic(auto)]

pub mod fixed_words;
pub mod json;
pub mod same;
pub mod spoken;
pub mod text;
pub mod value;
pub mod viewed;
