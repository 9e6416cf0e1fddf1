//! Texts of lines: their lines, the fields of a line, and decimal numbers, read and written. Graph texts (`ghs_gr`),
//! traces (`peer_texts`) and all that is printed are made of these.
//!
//! Proved: `next_line` and `next_field` cut a text into exactly its lines and a line into exactly its fields (`lines_of`,
//! `fields_of`); `number` gives a number exactly where a field is digits of one within the limit (`number_of`), and
//! `put_number` appends its digits. The limit has to be below 2^60. Only `put_number` allocates.
#![tactic(auto)]

pub mod fields;
pub mod lines;
pub mod numbers;
