//! The columns of lines.
use crate::measure::Measure;
use peer_words::value::Word;

/// A column: its name, what is measured in it, and whether that has one value in all runs of a graph that have ended.
#[derive(Drop)]
pub struct Column<'w> {
    pub name: Word<'w>,
    pub measure: Measure,
    pub is_fixed: bool,
}
