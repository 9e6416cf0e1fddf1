//! Worked examples of the lower crates, each public call once with ample memory: graph texts, graphs and trees, rows of
//! flags, boards, queues, lines, a node's reactions row by row and along a path, texts of traces and picks of schedules.
//! Tests alone.
//!
//! Graph texts (`graph_texts`) have the fault that docs/FORMATS.md gives each, and are read from readers of all kinds and
//! by `judge`, and so are their numbers (`digits`); `trees` has logarithms, bounds, ports and forests, of graphs that are
//! small enough to check by hand (`ghs_test_graphs`).
//!
//! The reactions (`rows`, `paths`) are of node 2 of a small graph (`fixtures`), found by hand from the table in
//! docs/PROTOCOL.md. The picks are what SplitMix64 and Xoshiro256++ give as their authors publish them. Boards are also
//! read, and queues used, by threads beside one another.
#![tactic(auto)]

#[cfg(test)]
mod boards;
#[cfg(test)]
mod digits;
#[cfg(test)]
mod fixtures;
#[cfg(test)]
mod flags;
#[cfg(test)]
mod graph_texts;
#[cfg(test)]
mod lines;
#[cfg(test)]
mod paths;
#[cfg(test)]
mod queues;
#[cfg(test)]
mod rows;
#[cfg(test)]
mod traces;
#[cfg(test)]
mod trees;
