//! Worked examples of protocols on the second small stack, as tests alone: the echo wave, knocking, Gather and Borůvka in step, played
//! event by event, run by a seed, measured, explored and told line by line; and the texts of stored runs, which name their
//! protocol.
//!
//! The runs, the texts, the numbers and the bits were reckoned by hand from the rules and the formats, or by `bench/echo`,
//! `bench/lifo` and `bench/any_rounds`, and not taken from what the program does. The words of a seed are what SplitMix64 and Xoshiro256++ give as their
//! authors publish them. `runs` has the runs, and `playing` the nets and worlds of a graph's text.
#![tactic(auto)]

#[cfg(test)]
mod boruvka_lengths;
#[cfg(test)]
mod boruvka_lines;
#[cfg(test)]
mod boruvka_nets;
#[cfg(test)]
mod boruvka_nodes;
#[cfg(test)]
mod boruvka_pages;
#[cfg(test)]
mod boruvka_texts;
#[cfg(test)]
mod echo_explored;
#[cfg(test)]
mod echo_lengths;
#[cfg(test)]
mod echo_lines;
#[cfg(test)]
mod echo_nets;
#[cfg(test)]
mod echo_runs;
#[cfg(test)]
mod gather_nets;
#[cfg(test)]
mod knock_nets;
#[cfg(test)]
mod lifo_runs;
#[cfg(test)]
mod playing;
#[cfg(test)]
mod rounds_runs;
#[cfg(test)]
mod runs;
#[cfg(test)]
mod traces;
