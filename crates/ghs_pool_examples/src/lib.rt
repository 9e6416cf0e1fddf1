//! Worked examples of runs of workers, with threads of the machine. Tests alone.
//!
//! What no contract says is tried here: that two workers have nodes out at once, that one alone serves from the ready
//! queue (`one_worker_serves_from_the_queue`, whose events were found by hand), and that a reader beside a watched run finds a
//! pair while it is under way and the last one at its end. All gates but one define `between` alone.
#![tactic(auto)]

#[cfg(test)]
mod runs;
