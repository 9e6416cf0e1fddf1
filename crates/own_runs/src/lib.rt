//! Runs by a user's book: the mark that they are stored under, the run played again, its steps, how long it is, sweeps, and all runs.
//!
//! Proved: the mark of a book is its protocol's name, the number of its entries and the SHA-256 of their text (`mark_of`). `fits` says
//! whether a book has as many entries as a stored run's and the first of them the same sum, and else names the first of two reasons
//! (`Misfits`); a book to which answers were added still fits (`law_mark`). `replay_book` plays stored events again by the rules of
//! this very book (`IsReplayBy`), tells of them what `own_rules` tells of a seed's run (`IsTold`), or names the first event that
//! isn't lawful (`CantReplay`). `write_steps_book` writes the lines of `peer_steps` by these rules. `time_by_book` has a run's longest
//! chain, its bits and its longest message (`AreLengths`). `figures_by_book` has the figures of the run that a seed picks, which
//! has ended where no event may happen any more and no node has stopped (`AreFiguresBy`), and `table_by_book` the columns of
//! their lines (`layout_by`), or it says that there are more than eight kinds of messages. `explore_book` tells of all runs of a small
//! network what the book lacks, a run in which nodes have stopped, one that can't be brought to an end, one whose end a check finds
//! wrong, or with which counts they end (`IsExploredBy`).
//!
//! Not claimed: that two books with one sum are the same; that is SHA-256's promise. Worked examples: `own_examples`. Next:
//! `own_rules`, which has the rules, and `peer_trace`, which has the text.
#![tactic(auto)]

pub mod again;
pub mod explore;
pub mod laws;
pub mod lengths;
pub mod mark;
pub mod steps;
pub mod sum;
pub mod sweep;
