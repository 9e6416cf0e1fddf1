//! The rules of a user's book, as a protocol: each node does what the book answers; and its runs.
//!
//! A node's state is a text of the book, by its number; so is a message. At an event the node is asked as `own_book` spells it,
//! and the book's first answer to just that says its next state, whether it defers the message, and what it sends. A node to
//! which the book has no answer, or one that no node may give, *stops* (`Stop`): it stays so, sends nothing, and says at which
//! question and why. So every work has a reaction. A node also stops once it would send more messages than its `Allowance` says.
//! In a run each that it defers counts as one of them (`RUNNING`); where all runs are explored, none does (`EXPLORING`).
//!
//! Proved: whatever the book says, each lawful event has a rule, no run sends more than so many messages for each node, who has
//! got work is awake, and where deferrals count, each run comes to an end (`law_rules`). `Rulebook` is a book with its texts
//! numbered and its answers found by numbers; contracts see the entries of the book alone. `Told` is an `impl Protocol` whose
//! rules are those of the book that a type names (`Chosen`), which a call picks when a run begins: `run_book` gives the events
//! that a seed's schedule picks of a graph by the rules of this very book, to the end or to the last turn (`IsRunBy`), and the
//! code that runs it knows no book; what is told of it is exact (`IsTold`): the nodes that have stopped then, the questions that
//! the book lacks, what is said of nodes that have stopped by an answer, how many messages were sent, and what is wrong with the
//! end by a check that was asked for (`IsChecked`): marks of the minimum spanning forest or of a spanning forest, one leader in
//! each component, or that all nodes have halted. `Told` is `Spoken`: a message has its kind and all that stands in its brackets,
//! a node the variables of its state and the words of `marks`, and the row says what the book did. `Told` is `Measured`: a
//! message has the bits that the types of its kind give to its values (`bits_of`), 4,294,967,295 at most.
//!
//! Not claimed: that the book is the answers of a program. Questions are compared field by field: that the entry that answers is
//! the one whose question has the very text that is asked, isn't proved here. Read `specs/Rules.antt` and `specs/Deed.antt` first,
//! then `specs/Run.antt`, `specs/Check.antt`, `specs/Stops.antt`, `specs/Faults.antt`, `specs/Words.antt` and `specs/Bits.antt`.
#![tactic(auto)]

mod bits;
pub mod check;
mod deed;
pub mod explorable;
mod face;
pub mod faults;
pub mod lacks;
pub mod laws;
pub mod looks;
pub mod node;
mod places;
pub mod protocol;
mod ready;
pub mod rulebook;
pub mod run;
mod spoken;
pub mod stops;
pub mod texts;
mod viewed;
