//! The judge: a user's node, as a book of its answers, beside the proved nodes of GHS, in a stored run or in every run of a
//! small network.
//!
//! Beside each node of the proved net stands what the book says of its state. At each event the book is asked the work that
//! the proved node gets: the node's first state at its first event, and then what the node does. An answer agrees if it defers
//! the message or not, sends at each port, and halts or not, as the reaction does; in which order the ports have their turns is
//! free. So a node's state may look as its author likes, and there is one net as long as they agree.
//!
//! Proved of a stored run: `judge` gives the verdict of the run and the text of that verdict (`IsJudgement`); `judge_stored`
//! judges the run first, and names the first event that isn't lawful (`judged`, `run`, `fault`). `law_verdict`: where the verdict
//! is that the book agrees, each event agrees; where an answer fails or differs at an event, all events before it agree.
//! `law_looks`: an event agrees where the book's answer is the reaction, and differs where it isn't. `law_open`: a question is
//! open only where the book has no answer to it. The earliest event that doesn't agree decides. Behind an open question the run
//! is gone on with for the questions of the other nodes, of each the earliest.
//!
//! Proved of all runs (`judge_orders`, `outcome`): `Agrees` says that the verdict of every run under the wake set is that the
//! book agrees, the number of states that runs lead to, and the rows of the table by which nodes react in runs. `Tells` has a
//! run at whose last event an answer differs or has a fault, and every run of fewer events agrees: so it's a shortest one.
//! `Asks` has the questions that runs of so many events ask, each once and no other; every run of fewer events agrees.
//! `large`: a graph is refused as too large exactly if it is.
//!
//! A state of that search is one of the net, in the numbers of `ghs_explore`, and for each node the text of what the book says of
//! it; the states are met by the number of events that lead there. Where both happen after as many events, a difference is told
//! and no question. That the search ends with `TooMany` only where there are more states than the limit is only tested.
//!
//! That the book is the answers of a program isn't said: the program is no part of this. Worked runs: `own_examples`. Read
//! `specs/Look.antt` first, then `specs/Verdict.antt`, `specs/Outcome.antt`, and `specs/Orders.antt`, what the search keeps.
//! Next: `own_book`, what is asked of an answer, and `ghs_explore::moves`.
#![tactic(auto)]

pub mod asking;
mod deed;
pub mod end;
mod joint;
pub mod judge;
pub mod laws;
pub mod look;
pub mod orders;
pub mod outcome;
mod question;
mod questions;
mod report;
pub mod rows;
pub mod text;
mod texts;
