//! The text of a book: what a user's node answers to questions, and what is asked of an answer beyond its form.
//!
//! A node that a user brings is a function from text to text. The runtime asks, for example, what node 2 does in this state with
//! this message; the answer says the state after it, whether the message waits, and what is sent. A *book* is such a function
//! as a text, a line `QUESTION = ANSWER` for each question that was asked.
//!
//! Proved: a line is a question with an answer exactly where the grammar says so (`meaning`), and `read_answer` says what an
//! answer says (`saying`). Memory aside, `read_book` gives a book exactly where no line has a fault, with the entries of those
//! lines (`IsBook`); it refuses every other text with the first fault of its first faulty line (`HasFault`). Two different
//! answers to one question are refused by the numbers of both lines. `Book::answer` says what the book says. What was read and
//! written is read back (`law_book`), and each text is one book or has one fault (`law_one_book`).
//!
//! Proved of an answer: `same_at_ports` answers yes exactly where each port has the same messages in the same order
//! (`SameAtPorts`); `sends_fault` gives the fault of the first send that has one; `says_asleep`, `says_halted` and `says_leader`
//! find their variable wherever it stands in a state.
//!
//! A question may stand twice with the same answer: the second line says nothing new, so two books of one node put behind each
//! other are a book exactly where they don't contradict each other.
//!
//! That a node isn't left asleep by work, and whether its ports and kinds are there, is for whoever asks `sends` and `variables`:
//! reading a book asks neither. Read `specs/Question.antt` and `specs/Answer.antt` first, then `specs/Book.antt`.
#![tactic(auto)]

pub mod answer;
pub mod answer_fault;
pub mod asking;
pub mod book;
pub mod fault;
pub mod kind;
pub mod laws;
pub mod line;
pub mod parts;
pub mod question;
pub mod sends;
pub mod variables;
mod words;
pub mod writing;
