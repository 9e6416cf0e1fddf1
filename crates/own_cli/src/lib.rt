//! What the program does by a user's book: judges a node, and runs, plays again and tells what goes by the rules of the book.
//!
//! Proved: `run_by_book` has written exactly what the run comes to (`run`). `stored_by_book` reads a stored run by this book, of
//! which `replay_by_book`, `steps_by_book` and `stored_view_by_book` write what it comes to, its steps and its page. `view_by_book`
//! has written the page of one or two runs (`view`), `sweep_by_book` the figures of many (`swept`), and `explore_by_book` what all
//! runs of a small network come to (`explored`). `judge_run` and `judge_all` have written the verdict (`judged`). Runs, stored runs,
//! sweeps and all runs may be checked for how they end. Each says its end by an exit status (`OwnEnd`).
//!
//! Only tested: the built program, by `cases/` and `share/own/test`.
#![tactic(auto)]

pub mod again;
pub mod explore;
pub mod judging;
pub mod run;
pub mod sweep;
pub mod view;
