//! A row of numbers, in which the greatest is quickly found: a tree of greatest numbers in one vector.
//!
//! Proved: `zeros`, `get` and `set` are those of a list; `greatest` is a place whose number is above 0 and no less than
//! any other, and none where all are 0 (`IsGreatest`, `AreZeros`). Which of several such places it is isn't said. That
//! `set` and `greatest` take O(log n) steps is not proved. More than half of `usize::MAX` numbers are refused as out of
//! memory.
//!
//! Next: `ghs_orders`, which finds by it the message that was sent last.
#![tactic(auto)]

pub mod maxima;
