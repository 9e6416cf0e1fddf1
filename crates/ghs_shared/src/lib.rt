//! What threads share outside the lock: a board on which one of them publishes how far a run has come, and the queue of ready
//! nodes.
//!
//! Proved of boards, which any thread reads at any time without waiting, one atomic word: `Publisher::publish` appends exactly the
//! pair given; `Board::read` is the last pair of a beginning of all that was published, which begins with all that the reader had
//! seen, so that nothing falls for a reader (`last`, `later`, `rising`); `read_beside`, with the publisher at hand, is exactly the
//! last pair. Only `open` allocates or fails. At most 2^40 commits are published.
//!
//! Proved of queues, bounded queues of numbers with passes that know what was put and taken by them: when a queue is closed by the
//! pass with all of its shares, each number was taken or is left as often as it was put (`close`: `ok`, by `Closes`), and first in,
//! first out where there is one share. A put that is refused, and a take that gives none, leave the pass as it was.
//!
//! Only tested (`ghs_examples`): that a read loads the word; that a pass with some of the shares is refused only by a full queue,
//! and given none only by an empty one. Next: `ghs_pool`, which publishes each commit of its workers on one board, and whose
//! workers look where a queue says; no promise rests on it there.
#![tactic(auto)]

pub mod board;
mod board_rule;
mod pass_view;
pub mod progress;
pub mod queue;
mod queue_rule;
