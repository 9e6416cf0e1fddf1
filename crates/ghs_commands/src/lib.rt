//! Command lines: the words that the program takes, and what they ask for.
//!
//! Proved: `read_job` gives a `Job` exactly for words that the grammar accepts, with the task that they name and its
//! options (`task`), the files (`graph`, `trace`, `networks`, `book`), what its end is checked for (`check`), and all numbers
//! within their limits (`limits`); other words are refused or get help, by what is wrong with them (`fault`). The texts of
//! help and of refusals are only tested (`cases/`).
//!
//! Limits have names: `MOST_NODES`, `MOST_WORKERS`, `MOST_SEEDS`, `MOST_STATES`. Next: `ghs_cli`, which does the job.
#![tactic(auto)]

mod checks;
pub mod exploring;
mod fitting;
mod grammar;
pub mod job;
mod networks;
pub mod parts;
mod protocols;
pub mod two_seeds;
pub mod values;
mod wakers;
