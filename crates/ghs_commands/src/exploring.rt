//! What an exploration is asked for.
ghost use Rattle.clap.specs.Words.{subcommand_rows_of};
ghost use Rattle.ghs_commands.specs.Job.{AreExploreLimits, AreExploreOptions, IsFinding};

use crate::job::{number_of, value_of, wake_of};
use crate::values::is_text;
use clap::ArgMatches;
use peer_network::wake_set::WakeSet;

/// How many states the runs may lead to at most.
pub const MOST_STATES: u32 = 10_000_000;

/// What of an exploration is printed.
#[derive(Clone, Copy, Debug, PartialEq, Eq)]
pub enum Finding {
    /// With which counts of messages the runs end.
    Ends,
    /// The events of a run that ends with the counts of one of them.
    Run,
}

/// Which exploration of all runs of a network is made.
#[derive(Clone, Copy, Debug, PartialEq, Eq)]
pub struct ExploreOptions {
    /// Which nodes wake by themselves.
    pub wake: WakeSet,
    /// How many states the runs may lead to, 1 to 10^7.
    pub limit: u32,
    /// What is printed.
    pub finding: Finding,
    /// The number of the end whose run is printed, where one is; 1 and more.
    pub end: u32,
    /// Whether standard error is told how many states have been met.
    pub progress: bool,
}

/// Which exploration is to be made.
pub(crate) fn exploration_of<'a>(matches: &ArgMatches<'a>) -> ExploreOptions
    ensures options { AreExploreOptions (subcommand_rows_of matches.now) result }
    ensures limits { AreExploreLimits result }
{
    ExploreOptions {
        wake: wake_of(matches),
        limit: number_of(matches, "limit", 1, MOST_STATES as u64) as u32,
        finding: finding_of(matches),
        end: number_of(matches, "end", 1, u32::MAX as u64) as u32,
        progress: is_text(value_of(matches, "progress"), "true"),
    }
}

/// What of it is printed.
fn finding_of<'a>(matches: &ArgMatches<'a>) -> Finding
    ensures { IsFinding (subcommand_rows_of matches.now) result }
{
    if is_text(value_of(matches, "found"), "trace") {
        Finding::Run
    } else {
        Finding::Ends
    }
}
