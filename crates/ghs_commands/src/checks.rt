//! What the end of a run is checked for, read and refused.
ghost use Rattle.clap.specs.Words.{subcommand_rows_of};
ghost use Rattle.ghs_commands.specs.Checks.{check_named, is_check};
ghost use Rattle.ghs_commands.specs.Job.{IsRefused, check_in, has_check, value_in};
ghost use Rattle.std.specs.Option.{option_map};
ghost use Rattle.std.specs.Prelude.{◌≡◌, IfErr, OnErr, OnOk, codes, false, true};

use crate::job::{JobFault, value_of};
use crate::values::unknown_choice;
use clap::ArgMatches;
use ghs_choices::check::Check;
use std::alloc::Global;

/// The names of what the end of a run may be checked for.
const NAMES: &[&str] = &["tree", "spanning", "leader", "halted"];

/// What of this name the end of a run is checked for.
fn check_named(name: &str) -> Option<Check>
    ensures { result ≡ check_named name.now }
{
    if name == "tree" {
        Some(Check::Tree)
    } else if name == "spanning" {
        Some(Check::Spanning)
    } else if name == "leader" {
        Some(Check::Leader)
    } else if name == "halted" {
        Some(Check::Halted)
    } else {
        None
    }
}

/// Whether there is no value, or the name of a check.
fn is_check(value: Option<&str>) -> bool
    ensures { result ≡ is_check (option_map (λ t. t.now) value.entry) }
{
    match value {
        Some(value) => check_named(value).is_some(),
        None => true,
    }
}

/// What the end of a run is checked for, where that is asked for.
pub(crate) fn check_of<'a>(matches: &ArgMatches<'a>) -> Option<Check>
    ensures { result ≡ check_in (subcommand_rows_of matches.now) }
{
    match value_of(matches, "check") {
        Some(value) => check_named(value),
        None => None,
    }
}

/// Whether that is asked for.
pub(crate) fn has_check<'a>(matches: &ArgMatches<'a>) -> bool
    ensures { result ≡ has_check (subcommand_rows_of matches.now) }
{
    value_of(matches, "check").is_some()
}

/// Whether the end is checked for what there is a name for.
pub(crate) fn check_ending<'a>(alloc: Global, matches: &ArgMatches<'a>) -> Result<(), JobFault>
    ensures ok { OnOk result (is_check (value_in (codes "check") (subcommand_rows_of matches.now)) ≡ true) }
    ensures err { OnErr result (is_check (value_in (codes "check") (subcommand_rows_of matches.now)) ≡ false) }
    ensures fault { IfErr result IsRefused }
{
    let value = value_of(matches, "check");
    if is_check(value) {
        Ok(())
    } else {
        Err(unknown_choice(alloc, "check", value, NAMES))
    }
}
