//! What doesn't go with every protocol, and what doesn't with a user's own.
ghost use Rattle.clap.specs.Words.{subcommand_rows_of};
ghost use Rattle.ghs_commands.specs.Job.{fits_every, goes_with_own, has_book, has_rules, is_exploration, is_own, is_sweep, may_be_own, runs_own, runs_so, sweeps_own, sweeps_so};
ghost use Rattle.std.specs.Prelude.{◌≡◌, is_none};

use crate::job::value_of;
use crate::networks::{are_several, values_of};
use crate::parts::is_said;
use crate::values::{is_among, is_number};
use clap::ArgMatches;

/// The first argument that doesn't go with every protocol: GHS alone takes it.
pub(crate) fn stranger_in<'a>(matches: &ArgMatches<'a>) -> Option<&'static str>
    ensures { is_none result ≡ fits_every (subcommand_rows_of matches.now) }
{
    match stranger_of_run(matches) {
        Some(argument) => Some(argument),
        None => stranger_of_sweep(matches),
    }
}

/// The first that says how a network is run, or what is told of its run. A sweep shares its seeds among threads, and tells how
/// far it has come, as an exploration does.
fn stranger_of_run<'a>(matches: &ArgMatches<'a>) -> Option<&'static str>
    ensures { is_none result ≡ runs_so (subcommand_rows_of matches.now) }
{
    if !is_sweep(matches) && !is_number(value_of(matches, "workers"), 0, 0) {
        Some("--workers <workers>")
    } else if !is_among(
        value_of(matches, "schedule"),
        &["seeded", "patient", "rounds", "lifo"],
    ) {
        Some("--schedule <schedule>")
    } else if is_said(value_of(matches, "core"), "true") {
        Some("--core")
    } else if !is_sweep(matches)
        && !is_exploration(matches)
        && is_said(value_of(matches, "progress"), "true")
    {
        Some("--progress")
    } else if is_said(value_of(matches, "tally"), "true") {
        Some("--tally")
    } else if value_of(matches, "book").is_some() {
        Some("--book <book>")
    } else {
        None
    }
}

/// The first argument that doesn't go with a user's own protocol.
pub(crate) fn stranger_to_own<'a>(matches: &ArgMatches<'a>) -> Option<&'static str>
    ensures { is_none result ≡ goes_with_own (subcommand_rows_of matches.now) }
{
    match stranger_to_own_run(matches) {
        Some(argument) => Some(argument),
        None => stranger_to_own_sweep(matches),
    }
}

/// The first that says how a network is run, or what is told of its run.
fn stranger_to_own_run<'a>(matches: &ArgMatches<'a>) -> Option<&'static str>
    ensures { is_none result ≡ runs_own (subcommand_rows_of matches.now) }
{
    if !is_number(value_of(matches, "workers"), 0, 0) {
        Some("--workers <workers>")
    } else if !is_among(value_of(matches, "schedule"), &["seeded"]) {
        Some("--schedule <schedule>")
    } else if is_said(value_of(matches, "core"), "true") {
        Some("--core")
    } else if is_said(value_of(matches, "progress"), "true") {
        Some("--progress")
    } else if is_said(value_of(matches, "tally"), "true") {
        Some("--tally")
    } else {
        None
    }
}

/// The first that says what is swept, or what is printed of a sweep.
fn stranger_to_own_sweep<'a>(matches: &ArgMatches<'a>) -> Option<&'static str>
    ensures { is_none result ≡ sweeps_own (subcommand_rows_of matches.now) }
{
    if value_of(matches, "by").is_some() {
        Some("--by <by>")
    } else if is_said(value_of(matches, "sheet"), "chart") {
        Some("--print chart")
    } else if is_said(value_of(matches, "names"), "true") {
        Some("--names")
    } else if are_several(values_of(matches, "FILE")) {
        Some("several FILEs")
    } else {
        None
    }
}

/// Whether the command goes by a user's own protocol, whose rules are the lines of a book.
pub(crate) fn is_own<'a>(matches: &ArgMatches<'a>) -> bool
    ensures { result ≡ is_own (subcommand_rows_of matches.now) }
{
    (may_be_own(matches) && is_said(value_of(matches, "protocol"), "own"))
        || is_said(value_of(matches, "protocols"), "own")
}

/// Whether it has a book.
pub(crate) fn has_book<'a>(matches: &ArgMatches<'a>) -> bool
    ensures { result ≡ has_book (subcommand_rows_of matches.now) }
{
    value_of(matches, "book").is_some()
}

/// Whether it has a book of rules.
pub(crate) fn has_rules<'a>(matches: &ArgMatches<'a>) -> bool
    ensures { result ≡ has_rules (subcommand_rows_of matches.now) }
{
    ((may_be_own(matches) && !is_exploration(matches)) || is_sweep(matches)) && has_book(matches)
}

/// Whether `--protocol` of it may name a user's own.
pub(crate) fn may_be_own<'a>(matches: &ArgMatches<'a>) -> bool
    ensures { result ≡ may_be_own (subcommand_rows_of matches.now) }
{
    let name = matches.subcommand_name();
    is_said(name, "run")
        || is_said(name, "replay")
        || is_said(name, "steps")
        || is_said(name, "view")
        || is_said(name, "explore")
}

/// Whether the command is a sweep: only a sweep has a sheet.
fn is_sweep<'a>(matches: &ArgMatches<'a>) -> bool
    ensures { result ≡ is_sweep (subcommand_rows_of matches.now) }
{
    value_of(matches, "sheet").is_some()
}

/// Whether it is an exploration: only an exploration has a limit.
fn is_exploration<'a>(matches: &ArgMatches<'a>) -> bool
    ensures { result ≡ is_exploration (subcommand_rows_of matches.now) }
{
    value_of(matches, "limit").is_some()
}

/// The first that says what is swept, or what is printed of a sweep: nodes and rules every protocol has, levels GHS alone.
fn stranger_of_sweep<'a>(matches: &ArgMatches<'a>) -> Option<&'static str>
    ensures { is_none result ≡ sweeps_so (subcommand_rows_of matches.now) }
{
    if is_said(value_of(matches, "by"), "level") {
        Some("--by level")
    } else {
        None
    }
}
