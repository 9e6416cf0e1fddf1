//! The protocol that a network follows, or of a sweep the protocols, read and refused.
ghost use Rattle.clap.specs.Words.{subcommand_rows_of};
ghost use Rattle.ghs_commands.specs.Job.{IsRefused, fits_known, fits_own, fits_protocol, has_protocol, is_of_ghs, names_protocol, protocol_in, protocols_in};
ghost use Rattle.ghs_commands.specs.Protocols.{are_distinct, are_ghs, are_known, are_protocols, is_protocol, names_of, protocol_by, protocols_of};
ghost use Rattle.std.specs.Option.{option_map};
ghost use Rattle.std.specs.Prelude.{◌≡◌, IfErr, IfOk, OnErr, OnOk, codes, false, is_none, true};

use crate::checks::has_check;
use crate::fitting::{has_book, has_rules, is_own, stranger_in, stranger_to_own};
use crate::job::{JobFault, value_of};
use crate::values::unknown_choice;
use clap::ArgMatches;
use peer_trace::protocol::Protocol;
use std::alloc::{AllocError, Global};

/// The names that `--protocol` may have: those of the protocols that there are, and that of a user's own.
const NAMES: &[&str] = &["ghs", "boruvka", "echo", "gather", "own"];

/// Which protocol the nodes follow.
pub(crate) fn protocol_of<'a>(matches: &ArgMatches<'a>) -> Protocol
    ensures { result ≡ protocol_in (subcommand_rows_of matches.now) }
{
    let Some(value) = value_of(matches, "protocol") else {
        return Protocol::Ghs;
    };
    match Protocol::named(value) {
        Some(protocol) => protocol,
        None => Protocol::Ghs,
    }
}

/// Which protocols those of a sweep follow, in the order in which they are named.
pub(crate) fn protocols_of<'a>(
    alloc: Global,
    matches: &ArgMatches<'a>,
) -> Result<Vec<Protocol>, AllocError>
    ensures { IfOk result (λ ps. ps.items ≡ protocols_in (subcommand_rows_of matches.now)) }
{
    protocols_named(alloc, value_of(matches, "protocols").unwrap_or("ghs"))
}

/// The protocols that a value names.
fn protocols_named(alloc: Global, value: &str) -> Result<Vec<Protocol>, AllocError>
    ensures { IfOk result (λ ps. ps.items ≡ protocols_of value.now) }
{
    value
        .split(',')
        .map(|name| protocol_by(name))
        .collect(alloc)
}

/// The protocol of a name; the values of options name those that there are.
fn protocol_by(name: &str) -> Protocol
    ensures { result ≡ protocol_by name.now }
{
    Protocol::named(name).unwrap_or(Protocol::Ghs)
}

/// Whether there is such a protocol, or are such protocols of a sweep, and all that is asked for goes with them.
pub(crate) fn check_protocol<'a>(alloc: Global, matches: &ArgMatches<'a>) -> Result<(), JobFault>
    ensures ok { OnOk result (has_protocol (subcommand_rows_of matches.now) ≡ true) }
    ensures err { OnErr result (has_protocol (subcommand_rows_of matches.now) ≡ false) }
    ensures fault { IfErr result IsRefused }
{
    check_named(alloc, matches)?;
    check_fit(alloc, matches)
}

/// Whether there is such a protocol, or are such protocols of a sweep, or the command goes by a user's own.
fn check_named<'a>(alloc: Global, matches: &ArgMatches<'a>) -> Result<(), JobFault>
    ensures ok { OnOk result (names_protocol (subcommand_rows_of matches.now) ≡ true) }
    ensures err { OnErr result (names_protocol (subcommand_rows_of matches.now) ≡ false) }
    ensures fault { IfErr result IsRefused }
{
    if is_own(matches) {
        return Ok(());
    }
    check_name(alloc, value_of(matches, "protocol"))?;
    check_names(alloc, value_of(matches, "protocols"))
}

/// Whether there is such a protocol.
fn check_name(alloc: Global, value: Option<&str>) -> Result<(), JobFault>
    ensures ok { OnOk result (is_protocol (option_map (λ t. t.now) value.entry) ≡ true) }
    ensures err { OnErr result (is_protocol (option_map (λ t. t.now) value.entry) ≡ false) }
    ensures fault { IfErr result IsRefused }
{
    if is_protocol(value) {
        Ok(())
    } else {
        Err(unknown_choice(alloc, "protocol", value, NAMES))
    }
}

/// Whether there are such protocols, and none of them is named twice.
fn check_names(alloc: Global, value: Option<&str>) -> Result<(), JobFault>
    ensures ok { OnOk result (are_protocols (option_map (λ t. t.now) value.entry) ≡ true) }
    ensures err { OnErr result (are_protocols (option_map (λ t. t.now) value.entry) ≡ false) }
    ensures fault { IfErr result IsRefused }
{
    let Some(value) = value else {
        return Ok(());
    };
    if let Some(name) = unknown_in(value) {
        return Err(unknown_choice(alloc, "protocol", Some(name), NAMES));
    }
    match twice_in(value) {
        Some(name) => Err(named_twice(alloc, value, name)),
        None => Ok(()),
    }
}

/// The first name between the commas of a value that isn't that of a protocol.
fn unknown_in(value: &str) -> Option<&str>
    ensures { is_none result ≡ are_known (names_of value.now) }
{
    value
        .split(',')
        .find(|name| Protocol::named(name).is_none())
}

/// The first that stands there again. It looks no further, so among names of protocols it calls itself as often as there are
/// protocols at most.
fn twice_in(value: &str) -> Option<&str>
    ensures { is_none result ≡ are_distinct (names_of value.now) }
{
    let Some((first, rest)) = value.split_once(',') else {
        return None;
    };
    if rest.split(',').any(|name| name == first) {
        return Some(first);
    }
    twice_in(rest)
}

/// Whether all that is asked for goes with the protocol or the protocols.
fn check_fit<'a>(alloc: Global, matches: &ArgMatches<'a>) -> Result<(), JobFault>
    ensures ok { OnOk result (fits_protocol (subcommand_rows_of matches.now) ≡ true) }
    ensures err { OnErr result (fits_protocol (subcommand_rows_of matches.now) ≡ false) }
    ensures fault { IfErr result IsRefused }
{
    if is_own(matches) {
        check_own(alloc, matches)
    } else {
        check_known(alloc, matches)
    }
}

/// Whether a command by a user's own protocol has a book, and all that is asked for goes with it.
fn check_own<'a>(alloc: Global, matches: &ArgMatches<'a>) -> Result<(), JobFault>
    ensures ok { OnOk result (fits_own (subcommand_rows_of matches.now) ≡ true) }
    ensures err { OnErr result (fits_own (subcommand_rows_of matches.now) ≡ false) }
    ensures fault { IfErr result IsRefused }
{
    if !has_book(matches) {
        return Err(no_book(alloc));
    }
    match stranger_to_own(matches) {
        Some(argument) => Err(no_such_run(alloc, "own", argument)),
        None => Ok(()),
    }
}

/// Whether all that is asked for goes with protocols that there are; a run of theirs goes by no book, and its end isn't
/// checked.
fn check_known<'a>(alloc: Global, matches: &ArgMatches<'a>) -> Result<(), JobFault>
    ensures ok { OnOk result (fits_known (subcommand_rows_of matches.now) ≡ true) }
    ensures err { OnErr result (fits_known (subcommand_rows_of matches.now) ≡ false) }
    ensures fault { IfErr result IsRefused }
{
    if has_rules(matches) {
        let name = value_of(matches, "protocol").unwrap_or("ghs");
        return Err(no_such_run(alloc, name, "--book <book>"));
    }
    if has_check(matches) {
        let name = other_of(matches).unwrap_or("ghs");
        return Err(no_such_run(alloc, name, "--check <check>"));
    }
    match (other_of(matches), stranger_in(matches)) {
        (Some(name), Some(argument)) => Err(no_such_run(alloc, name, argument)),
        _ => Ok(()),
    }
}

/// The name of the first of the protocols that isn't GHS.
fn other_of<'b, 'a>(matches: &'b ArgMatches<'a>) -> Option<&'a str>
    ensures { is_none result ≡ is_of_ghs (subcommand_rows_of matches.now) }
{
    match other_in(value_of(matches, "protocol")) {
        Some(name) => Some(name),
        None => other_in(value_of(matches, "protocols")),
    }
}

/// The first name in a value that isn't that of GHS.
fn other_in(value: Option<&str>) -> Option<&str>
    ensures { is_none result ≡ are_ghs (option_map (λ t. t.now) value.entry) }
{
    let Some(value) = value else {
        return None;
    };
    value.split(',').find(|name| *name != "ghs")
}

/// Whether there is no value, or the name of a protocol.
fn is_protocol(value: Option<&str>) -> bool
    ensures { result ≡ is_protocol (option_map (λ t. t.now) value.entry) }
{
    match value {
        Some(value) => Protocol::named(value).is_some(),
        None => true,
    }
}

/// What is said of a value that names a protocol twice, in `clap`'s words.
fn named_twice(alloc: Global, value: &str, name: &str) -> JobFault
    ensures { IsRefused result }
{
    match format!(in alloc;
        "error: invalid value '{value}' for '--protocol <protocol>': {name} is named twice\n\nFor more information, try '--help'.\n"
    ) {
        Ok(text) => JobFault::Refused(text),
        Err(_) => JobFault::Memory,
    }
}

/// What is said of a user's own protocol without its book, in the shape of `clap`'s words.
fn no_book(alloc: Global) -> JobFault
    ensures { IsRefused result }
{
    match String::from_str(
        alloc,
        "error: the argument '--protocol own' requires '--book <book>'\n\nFor more information, try '--help'.\n",
    ) {
        Ok(text) => JobFault::Refused(text),
        Err(_) => JobFault::Memory,
    }
}

/// What is said of an argument that doesn't go with a protocol, in `clap`'s words.
fn no_such_run(alloc: Global, name: &str, argument: &str) -> JobFault
    ensures { IsRefused result }
{
    match format!(in alloc;
        "error: the argument '--protocol {name}' cannot be used with '{argument}'\n\nFor more information, try '--help'.\n"
    ) {
        Ok(text) => JobFault::Refused(text),
        Err(_) => JobFault::Memory,
    }
}
