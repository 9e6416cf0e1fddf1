//! The networks of a sweep.
ghost use Rattle.clap.specs.Words.{subcommand_rows_of};
ghost use Rattle.ghs_commands.specs.Job.{IsRefused};
ghost use Rattle.ghs_commands.specs.Networks.{are_read_once, are_several, named_of, values_in};
ghost use Rattle.ghs_commands.specs.Values.{is_dash};
ghost use Rattle.std.specs.Option.{option_map};
ghost use Rattle.std.specs.Prelude.{◌≡◌, IfOk, count_by, map, string_bytes};

use crate::job::JobFault;
use crate::values::is_dash;
use clap::ArgMatches;
use std::alloc::{AllocError, Global};

/// The values that an argument of the command has.
pub(crate) fn values_of<'b, 'a>(matches: &'b ArgMatches<'a>, id: &str) -> Option<&'b [&'a str]>
    ensures { option_map (λ s. map (λ t. t.now) s.now) result ≡ values_in id.now (subcommand_rows_of matches.now) }
{
    match matches.subcommand() {
        Some((_, command)) => command.get_raw(id),
        None => None,
    }
}

/// Whether one of the files at most is standard input.
pub(crate) fn are_read_once(files: Option<&[&str]>) -> bool
    ensures { result ≡ are_read_once (option_map (λ s. map (λ t. t.now) s.now) files.entry) }
{
    match files {
        Some(files) => dashes_among(files) <= 1,
        None => true,
    }
}

/// Whether several files are named.
pub(crate) fn are_several(files: Option<&[&str]>) -> bool
    ensures { result ≡ are_several (option_map (λ s. map (λ t. t.now) s.now) files.entry) }
{
    match files {
        Some(files) => files.len() >= 2,
        None => false,
    }
}

/// How many of the files are standard input.
fn dashes_among(files: &[&str]) -> usize
    ensures { result ≡ count_by is_dash (map (λ t. t.now) files.now) }
{
    let mut dashes = 0usize;
    for file in files {
        if is_dash(file) {
            dashes += 1;
        }
    }
    dashes
}

/// The networks whose lines begin with names: all, or standard input where no file is named, where names are asked for;
/// without that none, but for several files.
pub(crate) fn named_of(
    alloc: Global,
    asked: bool,
    files: Option<&[&str]>,
) -> Result<Vec<String>, AllocError>
    ensures { IfOk result (λ names. map string_bytes names.items ≡ named_of asked (option_map (λ s. map (λ t. t.now) s.now) files.entry)) }
{
    match files {
        Some(files) if asked || files.len() >= 2 => Ok(all_of(alloc, files)?),
        None if asked => Ok(all_of(alloc, &["-"])?),
        _ => Ok(Vec::new(alloc)),
    }
}

/// Texts, as ones that last.
fn all_of(alloc: Global, texts: &[&str]) -> Result<Vec<String>, AllocError>
    ensures { IfOk result (λ all. map string_bytes all.items ≡ map (λ t. t.now) texts.now) }
{
    let mut all = Vec::with_capacity(alloc, texts.len())?;
    for text in texts {
        all.push(String::from_str(alloc, text)?)?;
    }
    Ok(all)
}

/// What is said where standard input is to be two of the graphs.
pub(crate) fn input_twice(alloc: Global) -> JobFault
    ensures { IsRefused result }
{
    match String::from_str(
        alloc,
        "error: standard input can't be two of the graphs\n\nFor more information, try '--help'.\n",
    ) {
        Ok(text) => JobFault::Refused(text),
        Err(_) => JobFault::Memory,
    }
}
