//! The values of options, read and refused.
ghost use Rattle.ghs_commands.specs.Job.{IsRefused};
ghost use Rattle.ghs_commands.specs.Values.{AreSeeds, are_apart, are_weights, is_among, is_dash, is_kind, is_number, is_range, number_in, seeds_between, seeds_of};
ghost use Rattle.std.specs.List.{list_any};
ghost use Rattle.std.specs.Option.{option_map};
ghost use Rattle.std.specs.Prelude.{◌≡◌, ◌≤◌, ◌↔◌, IfOk, IfSome, Some, map, string_bytes, true};
ghost use Rattle.std.specs.Str.{bytes_eq};

use crate::job::{JobFault, MOST_NODES};
use ghs_make::kind::Kind;
use ghs_make::weights::Weights;
use std::alloc::{AllocError, Global};

/// How many seeds a sweep may have.
pub const MOST_SEEDS: u64 = 1_000_000;

/// Seeds from the first to the last, both included.
#[derive(Clone, Copy, Debug, PartialEq, Eq)]
pub struct Seeds {
    pub first: u64,
    pub last: u64,
}

/// Whether this is the value.
pub(crate) fn is_text(value: Option<&str>, text: &str) -> bool
    ensures { (result ≡ true) ↔ (option_map (λ t. t.now) value.entry ≡ Some text.now) }
{
    match value {
        Some(value) => value == text,
        None => false,
    }
}

/// Whether there is no value, or one of these.
pub(crate) fn is_among(value: Option<&str>, choices: &[&str]) -> bool
    ensures { result ≡ is_among (map (λ t. t.now) choices.now) (option_map (λ t. t.now) value.entry) }
{
    match value {
        Some(value) => is_one_of(value, choices),
        None => true,
    }
}

/// Whether this is `-`, which names standard input.
pub fn is_dash(path: &str) -> bool
    ensures { result ≡ is_dash path.now }
{
    path == "-"
}

/// Whether standard input isn't both: the stored run is where it is `-`, the graph also where none is named.
pub(crate) fn are_apart(trace: Option<&str>, graph: Option<&str>) -> bool
    ensures { result ≡ are_apart (option_map (λ t. t.now) trace.entry) (option_map (λ t. t.now) graph.entry) }
{
    match (trace, graph) {
        (None, _) => true,
        (Some(trace), None) => !is_dash(trace),
        (Some(trace), Some(graph)) => !(is_dash(trace) && is_dash(graph)),
    }
}

/// Whether a value is one of these.
fn is_one_of(value: &str, choices: &[&str]) -> bool
    ensures { result ≡ list_any (λ choice. bytes_eq value.now choice.now) choices.now }
{
    for choice in choices {
        if value == *choice {
            return true;
        }
    }
    false
}

/// Whether there is no value, or a number in this range.
pub(crate) fn is_number(value: Option<&str>, low: u64, high: u64) -> bool
    ensures { result ≡ is_number low high (option_map (λ t. t.now) value.entry) }
{
    match value {
        Some(value) => number_in(value, low, high).is_some(),
        None => true,
    }
}

/// The number that a value is: digits alone, of a value in this range.
pub(crate) fn number_in(value: &str, low: u64, high: u64) -> Option<u64>
    ensures number { result ≡ number_in low high value.now }
    ensures range { IfSome result (λ n. (low ≤ n) × (n ≤ high)) }
{
    let Ok(number) = value.parse::<u64>() else {
        return None;
    };
    // `parse` takes a plus.
    if value.as_bytes()[0] == b'+' || number < low || high < number {
        return None;
    }
    Some(number)
}

/// Whether there is no value, or one that names seeds.
pub(crate) fn is_range(value: Option<&str>) -> bool
    ensures { result ≡ is_range (option_map (λ t. t.now) value.entry) }
{
    match value {
        Some(value) => seeds_in(value).is_some(),
        None => true,
    }
}

/// The seeds that a value names: `FIRST..LAST`, both numbers of 64 bits and both included, the first no greater than the
/// last, a million at most.
pub(crate) fn seeds_in(value: &str) -> Option<Seeds>
    ensures seeds { result ≡ seeds_of value.now }
    ensures limits { IfSome result AreSeeds }
{
    let Some((first, rest)) = value.split_once('.') else {
        return None;
    };
    let Some((between, last)) = rest.split_once('.') else {
        return None;
    };
    if !between.is_empty() {
        return None;
    }
    seeds_between(number_in(first, 0, u64::MAX), number_in(last, 0, u64::MAX))
}

/// The seeds between two numbers, where there are both and they are in order.
fn seeds_between(first: Option<u64>, last: Option<u64>) -> Option<Seeds>
    ensures seeds { result ≡ seeds_between first last }
    ensures limits { IfSome result AreSeeds }
{
    let (Some(first), Some(last)) = (first, last) else {
        return None;
    };
    if last < first || last - first >= MOST_SEEDS {
        return None;
    }
    Some(Seeds { first, last })
}

/// Whether there is no value, or the name of a kind of networks.
pub(crate) fn is_kind(value: Option<&str>) -> bool
    ensures { result ≡ is_kind (option_map (λ t. t.now) value.entry) }
{
    match value {
        Some(value) => Kind::named(value).is_some(),
        None => true,
    }
}

/// Whether there is no value, or the name of weights.
pub(crate) fn are_weights(value: Option<&str>) -> bool
    ensures { result ≡ are_weights (option_map (λ t. t.now) value.entry) }
{
    match value {
        Some(value) => Weights::named(value).is_some(),
        None => true,
    }
}

/// The text, as one that lasts.
pub(crate) fn owned(alloc: Global, text: Option<&str>) -> Result<Option<String>, AllocError>
    ensures { IfOk result (λ owned. option_map string_bytes owned ≡ option_map (λ t. t.now) text.entry) }
{
    match text {
        Some(text) => Ok(Some(String::from_str(alloc, text)?)),
        None => Ok(None),
    }
}

/// What is said of a choice that there isn't, in `clap`'s words.
pub(crate) fn unknown_choice(
    alloc: Global,
    name: &str,
    value: Option<&str>,
    choices: &[&str],
) -> JobFault
    ensures { IsRefused result }
{
    let value = value.unwrap_or("");
    let Ok(choices) = listed(alloc, choices) else {
        return JobFault::Memory;
    };
    match format!(in alloc;
        "error: invalid value '{value}' for '--{name} <{name}>'\n  [possible values: {choices}]\n\nFor more information, try '--help'.\n"
    ) {
        Ok(text) => JobFault::Refused(text),
        Err(_) => JobFault::Memory,
    }
}

/// Choices, one behind another.
fn listed(alloc: Global, choices: &[&str]) -> Result<String, AllocError> {
    let mut text = String::new(alloc);
    for (place, choice) in choices.iter().enumerate() {
        if place > 0 {
            text.push_str(", ")?;
        }
        text.push_str(choice)?;
    }
    Ok(text)
}

/// What is said of a value that is no number in its range, in `clap`'s words.
pub(crate) fn no_number(
    alloc: Global,
    id: &str,
    value: Option<&str>,
    low: u64,
    high: u64,
) -> JobFault
    ensures { IsRefused result }
{
    let value = value.unwrap_or("");
    match format!(in alloc;
        "error: invalid value '{value}' for '--{id} <{id}>': not a number in {low}..={high}\n\nFor more information, try '--help'.\n"
    ) {
        Ok(text) => JobFault::Refused(text),
        Err(_) => JobFault::Memory,
    }
}

/// What is said where standard input is to be both the stored run and the graph.
pub(crate) fn read_twice(alloc: Global) -> JobFault
    ensures { IsRefused result }
{
    match String::from_str(
        alloc,
        "error: standard input can't be both the stored run and the graph\n\nFor more information, try '--help'.\n",
    ) {
        Ok(text) => JobFault::Refused(text),
        Err(_) => JobFault::Memory,
    }
}

/// What is said of a value that names no seeds, in `clap`'s words.
pub(crate) fn no_seeds(alloc: Global, id: &str, value: Option<&str>) -> JobFault
    ensures { IsRefused result }
{
    let value = value.unwrap_or("");
    match format!(in alloc;
        "error: invalid value '{value}' for '--{id} <{id}>': not seeds FIRST..LAST, {MOST_SEEDS} of them at most\n\nFor more information, try '--help'.\n"
    ) {
        Ok(text) => JobFault::Refused(text),
        Err(_) => JobFault::Memory,
    }
}

/// What is said of a value that is no number of nodes, in `clap`'s words.
pub(crate) fn no_nodes(alloc: Global, value: Option<&str>) -> JobFault
    ensures { IsRefused result }
{
    let value = value.unwrap_or("");
    match format!(in alloc;
        "error: invalid value '{value}' for '<NODES>': not a number in 1..={MOST_NODES}\n\nFor more information, try '--help'.\n"
    ) {
        Ok(text) => JobFault::Refused(text),
        Err(_) => JobFault::Memory,
    }
}

/// What is said of a value that is no kind, in `clap`'s words.
pub(crate) fn no_kind(alloc: Global, value: Option<&str>) -> JobFault
    ensures { IsRefused result }
{
    let value = value.unwrap_or("");
    match format!(in alloc;
        "error: invalid value '{value}' for '<KIND>'\n  [possible values: path, ring, star, grid, complete, tree, random, road, forest, slow, busy, farcore, chainwake]\n\nFor more information, try '--help'.\n"
    ) {
        Ok(text) => JobFault::Refused(text),
        Err(_) => JobFault::Memory,
    }
}
