//! Which nodes wake by themselves, read and refused.
ghost use Rattle.ghs_commands.specs.Job.{IsRefused};
ghost use Rattle.ghs_commands.specs.Wakers.{is_wake, listed, node_in, wake_named};
ghost use Rattle.peer_network.specs.declared.wake_set.TheConstants.{MOST_WAKERS as MOST};
ghost use Rattle.std.specs.Option.{option_map};
ghost use Rattle.std.specs.Prelude.{◌≡◌};

use crate::job::JobFault;
use crate::values::{number_in, unknown_choice};
use ghs_gr::raw_graph::NODE_LIMIT;
use peer_network::wake_set::{MOST_WAKERS, WakeSet, Wakers};
use std::alloc::Global;

/// Whether there is no value, or one that names a wake set.
pub(crate) fn is_wake(value: Option<&str>) -> bool
    ensures { result ≡ is_wake (option_map (λ t. t.now) value.entry) }
{
    match value {
        Some(value) => wake_named(value).is_some(),
        None => true,
    }
}

/// The wake set that a value names: `all`, `first`, or up to `MOST_WAKERS` nodes with commas between them.
pub(crate) fn wake_named(value: &str) -> Option<WakeSet>
    ensures { result ≡ wake_named value.now }
{
    if value == "all" {
        return Some(WakeSet::All);
    }
    if value == "first" {
        return Some(WakeSet::First);
    }
    match listed(value) {
        Some(nodes) => Some(WakeSet::Listed(Wakers { nodes })),
        None => None,
    }
}

/// The nodes that a text lists between commas; 0 stands for those that are left.
fn listed(text: &str) -> Option<[u32; MOST_WAKERS]>
    ensures { result ≡ listed MOST text.now }
{
    let mut nodes = [0; MOST_WAKERS];
    let mut rest = text;
    for place in 0..MOST_WAKERS {
        let Some((first, behind)) = rest.split_once(',') else {
            let Some(node) = node_in(rest) else {
                return None;
            };
            nodes[place] = node;
            return Some(nodes);
        };
        let Some(node) = node_in(first) else {
            return None;
        };
        nodes[place] = node;
        rest = behind;
    }
    None
}

/// The number of a node that a text is.
fn node_in(text: &str) -> Option<u32>
    ensures { result ≡ node_in text.now }
{
    match number_in(text, 1, NODE_LIMIT as u64) {
        Some(number) => Some(number as u32),
        None => None,
    }
}

/// What is said of a value that names no wake set, in `clap`'s words.
pub(crate) fn no_wake(alloc: Global, value: Option<&str>) -> JobFault
    ensures { IsRefused result }
{
    let value = value.unwrap_or("");
    if !begins_with_digit(value) {
        return unknown_choice(alloc, "wake", Some(value), &["all", "first"]);
    }
    match format!(in alloc;
        "error: invalid value '{value}' for '--wake <wake>': not 1 to {MOST_WAKERS} nodes V,W,..\n\nFor more information, try '--help'.\n"
    ) {
        Ok(text) => JobFault::Refused(text),
        Err(_) => JobFault::Memory,
    }
}

/// Whether a text begins with a digit, as a list of nodes does.
fn begins_with_digit(text: &str) -> bool {
    match text.as_bytes().first() {
        Some(byte) => byte.is_ascii_digit(),
        None => false,
    }
}
