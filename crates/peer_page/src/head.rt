//! The head of the data of a page.
ghost use Rattle.std.specs.Prelude.{◌≡◌, ◌++◌, IfOk, decimal};
ghost use Rattle.peer_words.specs.Json.{next};
ghost use Rattle.peer_page.specs.Head.{events_members, head_json, network_members};

use ghs_graph::graph::Graph;
use peer_words::json::{put_number_member, put_word_member};
use std::alloc::AllocError;

/// Appends the first line: how large the network is and the bound on its messages, how many events the run has, before which
/// one it opens, and how many are shown.
///
/// ```text
/// put_head(&mut text, &graph, 10, 5, 1, 5)?;
/// // {"ghs":"steps","version":1,"nodes":2,"links":1,"bound":10,"events":5,"from":1,"to":5}
/// ```
#[tactic(auto, unfolding(crate::specs::Head::head_json))]
pub fn put_head(
    text: &mut Vec<u8>,
    graph: &Graph,
    bound: u64,
    events: u64,
    from: u64,
    to: u64,
) -> Result<(), AllocError>
    ensures { IfOk result (λ _. text.new.items ≡ text.old.items ++ head_json graph.now bound events from to) }
{
    put_network(text, graph, bound)?;
    put_events(text, events, from, to)?;
    text.extend_from_slice(b"}\n")
}

#[tactic(auto, unfolding(crate::specs::Head::network_members))]
fn put_network(text: &mut Vec<u8>, graph: &Graph, bound: u64) -> Result<(), AllocError>
    ensures { IfOk result (λ _. text.new.items ≡ text.old.items ++ network_members graph.now bound) }
{
    put_word_member(text, b"{", b"ghs", b"steps")?;
    put_count(text, b"version", 1)?;
    put_count(text, b"nodes", u64::from(graph.nodes()))?;
    put_count(text, b"links", graph.links())?;
    put_count(text, b"bound", bound)
}

#[tactic(auto, unfolding(crate::specs::Head::events_members))]
fn put_events(text: &mut Vec<u8>, events: u64, from: u64, to: u64) -> Result<(), AllocError>
    ensures { IfOk result (λ _. text.new.items ≡ text.old.items ++ events_members events from to) }
{
    put_count(text, b"events", events)?;
    put_count(text, b"from", from)?;
    put_count(text, b"to", to)
}

/// A member that isn't the first.
pub(crate) fn put_count(text: &mut Vec<u8>, name: &[u8], count: u64) -> Result<(), AllocError>
    ensures { IfOk result (λ _. text.new.items ≡ text.old.items ++ next name.now (decimal count)) }
{
    put_number_member(text, b",", name, u128::from(count))
}
