//! The links of the data of a page.
ghost use Rattle.std.specs.Prelude.{◌≡◌, ◌++◌, IfOk};
ghost use Rattle.std.specs.List.{flat_map};
ghost use Rattle.peer_page.specs.Links.{link_json};

use crate::head::put_count;
use ghs_graph::key::Key;
use peer_words::json::put_key_member;
use std::alloc::AllocError;

/// Appends a line for each link.
///
/// ```text
/// put_links(&mut text, graph.keys())?;
/// // {"link":"5:1-2","weight":5,"a":1,"b":2} of a link of weight 5 between the nodes 1 and 2
/// ```
pub fn put_links(text: &mut Vec<u8>, keys: &[Key]) -> Result<(), AllocError>
    ensures { IfOk result (λ _. text.new.items ≡ text.old.items ++ flat_map link_json keys.now) }
{
    for key in keys {
        put_link(text, *key)?;
    }
    Ok(())
}

#[tactic(auto, unfolding(crate::specs::Links::link_json))]
fn put_link(text: &mut Vec<u8>, key: Key) -> Result<(), AllocError>
    ensures { IfOk result (λ _. text.new.items ≡ text.old.items ++ link_json key) }
{
    put_key_member(text, b"{", b"link", key)?;
    put_count(text, b"weight", u64::from(key.weight))?;
    put_count(text, b"a", u64::from(key.a))?;
    put_count(text, b"b", u64::from(key.b))?;
    text.extend_from_slice(b"}\n")
}
