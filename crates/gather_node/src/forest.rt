//! The minimum spanning forest of links that a node knows, and what two lists of links have in common.
ghost use Rattle.std.specs.Prelude.{◌≡◌, ◌≤◌, ◌↔◌, ◌&&◌, true, IfOk};
ghost use Rattle.std.specs.List.Sorted.{IsPermutation};
ghost use Rattle.ghs_graph.specs.Graph.{NODE_LIMIT};
ghost use Rattle.ghs_graph.specs.Links.{AreAmong, IsRising};
ghost use Rattle.gather_node.specs.Forest.{common, follows, forest, has, is_link, is_same};
ghost use Rattle.gather_node.specs.Ordered.{AreInOrder, NoneFalls};

use ghs_graph::graph::NODE_LIMIT;
use ghs_graph::key::Key;
use ghs_graph::laws::law_key_order;
use ghs_graph::spanning::span;
use std::alloc::{AllocError, Global};

/// The minimum spanning forest of links in any order, in key order: O(N + n log n) for n of them, with ends to N. What can't be
/// a link of a graph doesn't count.
///
/// ```text
/// let forest = forest_of(alloc, vec![in alloc; heavy, light, middle]?)?;   // of a triangle
/// // light and middle
/// ```
pub fn forest_of(alloc: Global, links: Vec<Key>) -> Result<Vec<Key>, AllocError>
    ensures { IfOk result (λ t. t.items ≡ forest links.items) }
{
    let sorted = sort(links);
    let keys = links_in(alloc, &sorted)?;
    let nodes = greatest_end(&keys);
    Ok(span(alloc, nodes, &keys)?.tree)
}

/// The same keys in order.
fn sort(mut links: Vec<Key>) -> Vec<Key>
    ensures same { IsPermutation links.items result.items }
    ensures order { NoneFalls result.items }
{
    law_key_order();
    links.sort_unstable();
    links
}

/// The links in a list in order, each once.
#[tactic(auto, using(crate::proofs::Orders::order_more, crate::proofs::Orders::order_skips, crate::proofs::Orders::order_starts))]
fn links_in(alloc: Global, sorted: &[Key]) -> Result<Vec<Key>, AllocError>
    requires { NoneFalls sorted.now }
    ensures { IfOk result (λ ks. AreInOrder sorted.now ks.items) }
{
    let mut keys = Vec::new(alloc);
    for key in sorted {
        if is_next(&keys, key) {
            keys.push(*key)?;
        }
    }
    Ok(keys)
}

/// Whether a key is that of a link which comes after all of a list.
fn is_next(keys: &[Key], key: &Key) -> bool
    ensures { result ≡ (is_link key.now && follows keys.now key.now) }
{
    is_link(key) && follows(keys, key)
}

/// Whether a key may be that of a link.
fn is_link(key: &Key) -> bool
    ensures { result ≡ is_link key.now }
{
    1 <= key.a && key.a < key.b && key.b <= NODE_LIMIT
}

/// Whether a key comes after all of a list.
fn follows(keys: &[Key], key: &Key) -> bool
    ensures { result ≡ follows keys.now key.now }
{
    let count = keys.len();
    count == 0 || keys[count - 1].is_below(key)
}

/// The greatest end of links.
fn greatest_end(keys: &[Key]) -> u32
    requires { AreAmong NODE_LIMIT keys.now }
    ensures limit { result ≤ NODE_LIMIT }
    ensures among { AreAmong result keys.now }
{
    let mut greatest = 0;
    for key in keys {
        if greatest < key.b {
            greatest = key.b;
        }
    }
    greatest
}

/// The links of the tree that are in another list too: O(m + n log m) for n and m of them where that list is in key order, else
/// O(n m).
pub fn common_of(alloc: Global, tree: &[Key], sent: &[Key]) -> Result<Vec<Key>, AllocError>
    ensures { IfOk result (λ ks. ks.items ≡ common tree.now sent.now) }
{
    let rising = is_rising(sent);
    let mut both = Vec::new(alloc);
    for key in tree {
        if has_by(rising, sent, key) {
            both.push(*key)?;
        }
    }
    Ok(both)
}

/// Whether each key of a list is below the next: O(n). Who looks for many links in a list asks once.
pub(crate) fn is_rising(keys: &[Key]) -> bool
    ensures { (result ≡ true) ↔ IsRising keys.now }
{
    for place in 0..keys.len() {
        if !follows(&keys[..place], &keys[place]) {
            return false;
        }
    }
    true
}

/// Whether a list has a link: in fewer steps where it is said to rise.
pub(crate) fn has_by(rising: bool, links: &[Key], key: &Key) -> bool
    requires { rising ≡ true → IsRising links.now }
    ensures { result ≡ has links.now key.now }
{
    if rising {
        has_in_order(links, key)
    } else {
        has(links, key)
    }
}

/// Whether a list in key order has a link: O(log n). Each step halves the places where the link may be.
fn has_in_order(links: &[Key], key: &Key) -> bool
    requires { IsRising links.now }
    ensures { result ≡ has links.now key.now }
{
    let mut low = 0;
    let mut high = links.len();
    while low < high {
        let middle = low + (high - low) / 2;
        if links[middle].is_below(key) {
            low = middle + 1;
        } else {
            high = middle;
        }
    }
    low < links.len() && is_same(&links[low], key)
}

/// Whether a list has a link: O(n).
pub fn has(links: &[Key], key: &Key) -> bool
    ensures { result ≡ has links.now key.now }
{
    for link in links {
        if is_same(link, key) {
            return true;
        }
    }
    false
}

/// Whether two keys are the same.
fn is_same(left: &Key, right: &Key) -> bool
    ensures { result ≡ is_same left.now right.now }
{
    left.weight == right.weight && left.a == right.a && left.b == right.b
}
