//! Channels that are marked Branch.
ghost use Rattle.std.specs.Prelude.{◌≡◌, ◌+◌, ◌≤◌, ◌++◌, ◌∷◌, [], length, slice_index, filter, if◌then◌else◌, IfOk};
ghost use Rattle.ghs_node.specs.Words.{is_branch};
ghost use Rattle.ghs_core.specs.Marked.{are_wanted, is_wanted, HavePorts, HaveRoot};

use ghs_graph::graph::Graph;
use ghs_graph::key::Key;
use ghs_node::mark::Mark;
use ghs_node::node::Node;
use std::alloc::{AllocError, Global};

/// At how many of its ends a link is to be Branch: one at least, or both.
#[derive(Clone, Copy, Debug)]
pub enum Ends {
    One,
    Both,
}

/// The links that are marked Branch at so many ends, in key order.
pub fn branch_links(
    alloc: Global,
    graph: &Graph,
    nodes: &[Node],
    ends: Ends,
) -> Result<Vec<Key>, AllocError>
    requires { HavePorts graph.now nodes.now }
    ensures { IfOk result (λ ks. ks.items ≡ filter (is_wanted ends graph.now.keys nodes.now) graph.now.keys) }
{
    let mut links = Vec::new(alloc);
    // The port that each node has on its next link.
    let mut ports = vec![in alloc; 0u32; graph.nodes() as usize + 1]?;
    for key in graph.keys() {
        let a = key.a as usize;
        let b = key.b as usize;
        let at_a = is_branch_mark(nodes[a - 1].mark(ports[a]));
        let at_b = is_branch_mark(nodes[b - 1].mark(ports[b]));
        push_if(&mut links, *key, are_enough(ends, at_a, at_b))?;
        ports[a] += 1;
        ports[b] += 1;
    }
    Ok(links)
}

/// Of the numbers from 1 to `count` those that have the root of `v`, rising.
#[tactic(auto, using(crate::proofs::Alike::none_alike, crate::proofs::Alike::alike_more, crate::proofs::Alike::alike_less))]
pub fn numbers_alike(
    alloc: Global,
    roots: &[u32],
    count: u32,
    v: u32,
) -> Result<Vec<u32>, AllocError>
    requires roots { length roots.now ≡ count + 1 }
    requires few { count ≤ 1048576 }
    requires high { v ≤ count }
    ensures { IfOk result (λ us. HaveRoot roots.now (count + 1) (slice_index roots.now v) us.items) }
{
    let mut numbers = Vec::new(alloc);
    for u in 1..count + 1 {
        if roots[v as usize] == roots[u as usize] {
            numbers.push(u)?;
        }
    }
    Ok(numbers)
}

fn is_branch_mark(mark: Mark) -> bool
    ensures { result ≡ is_branch mark }
{
    match mark {
        Mark::Branch => true,
        Mark::Basic => false,
        Mark::Rejected => false,
    }
}

fn are_enough(ends: Ends, at_a: bool, at_b: bool) -> bool
    ensures { result ≡ are_wanted ends at_a at_b }
{
    match ends {
        Ends::One => at_a || at_b,
        Ends::Both => at_a && at_b,
    }
}

fn push_if(links: &mut Vec<Key>, key: Key, wanted: bool) -> Result<(), AllocError>
    ensures { IfOk result (λ _. links.new.items ≡ links.old.items ++ (if wanted then key ∷ [] else [])) }
{
    if wanted {
        links.push(key)?;
    }
    Ok(())
}
