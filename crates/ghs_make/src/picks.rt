//! Networks whose links a seed picks: trees, random networks and forests.
ghost use Rattle.ghs_make.specs.Ends.{links_among as links_among_of, part_start as part_start_of, pick as pick_of, picked_ends, spare_pairs as spare_pairs_of};
ghost use Rattle.ghs_make.specs.Picks.{HasParts};
ghost use Rattle.ghs_make.specs.Plan.{IsPlan};
ghost use Rattle.ghs_gr.specs.declared.raw_graph.TheConstants.{NODE_LIMIT};
ghost use Rattle.std.specs.Prelude.{IfOk, ◌++◌, ◌+◌, ◌<◌, ◌^◌, ◌≡◌, ◌≤◌};

use crate::kind::Kind;
use crate::plan::Plan;
use crate::word::{PICKS, word};
use std::alloc::AllocError;

/// Appends one node of each part of those before.
pub fn put_picked_ends(plan: &Plan, node: u32, ends: &mut Vec<u32>) -> Result<(), AllocError>
    requires plan { IsPlan plan.now }
    requires low { 2 ≤ node }
    requires high { node ≤ plan.now.nodes }
    ensures { IfOk result (λ _. ends.new.items ≡ ends.old.items ++ picked_ends plan.now node) }
{
    let first = links_among(plan, node - 1);
    let parts = links_among(plan, node).saturating_sub(first);
    let parting = Parting {
        seed: plan.seed,
        first,
        nodes: u64::from(node - 1),
        parts,
    };
    for part in 0..parts {
        ends.push(pick(&parting, part))?;
    }
    Ok(())
}

/// The nodes before, cut into parts.
#[derive(Clone, Copy, Drop)]
struct Parting {
    seed: u64,
    /// The number of the first link.
    first: u64,
    nodes: u64,
    parts: u64,
}

/// The node that the seed picks of a part.
fn pick(parting: &Parting, part: u64) -> u32
    requires { HasParts parting.now part }
    ensures { result ≡ pick_of parting.now.seed parting.now.first parting.now.nodes parting.now.parts part }
{
    let start = part_start(parting, part);
    let size = part_start(parting, part + 1) - start;
    let offset = word(parting.seed, PICKS, parting.first + part) % size;
    (1 + start + offset) as u32
}

fn part_start(parting: &Parting, part: u64) -> u64
    requires some { 1 ≤ parting.now.parts }
    requires nodes { parting.now.nodes ≤ NODE_LIMIT }
    requires part { part ≤ NODE_LIMIT }
    ensures { result ≡ part_start_of parting.now.nodes parting.now.parts part }
{
    part * parting.nodes / parting.parts
}

/// How many links the first so many nodes have.
#[tactic(auto, unfolding(crate::specs::Ends::links_among))]
fn links_among(plan: &Plan, node: u32) -> u64
    requires plan { IsPlan plan.now }
    requires low { 1 ≤ node }
    requires high { node ≤ plan.now.nodes }
    ensures links { result ≡ links_among_of plan.now node }
    ensures few { result ≤ 2 ^ 63 }
{
    let before = u64::from(node - 1);
    let links = u64::from(plan.links);
    let others = u64::from(plan.nodes - 1);
    match plan.kind {
        Kind::Tree => before,
        Kind::Random => {
            let spare = links.saturating_sub(others) * spare_pairs(node);
            before + spare / spare_pairs(plan.nodes).max(1)
        }
        Kind::Forest => links * before / others.max(1),
        _ => 0,
    }
}

/// How many links there can be among the first so many nodes, beside a tree.
fn spare_pairs(node: u32) -> u64
    requires low { 1 ≤ node }
    requires high { node ≤ NODE_LIMIT }
    ensures { result ≡ spare_pairs_of node }
{
    let node = u64::from(node);
    (node - 1) * node.saturating_sub(2) / 2
}
