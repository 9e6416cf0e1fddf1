//! A path with blocks of nodes at its ends: slow and busy networks.
ghost use Rattle.ghs_make.specs.Ends.{across as across_of, block_end as block_end_of, busy_ends, chain_end as chain_end_of, crosses as crosses_of, front as front_of, last_block as last_block_of, place as place_of};
ghost use Rattle.ghs_make.specs.Plan.{IsPlan};
ghost use Rattle.std.specs.Prelude.{IfOk, ◌++◌, ◌+◌, ◌<◌, ◌^◌, ◌≡◌, ◌≤◌};

use crate::ends::put_if;
use crate::kind::Kind;
use crate::plan::Plan;
use std::alloc::AllocError;

/// The node along the chain that a node is linked with.
pub fn chain_end(plan: &Plan, node: u32) -> u32
    requires plan { IsPlan plan.now }
    requires low { 2 ≤ node }
    requires high { node ≤ plan.now.nodes }
    ensures { result ≡ chain_end_of plan.now node }
{
    if node <= front(plan) {
        node - 1
    } else {
        block_end(plan, node)
    }
}

/// The same of a node behind the path.
fn block_end(plan: &Plan, node: u32) -> u32
    requires plan { IsPlan plan.now }
    requires low { 2 ≤ node }
    requires high { node ≤ plan.now.nodes }
    requires behind { front_of plan.now < node }
    ensures { result ≡ block_end_of plan.now node }
{
    let place = place(plan, node);
    if !place.is_power_of_two() {
        node - 1
    } else if place == 2 {
        1
    } else {
        (front(plan) + place / 2).saturating_sub(2)
    }
}

/// Appends the node along the chain, and those across.
pub fn put_busy_ends(plan: &Plan, node: u32, ends: &mut Vec<u32>) -> Result<(), AllocError>
    requires plan { IsPlan plan.now }
    requires low { 2 ≤ node }
    requires high { node ≤ plan.now.nodes }
    ensures { IfOk result (λ _. ends.new.items ≡ ends.old.items ++ busy_ends plan.now node) }
{
    let block = last_block(plan);
    ends.push(chain_end(plan, node))?;
    if plan.nodes.saturating_sub(block) < node {
        put_across(plan, node, node.saturating_sub(3 * block), ends)?;
        put_across(plan, node, node.saturating_sub(2 * block), ends)?;
        put_across(plan, node, node.saturating_sub(block), ends)?;
    }
    Ok(())
}

/// Appends a node across, if there is such a link.
fn put_across(plan: &Plan, node: u32, end: u32, ends: &mut Vec<u32>) -> Result<(), AllocError>
    requires plan { IsPlan plan.now }
    requires low { 2 ≤ node }
    requires high { node ≤ plan.now.nodes }
    ensures { IfOk result (λ _. ends.new.items ≡ ends.old.items ++ across_of plan.now node end) }
{
    put_if(1 <= end && end != chain_end(plan, node), end, ends)
}

/// How many nodes the path has.
pub fn front(plan: &Plan) -> u32
    requires { IsPlan plan.now }
    ensures front { result ≡ front_of plan.now }
    ensures some { 2 ≤ result }
    ensures few { result ≤ plan.now.nodes + 1 }
{
    match plan.kind {
        Kind::Slow => plan.nodes + 2 - power(plan.levels.saturating_sub(1)),
        Kind::FarCore => plan.nodes + 2 - power(plan.levels.saturating_sub(2)),
        _ => plan.nodes + 2 - power(plan.levels),
    }
}

/// 2 to this power.
fn power(exponent: u8) -> u32
    requires { exponent < 32 }
    ensures { result ≡ 2 ^ exponent }
{
    1 << exponent
}

/// A node's place behind the path.
pub fn place(plan: &Plan, node: u32) -> u32
    requires plan { IsPlan plan.now }
    requires behind { front_of plan.now < node }
    ensures { result ≡ place_of plan.now node }
{
    node - front(plan) + 1
}

/// How many nodes the last block has.
fn last_block(plan: &Plan) -> u32
    requires { IsPlan plan.now }
    ensures block { result ≡ last_block_of plan.now }
    ensures some { 1 ≤ result }
    ensures few { result ≤ plan.now.nodes }
{
    power(plan.levels.saturating_sub(1))
}
