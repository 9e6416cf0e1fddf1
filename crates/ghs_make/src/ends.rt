//! The links of each kind: the smaller ends of a node's links to nodes with smaller numbers.
ghost use Rattle.ghs_make.specs.Ends.{complete_ends, one_if, ring_ends, smaller_ends as smaller_ends_of};
ghost use Rattle.ghs_make.specs.Plan.{IsPlan};
ghost use Rattle.std.specs.Prelude.{IfOk, ◌++◌, ◌≡◌, ◌≤◌};

use crate::blocks::{chain_end, put_busy_ends};
use crate::far::{put_far_ends, put_one_and_run};
use crate::kind::Kind;
use crate::picks::put_picked_ends;
use crate::plan::Plan;
use crate::rows::{put_grid_ends, put_road_ends};
use std::alloc::AllocError;

/// Appends the smaller ends of the links at this node that lead to nodes with smaller numbers.
#[tactic(auto, unfolding(crate::specs::Ends::smaller_ends))]
pub fn put_smaller_ends(plan: &Plan, node: u32, ends: &mut Vec<u32>) -> Result<(), AllocError>
    requires plan { IsPlan plan.now }
    requires low { 2 ≤ node }
    requires high { node ≤ plan.now.nodes }
    ensures { IfOk result (λ _. ends.new.items ≡ ends.old.items ++ smaller_ends_of plan.now node) }
{
    match plan.kind {
        Kind::Path => ends.push(node - 1)?,
        Kind::Ring => put_ring_ends(plan, node, ends)?,
        Kind::Star => ends.push(1)?,
        Kind::Grid => put_grid_ends(plan, node, ends)?,
        Kind::Complete => put_complete_ends(node, ends)?,
        Kind::Tree => put_picked_ends(plan, node, ends)?,
        Kind::Random => put_picked_ends(plan, node, ends)?,
        Kind::Road => put_road_ends(plan, node, ends)?,
        Kind::Forest => put_picked_ends(plan, node, ends)?,
        Kind::Slow => ends.push(chain_end(plan, node))?,
        Kind::Busy => put_busy_ends(plan, node, ends)?,
        Kind::FarCore => put_far_ends(plan, node, ends)?,
        Kind::ChainWake => put_one_and_run(1, 3, node.saturating_sub(3), ends)?,
    }
    Ok(())
}

/// Appends a node, where it is wanted.
pub fn put_if(wanted: bool, end: u32, ends: &mut Vec<u32>) -> Result<(), AllocError>
    ensures { IfOk result (λ _. ends.new.items ≡ ends.old.items ++ one_if wanted end) }
{
    if wanted {
        ends.push(end)?;
    }
    Ok(())
}

fn put_ring_ends(plan: &Plan, node: u32, ends: &mut Vec<u32>) -> Result<(), AllocError>
    requires { 2 ≤ node }
    ensures { IfOk result (λ _. ends.new.items ≡ ends.old.items ++ ring_ends plan.now node) }
{
    put_if(node == plan.nodes && 2 < node, 1, ends)?;
    ends.push(node - 1)?;
    Ok(())
}

fn put_complete_ends(node: u32, ends: &mut Vec<u32>) -> Result<(), AllocError>
    requires { 2 ≤ node }
    ensures { IfOk result (λ _. ends.new.items ≡ ends.old.items ++ complete_ends node) }
{
    for before in 0..node - 1 {
        ends.push(before + 1)?;
    }
    Ok(())
}
