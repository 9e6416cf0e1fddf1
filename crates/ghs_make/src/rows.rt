//! Networks of nodes in rows: grids and roads.
ghost use Rattle.ghs_make.specs.Ends.{above_picked as above_picked_of, both_picked as both_picked_of, ends_alike as ends_alike_of, goes_beside as goes_beside_of, goes_up as goes_up_of, grid_ends, has_above as has_above_of, has_beside as has_beside_of, is_dead_end as is_dead_end_of, road_ends};
ghost use Rattle.ghs_make.specs.Plan.{IsPlan};
ghost use Rattle.std.specs.Prelude.{IfOk, IsTrue, ◌++◌, ◌<◌, ◌≡◌, ◌≤◌};

use crate::ends::put_if;
use crate::plan::Plan;
use crate::word::{DEAD_ENDS, PICKS, word};
use std::alloc::AllocError;

/// Appends the node above and the one beside.
pub fn put_grid_ends(plan: &Plan, node: u32, ends: &mut Vec<u32>) -> Result<(), AllocError>
    requires plan { IsPlan plan.now }
    requires low { 2 ≤ node }
    ensures { IfOk result (λ _. ends.new.items ≡ ends.old.items ++ grid_ends plan.now node) }
{
    let beside = has_beside(plan, node);
    put_if(has_above(plan, node), node.saturating_sub(plan.width), ends)?;
    put_if(beside, node - 1, ends)
}

/// Appends the node above, the one beside, or both.
pub fn put_road_ends(plan: &Plan, node: u32, ends: &mut Vec<u32>) -> Result<(), AllocError>
    requires plan { IsPlan plan.now }
    requires low { 2 ≤ node }
    ensures { IfOk result (λ _. ends.new.items ≡ ends.old.items ++ road_ends plan.now node) }
{
    let beside = goes_beside(plan, node);
    put_if(goes_up(plan, node), node.saturating_sub(plan.width), ends)?;
    put_if(beside, node - 1, ends)
}

fn has_above(plan: &Plan, node: u32) -> bool
    ensures { result ≡ has_above_of plan.now node }
{
    plan.width < node
}

fn has_beside(plan: &Plan, node: u32) -> bool
    requires plan { IsPlan plan.now }
    requires low { 2 ≤ node }
    ensures { result ≡ has_beside_of plan.now node }
{
    (node - 1) % plan.width != 0
}

fn goes_up(plan: &Plan, node: u32) -> bool
    requires plan { IsPlan plan.now }
    requires low { 2 ≤ node }
    ensures { result ≡ goes_up_of plan.now node }
{
    has_above(plan, node)
        && (!has_beside(plan, node) || (both_picked(plan, node) || above_picked(plan, node)))
}

fn goes_beside(plan: &Plan, node: u32) -> bool
    requires plan { IsPlan plan.now }
    requires low { 2 ≤ node }
    ensures { result ≡ goes_beside_of plan.now node }
{
    has_beside(plan, node)
        && (!has_above(plan, node) || (both_picked(plan, node) || !above_picked(plan, node)))
}

fn both_picked(plan: &Plan, node: u32) -> bool
    requires { 2 ≤ node }
    ensures { result ≡ both_picked_of plan.now node }
{
    ends_alike(plan, node) && word(plan.seed, PICKS, u64::from(node)) % 2 == 0
}

fn above_picked(plan: &Plan, node: u32) -> bool
    requires { 2 ≤ node }
    ensures { result ≡ above_picked_of plan.now node }
{
    if ends_alike(plan, node) {
        word(plan.seed, PICKS, u64::from(node)) / 2 % 2 == 0
    } else {
        is_dead_end(plan, node - 1)
    }
}

/// Whether both the node above and the one beside are meant to be dead ends, or neither is.
fn ends_alike(plan: &Plan, node: u32) -> bool
    requires { 2 ≤ node }
    ensures { result ≡ ends_alike_of plan.now node }
{
    if is_dead_end(plan, node.saturating_sub(plan.width)) {
        is_dead_end(plan, node - 1)
    } else {
        !is_dead_end(plan, node - 1)
    }
}

fn is_dead_end(plan: &Plan, node: u32) -> bool
    ensures { result ≡ is_dead_end_of plan.now node }
{
    word(plan.seed, DEAD_ENDS, u64::from(node)) % 8 == 0
}
