//! Far cores: a path, blocks of nodes beside it, and askers on it, which are linked with all of it.
ghost use Rattle.ghs_make.specs.Ends.{along_ends, behind_ends, blocks as blocks_of, far_ends, first_watched as first_watched_of, front as front_of, hanging_end as hanging_end_of, high_askers as high_askers_of, hung_ends, is_high_asker as is_high_asker_of, low_askers as low_askers_of, one_and_run, watched as watched_of};
ghost use Rattle.ghs_make.specs.Plan.{IsPlan};
ghost use Rattle.std.specs.Prelude.{IfOk, length, ◌++◌, ◌+◌, ◌<◌, ◌^◌, ◌≡◌, ◌≤◌};

use crate::blocks::{front, place};
use crate::plan::Plan;
use crate::weight::twos;
use std::alloc::AllocError;

/// Appends one node, and so many from another one on.
pub fn put_one_and_run(
    one: u32,
    start: u32,
    count: u32,
    ends: &mut Vec<u32>,
) -> Result<(), AllocError>
    requires { start + count < 2 ^ 32 }
    ensures { IfOk result (λ _. ends.new.items ≡ ends.old.items ++ one_and_run one start count) }
{
    ends.push(one)?;
    for further in 0..count {
        ends.push(start + further)?;
    }
    Ok(())
}

/// Appends the smaller ends of a node's links.
pub fn put_far_ends(plan: &Plan, node: u32, ends: &mut Vec<u32>) -> Result<(), AllocError>
    requires plan { IsPlan plan.now }
    requires low { 2 ≤ node }
    requires high { node ≤ plan.now.nodes }
    ensures { IfOk result (λ _. ends.new.items ≡ ends.old.items ++ far_ends plan.now node) }
{
    if node <= front(plan) {
        put_along_ends(plan, node, ends)
    } else {
        put_behind_ends(plan, node, ends)
    }
}

/// How many smaller ends a node's links have.
#[tactic(auto, using(crate::proofs::Few::high_long, crate::proofs::Few::low_long, crate::proofs::Few::behind_long))]
pub fn far_count(plan: &Plan, node: u32) -> u32
    requires plan { IsPlan plan.now }
    requires low { 2 ≤ node }
    requires high { node ≤ plan.now.nodes }
    ensures count { result ≡ length (far_ends plan.now node) }
    ensures few { result ≤ plan.now.nodes + 1 }
{
    if node > front(plan) {
        behind_count(plan, node)
    } else if is_high_asker(plan, node) {
        node - 1
    } else {
        low_askers(plan).min(node.saturating_sub(3)) + 1
    }
}

/// How many those of a node behind the path have.
#[tactic(auto, using(crate::proofs::Few::hung_long))]
fn behind_count(plan: &Plan, node: u32) -> u32
    requires plan { IsPlan plan.now }
    requires low { 2 ≤ node }
    requires high { node ≤ plan.now.nodes }
    requires behind { front_of plan.now < node }
    ensures count { result ≡ length (behind_ends plan.now node) }
    ensures few { result ≤ plan.now.nodes + 1 }
{
    let place = place(plan, node);
    if place.is_power_of_two() {
        watched(plan, twos(place)) + 1
    } else {
        1
    }
}

/// Those of a node of the path.
fn put_along_ends(plan: &Plan, node: u32, ends: &mut Vec<u32>) -> Result<(), AllocError>
    requires plan { IsPlan plan.now }
    requires low { 2 ≤ node }
    requires high { node ≤ plan.now.nodes }
    ensures { IfOk result (λ _. ends.new.items ≡ ends.old.items ++ along_ends plan.now node) }
{
    if is_high_asker(plan, node) {
        put_one_and_run(node - 1, 1, node - 2, ends)
    } else {
        let askers = low_askers(plan).min(node.saturating_sub(3));
        put_one_and_run(node - 1, 2, askers, ends)
    }
}

/// Those of a node behind the path.
fn put_behind_ends(plan: &Plan, node: u32, ends: &mut Vec<u32>) -> Result<(), AllocError>
    requires plan { IsPlan plan.now }
    requires low { 2 ≤ node }
    requires high { node ≤ plan.now.nodes }
    requires behind { front_of plan.now < node }
    ensures { IfOk result (λ _. ends.new.items ≡ ends.old.items ++ behind_ends plan.now node) }
{
    let place = place(plan, node);
    if place.is_power_of_two() {
        put_hung_ends(plan, twos(place), ends)?;
    } else {
        ends.push(node - 1)?;
    }
    Ok(())
}

/// Those of the first node of a block.
fn put_hung_ends(plan: &Plan, block: u32, ends: &mut Vec<u32>) -> Result<(), AllocError>
    requires plan { IsPlan plan.now }
    requires few { block < 32 }
    ensures { IfOk result (λ _. ends.new.items ≡ ends.old.items ++ hung_ends plan.now block) }
{
    let first = first_watched(plan, block);
    put_one_and_run(hanging_end(plan, block), first, watched(plan, block), ends)
}

fn hanging_end(plan: &Plan, block: u32) -> u32
    requires { IsPlan plan.now }
    ensures { result ≡ hanging_end_of plan.now block }
{
    if block % 2 == 0 { 1 } else { front(plan) }
}

/// How many nodes of the path the first one of a block is linked with, beside the path's end.
fn watched(plan: &Plan, block: u32) -> u32
    requires { IsPlan plan.now }
    ensures watched { result ≡ watched_of plan.now block }
    ensures few { result ≤ plan.now.nodes }
{
    if block == blocks(plan) {
        front(plan).saturating_sub(2).saturating_sub(block)
    } else {
        1
    }
}

/// The first of these.
fn first_watched(plan: &Plan, block: u32) -> u32
    requires { IsPlan plan.now }
    ensures first { result ≡ first_watched_of plan.now block }
{
    if block % 2 == 0 {
        front(plan)
            .saturating_sub(block / 2)
            .saturating_sub(watched(plan, block))
    } else {
        2 + block / 2
    }
}

fn is_high_asker(plan: &Plan, node: u32) -> bool
    requires { IsPlan plan.now }
    ensures { result ≡ is_high_asker_of plan.now node }
{
    let path = front(plan);
    path.saturating_sub(high_askers(plan)) <= node && node < path
}

fn high_askers(plan: &Plan) -> u32
    ensures { result ≡ high_askers_of plan.now }
{
    blocks(plan).saturating_sub(low_askers(plan))
}

fn low_askers(plan: &Plan) -> u32
    ensures { result ≡ low_askers_of plan.now }
{
    blocks(plan) / 2
}

/// How many blocks there are.
fn blocks(plan: &Plan) -> u32
    ensures { result ≡ blocks_of plan.now }
{
    u32::from(plan.levels.saturating_sub(3))
}
