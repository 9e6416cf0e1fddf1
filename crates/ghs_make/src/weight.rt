//! How a link weighs.
ghost use Rattle.ghs_make.specs.Ends.{front as front_of, twos as twos_of};
ghost use Rattle.ghs_make.specs.Network.{behind_weight as behind_weight_of, chain_weight as chain_weight_of, far_weight as far_weight_of, own_weight as own_weight_of, wake_weight as wake_weight_of, weight_of as weight_of_link};
ghost use Rattle.ghs_make.specs.Plan.{IsPlan};
ghost use Rattle.std.specs.Prelude.{◌<◌, ◌^◌, ◌≡◌, ◌≤◌};

use crate::blocks::{chain_end, front, place};
use crate::kind::Kind;
use crate::network::Network;
use crate::plan::Plan;
use crate::weights::Weights;
use crate::word::{WEIGHING, word};

/// The weight of the link of this number, which joins these nodes, the smaller one first.
pub fn weight_of(network: &Network, number: u32, low: u32, high: u32) -> u64
    requires plan { IsPlan network.now.plan }
    requires low { 2 ≤ high }
    requires high { high ≤ network.now.plan.nodes }
    ensures { result ≡ weight_of_link network.now number low high }
{
    match network.weights {
        Some(Weights::Random) => {
            1 + word(network.plan.seed, WEIGHING, u64::from(number)) % 1_000_000
        }
        Some(Weights::Rising) => u64::from(number) + 1,
        Some(Weights::Falling) => u64::from(network.links.saturating_sub(number)),
        Some(Weights::Equal) => 1,
        None => u64::from(own_weight(&network.plan, low, high)),
    }
}

/// The weight of a link of a kind that has weights of its own.
#[tactic(auto, unfolding(crate::specs::Network::own_weight))]
fn own_weight(plan: &Plan, low: u32, high: u32) -> u32
    requires plan { IsPlan plan.now }
    requires low { 2 ≤ high }
    requires high { high ≤ plan.now.nodes }
    ensures { result ≡ own_weight_of plan.now low high }
{
    match plan.kind {
        Kind::FarCore => far_weight(plan, low, high),
        Kind::ChainWake => wake_weight(low, high),
        _ => chain_weight(plan, low, high),
    }
}

/// That of a slow or busy network.
fn chain_weight(plan: &Plan, low: u32, high: u32) -> u32
    requires plan { IsPlan plan.now }
    requires low { 2 ≤ high }
    requires high { high ≤ plan.now.nodes }
    ensures { result ≡ chain_weight_of plan.now low high }
{
    if low != chain_end(plan, high) {
        64
    } else if high <= front(plan) {
        1
    } else {
        1 + twos(place(plan, high))
    }
}

/// That of a far core.
fn far_weight(plan: &Plan, low: u32, high: u32) -> u32
    requires plan { IsPlan plan.now }
    requires low { 2 ≤ high }
    requires high { high ≤ plan.now.nodes }
    ensures { result ≡ far_weight_of plan.now low high }
{
    if front(plan) < high {
        behind_weight(plan, low, high)
    } else if low == high - 1 {
        1
    } else {
        65
    }
}

/// The same of a node behind the path.
fn behind_weight(plan: &Plan, low: u32, high: u32) -> u32
    requires plan { IsPlan plan.now }
    requires high { high ≤ plan.now.nodes }
    requires behind { front_of plan.now < high }
    ensures { result ≡ behind_weight_of plan.now low high }
{
    let place = place(plan, high);
    if !place.is_power_of_two() {
        1 + twos(place)
    } else if low == 1 || low == front(plan) {
        32 + twos(place)
    } else {
        64
    }
}

/// That of a chain wake.
fn wake_weight(low: u32, high: u32) -> u32
    requires low { 2 ≤ high }
    requires few { high < 2 ^ 31 }
    ensures { result ≡ wake_weight_of low high }
{
    if low == 1 {
        high + 1
    } else if low == high - 1 {
        high - 1
    } else {
        high
    }
}

/// How often 2 divides a number.
#[tactic(auto, unfolding(crate::specs::Ends::twos))]
pub fn twos(number: u32) -> u32
    requires { 1 ≤ number }
    ensures twos { result ≡ twos_of number }
    ensures few { result < 32 }
{
    number.trailing_zeros()
}
