//! Networks.
ghost use Rattle.ghs_gr.specs.declared.raw_graph.TheConstants.{ARC_LIMIT};
ghost use Rattle.ghs_make.specs.Ends.{smaller_ends};
ghost use Rattle.ghs_make.specs.Network.{HasManyEnds, IsNetwork, IsNetworkOf, IsRefusal, count_of, weights_asked};
ghost use Rattle.ghs_make.specs.Plan.{IsPlan};
ghost use Rattle.ghs_make.specs.declared.fault.MakeFault.{MakeFault};
ghost use Rattle.ghs_make.specs.declared.fault.MakeFault.TheVariants as fault;
ghost use Rattle.std.specs.Prelude.{IfErr, IfOk, IsTrue, length, ◌+◌, ◌<◌, ◌≡◌, ◌≤◌, ◌↔◌};

use crate::ends::put_smaller_ends;
use crate::far::far_count;
use crate::fault::MakeFault;
use crate::kind::Kind;
use crate::plan::{Asked, Plan, pairs};
use crate::weights::Weights;
use ghs_gr::raw_graph::ARC_LIMIT;
use std::alloc::{AllocError, Global};

/// A network of a kind. Its links follow from the plan, and are never all kept.
#[derive(Clone, Copy, Debug, Drop)]
pub struct Network {
    pub plan: Plan,
    /// How many links it has.
    pub links: u32,
    /// How they weigh; none where the kind says it.
    pub weights: Option<Weights>,
}

impl Network {
    /// The network of what is asked for. Refusals, in their order: `Nodes`, `LinksGiven`, `WeightsGiven`, `Links`,
    /// `TooManyLinks` where there are more than `ARC_LIMIT`, and `Memory`. It takes as many steps as there are nodes and
    /// links, and memory for the links of one node.
    ///
    /// ```text
    /// let weights = Some(Weights::Falling);
    /// let asked = Asked { kind: Kind::Ring, nodes: 4, seed: 1, links: None, weights };
    /// let network = Network::of(alloc, &asked)?;                // network.links is 4
    /// ```
    pub fn of(alloc: Global, asked: &Asked) -> Result<Network, MakeFault>
        ensures network { IfOk result (λ network. IsNetwork network) }
        ensures asked { IfOk result (λ network. IsNetworkOf asked.now network) }
        ensures refused { IfErr result (λ fault. IsRefusal asked.now fault) }
        ensures unrefused { IfOk result (λ _. IsRefusal asked.now fault.Memory) }
    {
        let plan = Plan::of(asked)?;
        if has_too_many(&plan) {
            return Err(MakeFault::TooManyLinks);
        }
        let links = count(alloc, &plan)?;
        Ok(Network {
            plan,
            links,
            weights: weights_of(asked),
        })
    }
}

/// How links weigh.
fn weights_of(asked: &Asked) -> Option<Weights>
    ensures { result ≡ weights_asked asked.now }
{
    if asked.kind.has_own_weights() {
        None
    } else {
        Some(asked.weights.unwrap_or(Weights::Random))
    }
}

/// Whether there are more links than `ARC_LIMIT`: only a complete network, a far core and a chain wake may have so many.
fn has_too_many(plan: &Plan) -> bool
    requires { IsPlan plan.now }
    ensures { IsTrue result ↔ (ARC_LIMIT < count_of plan.now) }
{
    match plan.kind {
        Kind::Complete => pairs(plan.nodes) > u64::from(ARC_LIMIT),
        Kind::FarCore => count_many(plan) > u64::from(ARC_LIMIT),
        Kind::ChainWake => count_many(plan) > u64::from(ARC_LIMIT),
        _ => false,
    }
}

/// How many links a far core or a chain wake has, without memory for them.
fn count_many(plan: &Plan) -> u64
    requires plan { IsPlan plan.now }
    requires many { HasManyEnds plan.now.kind }
    ensures { result ≡ count_of plan.now }
{
    let mut links: u64 = 0;
    for before in 0..plan.nodes - 1 {
        links += u64::from(ends_among(plan, before + 2));
    }
    links
}

/// How many smaller ends the links of one of its nodes have.
fn ends_among(plan: &Plan, node: u32) -> u32
    requires plan { IsPlan plan.now }
    requires many { HasManyEnds plan.now.kind }
    requires low { 2 ≤ node }
    requires high { node ≤ plan.now.nodes }
    ensures count { result ≡ length (smaller_ends plan.now node) }
    ensures few { result ≤ plan.now.nodes + 1 }
{
    match plan.kind {
        Kind::FarCore => far_count(plan, node),
        _ => node.saturating_sub(3) + 1,
    }
}

/// How many links there are. Refusal: out of memory.
fn count(alloc: Global, plan: &Plan) -> Result<u32, AllocError>
    requires plan { IsPlan plan.now }
    requires few { count_of plan.now ≤ ARC_LIMIT }
    ensures { IfOk result (λ links. links ≡ count_of plan.now) }
{
    let mut ends = Vec::new(alloc);
    let mut links: u32 = 0;
    'nodes: for before in 0..plan.nodes - 1 {
        ends.clear();
        put_smaller_ends(plan, before + 2, &mut ends)?;
        links += ends.len() as u32;
    }
    Ok(links)
}
