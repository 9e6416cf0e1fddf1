//! What is asked for, and what it comes to.
ghost use Rattle.ghs_make.specs.Plan.{IsPlan, IsPlanOf, least_links as least_links_of, links_asked, most_links as most_links_of, pairs as pairs_of, refusal as refusal_of};
ghost use Rattle.std.specs.Prelude.{IfErr, IfOk, None, Some, ◌<◌, ◌^◌, ◌≡◌, ◌≤◌};

use crate::fault::MakeFault;
use crate::kind::Kind;
use crate::weights::Weights;
use ghs_gr::raw_graph::{ARC_LIMIT, NODE_LIMIT};
use ghs_graph::bounds::floor_log2;

/// What is asked for.
#[derive(Clone, Copy, Debug, Drop, PartialEq, Eq)]
pub struct Asked {
    pub kind: Kind,
    /// How many nodes: 1 to `NODE_LIMIT`.
    pub nodes: u32,
    pub seed: u64,
    /// How many links, for a kind that takes a number of them.
    pub links: Option<u32>,
    /// How links weigh, for a kind that has no weights of its own.
    pub weights: Option<Weights>,
}

/// All that says which links a network has.
#[derive(Clone, Copy, Debug, Drop)]
pub struct Plan {
    pub kind: Kind,
    pub nodes: u32,
    pub seed: u64,
    /// How many links, where the kind takes a number of them.
    pub links: u32,
    /// How many nodes a row has, where the kind has rows: the greatest number whose square is at most `nodes`.
    pub width: u32,
    /// The greatest number to which 2 is raised in `nodes`.
    pub levels: u8,
}

impl Plan {
    /// The plan of what is asked for. Refusals, in their order: `Nodes`, `LinksGiven`, `WeightsGiven`, `Links`.
    pub fn of(asked: &Asked) -> Result<Plan, MakeFault>
        ensures plan { IfOk result (λ plan. IsPlan plan) }
        ensures asked { IfOk result (λ plan. IsPlanOf asked.now plan) }
        ensures sound { IfOk result (λ _. refusal_of asked.now ≡ None) }
        ensures refused { IfErr result (λ fault. refusal_of asked.now ≡ Some fault) }
    {
        if let Some(fault) = refusal(asked) {
            return Err(fault);
        }
        Ok(Plan {
            kind: asked.kind,
            nodes: asked.nodes,
            seed: asked.seed,
            links: links_of(asked),
            width: asked.nodes.isqrt(),
            levels: floor_log2(asked.nodes),
        })
    }
}

/// The first thing that is wrong with what is asked for.
fn refusal(asked: &Asked) -> Option<MakeFault>
    ensures { result ≡ refusal_of asked.now }
{
    let kind = asked.kind;
    if asked.nodes < 1 || NODE_LIMIT < asked.nodes {
        return Some(MakeFault::Nodes);
    }
    if asked.links.is_some() && !kind.takes_links() {
        return Some(MakeFault::LinksGiven);
    }
    if asked.weights.is_some() && kind.has_own_weights() {
        return Some(MakeFault::WeightsGiven);
    }
    let least = least_links(kind, asked.nodes);
    let most = most_links(kind, asked.nodes);
    match asked.links {
        Some(links) if links < least || most < links => Some(MakeFault::Links { least, most }),
        _ => None,
    }
}

/// How many links there are in all, where the kind takes a number of them.
fn links_of(asked: &Asked) -> u32
    requires some { 1 ≤ asked.now.nodes }
    requires few { asked.now.nodes ≤ NODE_LIMIT }
    ensures { result ≡ links_asked asked.now }
{
    match (asked.links, asked.kind) {
        (Some(links), _) => links,
        (None, Kind::Random) => (2 * asked.nodes).min(most_links(asked.kind, asked.nodes)),
        (None, Kind::Forest) => (asked.nodes - 1) * 3 / 4,
        _ => 0,
    }
}

/// The least number of links that a kind takes.
fn least_links(kind: Kind, nodes: u32) -> u32
    requires { 1 ≤ nodes }
    ensures { result ≡ least_links_of kind nodes }
{
    match kind {
        Kind::Random => nodes - 1,
        _ => 0,
    }
}

/// The greatest number of links that a kind takes.
fn most_links(kind: Kind, nodes: u32) -> u32
    requires some { 1 ≤ nodes }
    requires few { nodes ≤ NODE_LIMIT }
    ensures { result ≡ most_links_of kind nodes }
{
    match kind {
        Kind::Random => pairs(nodes).min(u64::from(ARC_LIMIT)) as u32,
        _ => nodes - 1,
    }
}

/// How many pairs so many nodes make.
pub(crate) fn pairs(nodes: u32) -> u64
    requires { 1 ≤ nodes }
    ensures { result ≡ pairs_of nodes }
{
    u64::from(nodes) * (u64::from(nodes) - 1) / 2
}
