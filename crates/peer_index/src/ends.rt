//! What is known of each place among all events.
ghost use Rattle.std.specs.Prelude.{◌≡◌, ◌+◌, ◌-◌, ◌<◌, ◌≤◌, length, slice_index, IfOk, OnOk};
ghost use Rattle.peer_network.specs.Network.{network_of};
ghost use Rattle.peer_index.specs.Places.{all_events, events_to};
ghost use Rattle.peer_index.specs.Index.{AreBases, AreEnds, AreFars, AreOwnBases, AreOwners, IsOwner, fars_in, own_bases_in, owners_in};

use crate::bases::{base_of, place_of};
use ghs_graph::graph::Graph;
use peer_network::event::Event;
use std::alloc::{AllocError, Global};

/// What is known of a place: the near end and the far one, and where the near one's events begin.
#[derive(Clone, Copy, Debug)]
pub struct Ends {
    /// The node whose event stands there.
    pub owner: u32,
    /// Of a Take the place of the Take at the far end of its port; of a Wake its own.
    pub far: u32,
    /// The place of the Wake of that node.
    pub base: u32,
}

/// The ends of each place. O(N + E).
pub fn lay_ends(alloc: Global, bases: &[u32], graph: &Graph) -> Result<Vec<Ends>, AllocError>
    requires bases { AreBases (network_of graph.now) graph.now.nodes bases.now }
    ensures owners { IfOk result (λ ends. AreOwners bases.now (owners_in ends.items)) }
    ensures own { IfOk result (λ ends. AreOwnBases bases.now (owners_in ends.items) (own_bases_in ends.items)) }
    ensures fars { IfOk result (λ ends. AreFars (network_of graph.now) (all_events (network_of graph.now)) (fars_in ends.items)) }
{
    let nodes = graph.nodes();
    let mut ends = Vec::with_capacity(alloc, base_of(bases, graph, nodes + 1))?;
    for v in 1..nodes + 1 {
        lay_node(bases, graph, v, &mut ends)?;
    }
    Ok(ends)
}

/// Lays those of a node behind those of the nodes before it.
fn lay_node(bases: &[u32], graph: &Graph, v: u32, ends: &mut Vec<Ends>) -> Result<(), AllocError>
    requires bases { AreBases (network_of graph.now) graph.now.nodes bases.now }
    requires low { 1 ≤ v }
    requires high { v ≤ graph.now.nodes }
    requires before { AreEnds (network_of graph.now) bases.now (events_to (network_of graph.now) (v - 1)) ends.old.items }
    ensures { OnOk result (AreEnds (network_of graph.now) bases.now (events_to (network_of graph.now) v) ends.new.items) }
{
    let _ = graph.nodes();
    let base = bases[v as usize];
    ends.push(Ends {
        owner: v,
        far: base,
        base,
    })?;
    for port in graph.ports(v) {
        ends.push(Ends {
            owner: v,
            far: place_of(bases, graph, Event::Take(port.far, port.far_port)) as u32,
            base,
        })?;
    }
    Ok(())
}

/// The node whose event stands at a place. O(1).
pub fn owner_at(bases: &[u32], ends: &[Ends], at: usize) -> u32
    requires owners { AreOwners bases.now (owners_in ends.now) }
    requires within { at < length ends.now }
    ensures { IsOwner bases.now at result }
{
    ends[at].owner
}

/// What is known of a place. O(1).
pub fn ends_at(bases: &[u32], ends: &[Ends], at: usize) -> Ends
    requires owners { AreOwners bases.now (owners_in ends.now) }
    requires own { AreOwnBases bases.now (owners_in ends.now) (own_bases_in ends.now) }
    requires within { at < length ends.now }
    ensures owner { IsOwner bases.now at result.owner }
    ensures base { result.base ≡ slice_index bases.now result.owner }
{
    ends[at]
}

/// The place at the far end. O(1).
pub fn far_at(ends: &[Ends], at: usize) -> usize
    requires { at < length ends.now }
    ensures { result ≡ slice_index (fars_in ends.now) at }
{
    ends[at].far as usize
}
