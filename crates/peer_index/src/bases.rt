//! Where the events of each node begin among all events.
ghost use Rattle.std.specs.Prelude.{◌≡◌, ◌+◌, ◌-◌, ◌<◌, ◌≤◌, ◌^◌, Some, length, slice_get, slice_index, IfOk};
ghost use Rattle.peer_network.specs.declared.event.Event.TheVariants.{Wake};
ghost use Rattle.peer_network.specs.Events.{event_node};
ghost use Rattle.peer_network.specs.Network.{network_of};
ghost use Rattle.peer_index.specs.Places.{all_events, place, HasPlace, IsPlaced};
ghost use Rattle.peer_index.specs.Index.{AreBases, AreOwners, IsOwner};

use crate::placed::Placed;
use ghs_graph::graph::Graph;
use peer_network::event::Event;
use std::alloc::{AllocError, Global};

/// The places of the first events of each node, and behind them how many events there are.
pub fn lay_bases(alloc: Global, graph: &Graph) -> Result<Vec<u32>, AllocError>
    ensures bases { IfOk result (λ bs. AreBases (network_of graph.now) graph.now.nodes bs.items) }
    ensures few { IfOk result (λ _. length (all_events (network_of graph.now)) ≤ 2 ^ 25) }
{
    let nodes = graph.nodes();
    let mut bases = Vec::with_capacity(alloc, nodes as usize + 2)?;
    bases.push(0)?;
    bases.push(0)?;
    let mut end = 0;
    for i in 0..nodes {
        end += graph.ports(i + 1).len() as u32 + 1;
        bases.push(end)?;
    }
    Ok(bases)
}

/// The place of an event. O(1).
pub fn place_of(bases: &[u32], graph: &Graph, event: Event) -> usize
    requires bases { AreBases (network_of graph.now) graph.now.nodes bases.now }
    requires place { HasPlace (network_of graph.now) event }
    ensures { result ≡ place (network_of graph.now) event }
{
    let _ = graph.nodes();
    match event {
        Event::Wake(v) => bases[v as usize] as usize,
        Event::Take(v, port) => bases[v as usize] as usize + 1 + port as usize,
    }
}

/// The place of a placed event, which looks nothing up. O(1).
pub fn place_behind(graph: &Graph, placed: Placed) -> usize
    requires { IsPlaced (network_of graph.now) placed }
    ensures { result ≡ place (network_of graph.now) placed.event }
{
    match placed.event {
        Event::Wake(_) => placed.base as usize,
        Event::Take(_, port) => placed.base as usize + 1 + port as usize,
    }
}

/// The place of the Wake of an event's node. O(1).
pub fn wake_place_of(bases: &[u32], graph: &Graph, event: Event) -> u32
    requires bases { AreBases (network_of graph.now) graph.now.nodes bases.now }
    requires place { HasPlace (network_of graph.now) event }
    ensures { result ≡ place (network_of graph.now) (Wake (event_node event)) }
{
    let _ = graph.nodes();
    match event {
        Event::Wake(v) => bases[v as usize],
        Event::Take(v, _) => bases[v as usize],
    }
}

/// The place of the first event of a node; of the number behind the last node, how many events there are. O(1).
pub fn base_of(bases: &[u32], graph: &Graph, v: u32) -> usize
    requires bases { AreBases (network_of graph.now) graph.now.nodes bases.now }
    requires low { 1 ≤ v }
    requires high { v ≤ graph.now.nodes + 1 }
    ensures base { result ≡ slice_index bases.now v }
    ensures within { result ≤ length (all_events (network_of graph.now)) }
{
    let _ = graph.nodes();
    bases[v as usize] as usize
}

/// The place of the first event of a node, and that behind its last one. O(1).
pub fn span_of(bases: &[u32], graph: &Graph, v: u32) -> (usize, usize)
    requires bases { AreBases (network_of graph.now) graph.now.nodes bases.now }
    requires low { 1 ≤ v }
    requires high { v ≤ graph.now.nodes }
    ensures from { result.0 ≡ slice_index bases.now v }
    ensures to { result.1 ≡ slice_index bases.now (v + 1) }
    ensures order { result.0 < result.1 }
    ensures within { result.1 ≤ length (all_events (network_of graph.now)) }
    ensures few { result.1 < 2 ^ 32 }
{
    let _ = graph.nodes();
    (bases[v as usize] as usize, bases[v as usize + 1] as usize)
}

/// The owner of each place: the node whose event stands there.
pub fn lay_owners(alloc: Global, bases: &[u32], graph: &Graph) -> Result<Vec<u32>, AllocError>
    requires bases { AreBases (network_of graph.now) graph.now.nodes bases.now }
    ensures { IfOk result (λ owners. AreOwners bases.now owners.items) }
{
    let nodes = graph.nodes();
    let mut owners = Vec::with_capacity(alloc, base_of(bases, graph, nodes + 1))?;
    for v in 1..nodes + 1 {
        let (_, end) = span_of(bases, graph, v);
        owners.resize(end, v)?;
    }
    Ok(owners)
}

/// The event at a place. O(1).
pub fn event_at(bases: &[u32], owners: &[u32], graph: &Graph, at: usize) -> Event
    requires bases { AreBases (network_of graph.now) graph.now.nodes bases.now }
    requires owners { AreOwners bases.now owners.now }
    requires within { at < length (all_events (network_of graph.now)) }
    ensures { slice_get (all_events (network_of graph.now)) at ≡ Some result }
{
    let _ = graph.nodes();
    event_of(bases, graph, owners[at], at)
}

/// The event of a node at a place. O(1).
pub fn event_of(bases: &[u32], graph: &Graph, v: u32, at: usize) -> Event
    requires bases { AreBases (network_of graph.now) graph.now.nodes bases.now }
    requires owner { IsOwner bases.now at v }
    requires within { at < length (all_events (network_of graph.now)) }
    ensures { slice_get (all_events (network_of graph.now)) at ≡ Some result }
{
    let _ = graph.nodes();
    event_behind(bases, graph, v, bases[v as usize], at)
}

/// The same, where the place of the node's first event is at hand: the bases only say what is meant. O(1).
pub fn event_behind(bases: &[u32], graph: &Graph, v: u32, base: u32, at: usize) -> Event
    requires bases { AreBases (network_of graph.now) graph.now.nodes bases.now }
    requires owner { IsOwner bases.now at v }
    requires base { base ≡ slice_index bases.now v }
    requires within { at < length (all_events (network_of graph.now)) }
    ensures { slice_get (all_events (network_of graph.now)) at ≡ Some result }
{
    let _ = graph.nodes();
    let wake = base as usize;
    if at == wake {
        Event::Wake(v)
    } else {
        Event::Take(v, (at - wake - 1) as u32)
    }
}
