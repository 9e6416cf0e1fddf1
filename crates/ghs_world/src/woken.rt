//! Nodes that a commit has touched.
ghost use Rattle.std.specs.Prelude.{◌≡◌, ◌≤◌, ◌<◌, ◌↔◌, ℕ, length, IfOk};
ghost use Rattle.std.specs.List.{All, Contains};
ghost use Rattle.std.specs.List.Sorted.{IsStrictlyIncreasing};
ghost use Rattle.ghs_graph.specs.Ports.{ports_of};
ghost use Rattle.ghs_node.specs.declared.message.Message.{Message as Letter};
ghost use Rattle.peer_network.specs.Network.{network_of};
ghost use Rattle.ghs_world.specs.Steps.{touched, HasEach};

use ghs_graph::graph::Graph;
use ghs_node::message::Message;
use std::alloc::{AllocError, Global};
use std::marker::Model;

/// Numbers of nodes, rising, each once.
#[derive(Debug, Drop)]
pub struct Woken {
    nodes: Vec<u32>,
}

impl Model for Woken {
    ghost use Rattle.std.specs.Prelude.{ℕ, List};

    ghost Value = { List ℕ };

    ghost view = { λ w. w.nodes.items };
}

impl Woken {
    /// The nodes of these numbers.
    pub(crate) fn of(nodes: Vec<u32>) -> Woken
        ensures { result ≡ nodes.items }
    {
        Woken { nodes }
    }

    /// The numbers.
    pub fn as_slice(&self) -> &[u32]
        ensures { result.now ≡ self.now }
    {
        self.nodes.as_slice()
    }
}

/// What a commit has done.
#[derive(Debug, Drop)]
pub struct Committed {
    /// Of the event's node and the far ends of what it sent, those that may be checked out now.
    pub woken: Woken,
    /// Whether this reaction halted its node.
    pub halted: bool,
}

/// Node `v` and the far ends of what it sends: their numbers, rising, each once.
pub(crate) fn touched(
    alloc: Global,
    graph: &Graph,
    v: u32,
    sends: &[(u32, Message)],
) -> Result<Vec<u32>, AllocError>
    requires low { 1 ≤ v }
    requires high { v ≤ graph.now.nodes }
    requires ports { All (λ (s : ℕ × Letter). s.0 < length (ports_of graph.now.keys v)) sends.now }
    ensures { IfOk result (λ us. HasEach (touched (network_of graph.now) v sends.now) us.items) }
{
    let mut nodes = with_far_ends(alloc, graph, v, sends)?;
    put_in_order(&mut nodes);
    Ok(nodes)
}

fn put_in_order(numbers: &mut Vec<u32>)
    ensures { HasEach numbers.old.items numbers.new.items }
{
    numbers.sort_unstable();
    numbers.dedup();
}

/// Node `v`, and the far end of each message that it sends.
fn with_far_ends(
    alloc: Global,
    graph: &Graph,
    v: u32,
    sends: &[(u32, Message)],
) -> Result<Vec<u32>, AllocError>
    requires low { 1 ≤ v }
    requires high { v ≤ graph.now.nodes }
    requires ports { All (λ (s : ℕ × Letter). s.0 < length (ports_of graph.now.keys v)) sends.now }
    ensures { IfOk result (λ us. us.items ≡ touched (network_of graph.now) v sends.now) }
{
    let ports = graph.ports(v);
    let mut nodes = Vec::with_capacity(alloc, sends.len() + 1)?;
    nodes.push(v)?;
    for (port, _) in sends {
        nodes.push(ports[*port as usize].far)?;
    }
    Ok(nodes)
}
