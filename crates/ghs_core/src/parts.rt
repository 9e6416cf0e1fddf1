//! The parts of an opening net.
ghost use Rattle.std.specs.Prelude.{◌≡◌, ℕ, [], IfOk};
ghost use Rattle.peer_channels.specs.Channels.{IsFor, AllEmpty, total_of};
ghost use Rattle.ghs_core.specs.Halts.{AreHalts, none_halted};
ghost use Rattle.ghs_core.specs.Kept.{AreAsleep};

use crate::halts::Halts;
use ghs_graph::graph::Graph;
use ghs_node::message::Message;
use ghs_node::node::Node;
use peer_channels::channels::Channels;
use std::alloc::{AllocError, Global};

/// All nodes, all queues, and what has halted.
#[derive(Debug, Drop)]
pub struct Parts {
    pub nodes: Vec<Node>,
    pub channels: Channels<Message>,
    pub halts: Halts,
}

/// The parts of the opening net of a graph.
pub fn open_parts(alloc: Global, graph: &Graph) -> Result<Parts, AllocError>
    ensures nodes { IfOk result (λ p. AreAsleep graph.now p.nodes.items) }
    ensures queues { IfOk result (λ p. IsFor graph.now p.channels) }
    ensures empty { IfOk result (λ p. AllEmpty p.channels) }
    ensures total { IfOk result (λ p. total_of p.channels ≡ 0) }
    ensures halts { IfOk result (λ p. AreHalts graph.now none_halted p.halts) }
{
    let nodes = sleepers(alloc, graph)?;
    let channels = Channels::new(alloc, graph)?;
    let halts = Halts::none(alloc, graph)?;
    Ok(Parts {
        nodes,
        channels,
        halts,
    })
}

/// All nodes, asleep.
fn sleepers(alloc: Global, graph: &Graph) -> Result<Vec<Node>, AllocError>
    ensures { IfOk result (λ n. AreAsleep graph.now n.items) }
{
    let count = graph.nodes();
    let mut nodes = Vec::with_capacity(alloc, count as usize)?;
    for i in 0..count {
        nodes.push(Node::asleep(alloc, i + 1, graph.ports(i + 1))?)?;
    }
    Ok(nodes)
}
