//! The parts of an opening net.
ghost use Rattle.std.specs.Prelude.{◌≡◌, IfOk};
ghost use Rattle.peer_net.specs.Kept.{AreOpen};
ghost use Rattle.peer_channels.specs.Channels.{IsFor, AllEmpty, total_of};
ghost use Rattle.peer_net.specs.Counts.{AreNone};

use crate::counts::Counts;
use ghs_graph::graph::Graph;
use peer_channels::channels::Channels;
use peer_machine::protocol::Protocol;
use std::alloc::{AllocError, Global};

/// All nodes, all queues, and the counts.
#[derive(Drop)]
pub struct Parts<P: Protocol> {
    pub nodes: Vec<P::Node>,
    pub channels: Channels<P::Message>,
    pub counts: Counts,
}

/// The parts of the opening net of a graph.
pub fn open_parts<P: Protocol>(
    alloc: Global,
    setting: P::Setting,
    graph: &Graph,
) -> Result<Parts<P>, AllocError>
    requires { P.goes_by setting }
    ensures nodes { IfOk result (λ p. AreOpen P.rules graph.now p.nodes.items) }
    ensures queues { IfOk result (λ p. IsFor graph.now p.channels) }
    ensures empty { IfOk result (λ p. AllEmpty p.channels) }
    ensures total { IfOk result (λ p. total_of p.channels ≡ 0) }
    ensures counts { IfOk result (λ p. AreNone P.rules.kinds p.counts) }
{
    let nodes = open_nodes::<P>(alloc, setting, graph)?;
    let channels = Channels::new(alloc, graph)?;
    let counts = Counts::none(alloc, P::kinds(setting))?;
    Ok(Parts {
        nodes,
        channels,
        counts,
    })
}

/// All nodes, as they open.
fn open_nodes<P: Protocol>(
    alloc: Global,
    setting: P::Setting,
    graph: &Graph,
) -> Result<Vec<P::Node>, AllocError>
    requires { P.goes_by setting }
    ensures { IfOk result (λ n. AreOpen P.rules graph.now n.items) }
{
    let count = graph.nodes();
    let mut nodes = Vec::with_capacity(alloc, count as usize)?;
    for i in 0..count {
        nodes.push(P::open(alloc, setting, i + 1, graph.ports(i + 1))?)?;
    }
    Ok(nodes)
}
