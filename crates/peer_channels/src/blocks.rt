//! Where the queues of each node stand.
ghost use Rattle.std.specs.Prelude.{◌≡◌, ◌+◌, length, slice_index, IfOk};
ghost use Rattle.ghs_graph.specs.Graph.{IsGraph};
ghost use Rattle.peer_channels.specs.Kept.{AreBlocks, AreParts, LeadFar, EachEmpty, queues_in, places_in};

use crate::queue::Queue;
use ghs_graph::graph::Graph;
use std::alloc::{AllocError, Global};

/// Where the queues of each number from 0 to one above the nodes begin, and the greatest number of ports of a node.
#[derive(Debug, Drop)]
pub struct Blocks {
    pub starts: Vec<u32>,
    pub widest: usize,
}

/// A block of queues for each node, as long as it has ports. The number 0 is no node.
pub fn lay_blocks(alloc: Global, graph: &Graph) -> Result<Blocks, AllocError>
    ensures graph { IfOk result (λ _. IsGraph graph.now) }
    ensures blocks { IfOk result (λ b. AreBlocks graph.now graph.now.nodes b.starts.items b.widest) }
{
    let nodes = graph.nodes();
    let mut starts = Vec::with_capacity(alloc, nodes as usize + 2)?;
    starts.push(0)?;
    starts.push(0)?;
    let mut end: u32 = 0;
    let mut widest = 0;
    for i in 0..nodes {
        let degree = graph.ports(i + 1).len();
        end += degree as u32;
        widest = widest.max(degree);
        starts.push(end)?;
    }
    Ok(Blocks { starts, widest })
}

/// A queue without a message for each port, with the place of the one at the far end of its link.
pub fn empty_queues<M: Drop>(
    alloc: Global,
    graph: &Graph,
    starts: &[u32],
) -> Result<Vec<Queue<M>>, AllocError>
    requires { AreParts graph.now starts.now }
    ensures count { IfOk result (λ q. length q.items ≡ slice_index starts.now (graph.now.nodes + 1)) }
    ensures empty { IfOk result (λ q. EachEmpty (queues_in q.items)) }
    ensures far { IfOk result (λ q. LeadFar graph.now starts.now (places_in q.items)) }
{
    let nodes = graph.nodes();
    let mut queues = Vec::with_capacity(alloc, starts[nodes as usize + 1] as usize)?;
    for i in 0..nodes {
        for port in graph.ports(i + 1) {
            queues.push(Queue::new(starts[port.far as usize] + port.far_port))?;
        }
    }
    Ok(queues)
}
