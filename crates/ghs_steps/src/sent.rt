//! Messages that go out, with the places where they will wait.
ghost use Rattle.std.specs.Prelude.{◌≡◌, ◌≤◌, IfOk, map};
ghost use Rattle.ghs_steps.specs.Told.{sent_by};

use ghs_graph::graph::Graph;
use ghs_node::message::Message;
use peer_steps::sent::port_at;
use std::alloc::{AllocError, Global};

/// A message that a node sends: the port on which it goes out, and the node and its port at which it waits then.
#[derive(Clone, Copy, Debug, PartialEq, Eq)]
pub struct Sent {
    pub port: u32,
    pub to: u32,
    pub at: u32,
    pub message: Message,
}

/// The messages that node `v` sends, each with the place where it will wait.
pub fn sent_by(
    alloc: Global,
    graph: &Graph,
    v: u32,
    sends: &[(u32, Message)],
) -> Result<Vec<Sent>, AllocError>
    requires low { 1 ≤ v }
    requires high { v ≤ graph.now.nodes }
    ensures { IfOk result (λ list. list.items ≡ map (sent_by graph.now v) sends.now) }
{
    let mut list = Vec::with_capacity(alloc, sends.len())?;
    for (port, message) in sends {
        let end = port_at(graph, v, *port);
        list.push(Sent {
            port: *port,
            to: end.far,
            at: end.far_port,
            message: *message,
        })?;
    }
    Ok(list)
}
