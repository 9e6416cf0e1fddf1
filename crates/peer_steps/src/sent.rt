//! Messages that go out, with the places where they will wait.
ghost use Rattle.std.specs.Prelude.{◌≡◌, ◌≤◌, IfOk, map};
ghost use Rattle.peer_network.specs.Network.{network_of, port_at};
ghost use Rattle.peer_steps.specs.Step.{sent_by};

use ghs_graph::graph::Graph;
use ghs_graph::key::Key;
use ghs_graph::port::Port;
use peer_words::spoken::Spoken;
use peer_words::value::Saying;
use std::alloc::{AllocError, Global};

/// A message that a node sends: the port on which it goes out, and the node and its port at which it waits then.
#[derive(Drop)]
pub struct Sent<'s> {
    pub port: u32,
    pub to: u32,
    pub at: u32,
    pub message: Saying<'s>,
}

/// The messages that node `v` sends, each with the place where it will wait. Refusal: out of memory.
pub fn sent_by<'s, P: Spoken>(
    alloc: Global,
    setting: &'s P::Setting,
    graph: &Graph,
    v: u32,
    sends: &[(u32, P::Message)],
) -> Result<Vec<Sent<'s>>, AllocError>
    requires setting { P.goes_by setting.now }
    requires low { 1 ≤ v }
    requires high { v ≤ graph.now.nodes }
    ensures { IfOk result (λ list. list.items ≡ map (sent_by P.words graph.now v) sends.now) }
{
    let mut list = Vec::with_capacity(alloc, sends.len())?;
    for (port, message) in sends {
        list.push(sent_on::<P>(alloc, setting, graph, v, *port, message)?)?;
    }
    Ok(list)
}

/// One of them.
fn sent_on<'s, P: Spoken>(
    alloc: Global,
    setting: &'s P::Setting,
    graph: &Graph,
    v: u32,
    port: u32,
    message: &P::Message,
) -> Result<Sent<'s>, AllocError>
    requires setting { P.goes_by setting.now }
    requires low { 1 ≤ v }
    requires high { v ≤ graph.now.nodes }
    ensures { IfOk result (λ sent. sent ≡ sent_by P.words graph.now v (port, message.now)) }
{
    let end = port_at(graph, v, port);
    Ok(Sent {
        port,
        to: end.far,
        at: end.far_port,
        message: P::says(alloc, setting, message)?,
    })
}

/// A port of node `v`; what is no port leads to node 0.
pub fn port_at(graph: &Graph, v: u32, port: u32) -> Port
    requires low { 1 ≤ v }
    requires high { v ≤ graph.now.nodes }
    ensures { result ≡ port_at (network_of graph.now) v port }
{
    match graph.ports(v).get(port as usize) {
        Some(port) => *port,
        None => Port {
            key: Key {
                weight: 0,
                a: 0,
                b: 0,
            },
            far: 0,
            far_port: 0,
        },
    }
}
