//! The cores with which a run has ended.
ghost use Rattle.std.specs.Prelude.{◌≡◌, ◌≤◌, ◌<◌, ◌+◌, IfOk, length};
ghost use Rattle.ghs_core.specs.NetState.{net_of};
ghost use Rattle.ghs_protocol.specs.Marks.{HasEnded};
ghost use Rattle.ghs_report.specs.Components.{AreAll, HasEndedIn};
ghost use Rattle.ghs_report.specs.Halting.{AreHalted};

use crate::component::Component;
use ghs_core::net::Net;
use std::alloc::{AllocError, Global};

/// The components of a net whose run has ended, by rising least node, each with the level and the name of a node of it
/// that has halted. O(N).
pub fn ended_in(alloc: Global, net: &Net) -> Result<Vec<Component>, AllocError>
    requires { HasEnded net.now.graph (net_of net.now) }
    ensures { IfOk result (λ cs. AreAll net.now.graph (HasEndedIn net.now.graph (net_of net.now)) cs.items) }
{
    let halted = halted_nodes(alloc, net)?;
    let graph = net.graph();
    let mut components = Vec::new(alloc);
    for v in 1..graph.nodes() + 1 {
        if graph.root(v) == v {
            components.push(component(net, v, halted[v as usize]))?;
        }
    }
    Ok(components)
}

/// At the place of each component's least node one of its nodes that have halted, or 0.
fn halted_nodes(alloc: Global, net: &Net) -> Result<Vec<u32>, AllocError>
    ensures { IfOk result (λ nodes. AreHalted net.now.graph (net_of net.now) (net.now.graph.nodes + 1) nodes.items) }
{
    let graph = net.graph();
    let mut halted = vec![in alloc; 0u32; graph.nodes() as usize + 1]?;
    for v in 1..graph.nodes() + 1 {
        if net.node(v).head().halted {
            halted[graph.root(v) as usize] = v;
        }
    }
    Ok(halted)
}

/// The component of its least node, by a node of it that has halted.
fn component(net: &Net, root: u32, node: u32) -> Component
    requires low { 1 ≤ node }
    requires high { node ≤ net.now.graph.nodes }
    ensures root { result.root ≡ root }
    ensures level { result.level ≡ ((net_of net.now).node node).head.level }
    ensures name { result.link ≡ ((net_of net.now).node node).head.name }
{
    let head = net.node(node).head();
    Component {
        root,
        level: u32::from(head.level.get()),
        link: head.name,
    }
}
