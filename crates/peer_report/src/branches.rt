//! The links that are marked as branches.
ghost use Rattle.std.specs.Prelude.{◌≡◌, ◌≤◌, ◌++◌, ◌∷◌, [], filter, if◌then◌else◌, IfOk};
ghost use Rattle.peer_machine.specs.Branches.{AreBranches};
ghost use Rattle.peer_net.specs.NetState.{network, net_of};
ghost use Rattle.peer_report.specs.Branches.{is_branch_link};

use crate::links::link_ports;
use ghs_graph::graph::Graph;
use ghs_graph::key::Key;
use peer_machine::ends::FindsTree;
use peer_net::net::Net;
use std::alloc::{AllocError, Global};

/// The links that are marked as branches at one end at least, in key order: O(N + E). Once the run has ended they are what the
/// protocol finds.
pub fn branches<P: FindsTree>(alloc: Global, net: &Net<P>) -> Result<Vec<Key>, AllocError>
    ensures links { IfOk result (λ ks. AreBranches P.is_branch (network net.now) (net_of P.rules net.now) ks.items) }
    ensures found { IfOk result (λ ks. P.has_ended net.now.graph (net_of P.rules net.now) → P.found net.now.graph ks.items) }
{
    let _ = net.trace();
    branch_links(alloc, net.graph(), net)
}

/// The branch links of a net of the graph.
fn branch_links<P: FindsTree>(
    alloc: Global,
    graph: &Graph,
    net: &Net<P>,
) -> Result<Vec<Key>, AllocError>
    requires { graph.now ≡ net.now.graph }
    ensures { IfOk result (λ ks. ks.items ≡ filter (is_branch_link P.is_branch graph.now.keys (net_of P.rules net.now)) graph.now.keys) }
{
    let mut found = Vec::new(alloc);
    let links = link_ports(alloc, graph)?;
    for link in links.as_slice() {
        let at_a = has_branch(net, link.key.a, link.at_a);
        let at_b = has_branch(net, link.key.b, link.at_b);
        push_if(&mut found, link.key, at_a || at_b)?;
    }
    Ok(found)
}

/// Whether a node has marked a port as a branch.
fn has_branch<P: FindsTree>(net: &Net<P>, v: u32, port: u32) -> bool
    requires low { 1 ≤ v }
    requires high { v ≤ net.now.graph.nodes }
    ensures { result ≡ P.is_branch ((net_of P.rules net.now).node v) port }
{
    P::is_branch(net.node(v), port)
}

/// Appends a link if it is wanted.
fn push_if(links: &mut Vec<Key>, key: Key, wanted: bool) -> Result<(), AllocError>
    ensures { IfOk result (λ _. links.new.items ≡ links.old.items ++ (if wanted then key ∷ [] else [])) }
{
    if wanted {
        links.push(key)?;
    }
    Ok(())
}
