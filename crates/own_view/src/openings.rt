//! How the nodes of a network open, as lines of JSON.
ghost use Rattle.ghs_graph.specs.Ports.{ports_of};
ghost use Rattle.own_view.specs.Openings.{mark_json, members_of, node_members, opening_line, openings, openings_to};
ghost use Rattle.peer_net.specs.NetState.{net_of};
ghost use Rattle.peer_page.specs.Commas.{parts_to};
ghost use Rattle.peer_words.specs.Json.{said_member};
ghost use Rattle.std.specs.List.{flat_map};
ghost use Rattle.std.specs.Prelude.{IfOk, OnOk, length, ◌++◌, ◌≡◌, ◌≤◌};

use ghs_graph::graph::Graph;
use peer_net::net::Net;
use peer_page::commas::put_comma;
use peer_words::json::{put_member, put_number_member, put_said, put_word};
use peer_words::spoken::Spoken;
use peer_words::value::Said;
use std::alloc::{AllocError, Global};

/// Appends a line for each node of the graph: the marks of its ports and its variables before any event. Refusal: out of memory.
pub(crate) fn put_openings<P: Spoken>(
    alloc: Global,
    text: &mut Vec<u8>,
    setting: P::Setting,
    graph: Graph,
) -> Result<(), AllocError>
    requires { P.goes_by setting }
    ensures { OnOk result (text.new.items ≡ text.old.items ++ openings P.rules P.words graph) }
{
    match Net::<P>::open(alloc, setting, graph) {
        Ok(net) => put_nodes::<P>(alloc, text, &setting, &net),
        Err((_, error)) => Err(error),
    }
}

/// The same of the nodes of a net, as they are.
fn put_nodes<P: Spoken>(
    alloc: Global,
    text: &mut Vec<u8>,
    setting: &P::Setting,
    net: &Net<P>,
) -> Result<(), AllocError>
    requires { P.goes_by setting.now }
    ensures { IfOk result (λ _. text.new.items ≡ text.old.items ++ openings_to P.words net.now.graph (net_of P.rules net.now).node net.now.graph.nodes) }
{
    for i in 0..net.graph().nodes() {
        let ports = degree(net.graph(), i + 1);
        put_node::<P>(alloc, text, setting, i + 1, ports, net.node(i + 1))?;
    }
    Ok(())
}

/// How many ports a node has.
fn degree(graph: &Graph, v: u32) -> u32
    requires low { 1 ≤ v }
    requires high { v ≤ graph.now.nodes }
    ensures { result ≡ length (ports_of graph.now.keys v) }
{
    // Read for its clause: a graph's nodes have few ports.
    let _ = graph.nodes();
    graph.ports(v).len() as u32
}

#[tactic(auto, unfolding(crate::specs::Openings::opening_line))]
fn put_node<P: Spoken>(
    alloc: Global,
    text: &mut Vec<u8>,
    setting: &P::Setting,
    v: u32,
    ports: u32,
    node: &P::Node,
) -> Result<(), AllocError>
    requires { P.goes_by setting.now }
    ensures { IfOk result (λ _. text.new.items ≡ text.old.items ++ opening_line P.words v ports node.now) }
{
    put_number_member(text, b"{", b"opens", u128::from(v))?;
    put_node_members::<P>(alloc, text, setting, ports, node)?;
    text.extend_from_slice(b"}\n")
}

#[tactic(auto, unfolding(crate::specs::Openings::node_members))]
fn put_node_members<P: Spoken>(
    alloc: Global,
    text: &mut Vec<u8>,
    setting: &P::Setting,
    ports: u32,
    node: &P::Node,
) -> Result<(), AllocError>
    requires { P.goes_by setting.now }
    ensures { IfOk result (λ _. text.new.items ≡ text.old.items ++ node_members P.words ports node.now) }
{
    text.extend_from_slice(b",\"marks\":[")?;
    put_marks::<P>(text, setting, ports, node)?;
    text.extend_from_slice(b"],\"set\":{")?;
    put_variables::<P>(alloc, text, setting, node)?;
    text.extend_from_slice(b"}")
}

/// The marks of so many ports, with a comma between each and the next.
fn put_marks<P: Spoken>(
    text: &mut Vec<u8>,
    setting: &P::Setting,
    ports: u32,
    node: &P::Node,
) -> Result<(), AllocError>
    requires { P.goes_by setting.now }
    ensures { IfOk result (λ _. text.new.items ≡ text.old.items ++ parts_to ports (mark_json P.words node.now)) }
{
    for port in 0..ports {
        put_comma(text, port as usize)?;
        put_mark::<P>(text, setting, node, port)?;
    }
    Ok(())
}

fn put_mark<P: Spoken>(
    text: &mut Vec<u8>,
    setting: &P::Setting,
    node: &P::Node,
    port: u32,
) -> Result<(), AllocError>
    requires { P.goes_by setting.now }
    ensures { IfOk result (λ _. text.new.items ≡ text.old.items ++ mark_json P.words node.now port) }
{
    put_word(text, P::mark(setting, node, port).letters())
}

fn put_variables<P: Spoken>(
    alloc: Global,
    text: &mut Vec<u8>,
    setting: &P::Setting,
    node: &P::Node,
) -> Result<(), AllocError>
    requires { P.goes_by setting.now }
    ensures { IfOk result (λ _. text.new.items ≡ text.old.items ++ members_of (P.words.variables node.now)) }
{
    let mut list = Vec::new(alloc);
    P::put_variables(&mut list, setting, node)?;
    put_members(text, &list)
}

/// Variables as the members of an object, with a comma between each and the next.
fn put_members(text: &mut Vec<u8>, list: &[Said]) -> Result<(), AllocError>
    ensures { IfOk result (λ _. text.new.items ≡ text.old.items ++ members_of list.now) }
{
    match list.split_first() {
        None => Ok(()),
        Some((first, others)) => {
            put_member(text, b"", first)?;
            put_others(text, others)
        }
    }
}

fn put_others(text: &mut Vec<u8>, others: &[Said]) -> Result<(), AllocError>
    ensures { IfOk result (λ _. text.new.items ≡ text.old.items ++ flat_map said_member others.now) }
{
    for said in others {
        put_said(text, said)?;
    }
    Ok(())
}
