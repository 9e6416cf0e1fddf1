//! Where the nodes of a run by a book have stopped, and which questions the book lacks.
ghost use Rattle.own_book.specs.Entry.{told_in};
ghost use Rattle.own_rules.specs.Stops.{AreWithin, greeting_line, lacked, lacking, question_of, stop_in, stop_line, stops_in};
ghost use Rattle.peer_net.specs.NetState.{net_of};
ghost use Rattle.std.specs.List.{flat_map};
ghost use Rattle.std.specs.Prelude.{IfOk, ◌++◌, codes, ◌≡◌, ◌≤◌};

use crate::node::{Lookup, Node, Reason, State, Stop};
use crate::rulebook::Rulebook;
use ghs_graph::graph::Graph;
use own_book::asking::{put_open, put_take, put_wake};
use peer_machine::protocol::Protocol;
use peer_net::net::Net;
use std::alloc::{AllocError, Global};

/// The nodes of a net that have stopped, by rising number, each with where and why. Refusal: out of memory.
pub fn stops_of<P: Protocol<Node = Node>>(
    alloc: Global,
    net: &Net<P>,
) -> Result<Vec<(u32, Stop)>, AllocError>
    ensures stops { IfOk result (λ stops. stops.items ≡ stops_in (net_of P.rules net.now).node net.now.graph.nodes) }
    ensures nodes { IfOk result (λ stops. AreWithin net.now.graph.nodes stops.items) }
{
    let mut stops = Vec::new(alloc);
    for i in 0..net.graph().nodes() {
        note_stop(&mut stops, i + 1, net.node(i + 1).state)?;
    }
    Ok(stops)
}

/// Puts a node that is as far as this behind others, if it has stopped. Refusal: out of memory.
///
/// ```text
/// note_stop(&mut stops, 2, State::Stopped(stop))?;          // stops ends with (2, stop); of a node that runs it stays as it is
/// ```
pub fn note_stop(stops: &mut Vec<(u32, Stop)>, node: u32, state: State) -> Result<(), AllocError>
    ensures { IfOk result (λ _. stops.new.items ≡ stops.old.items ++ stop_in node state) }
{
    match state {
        State::Runs {
            text: _,
            asleep: _,
            left: _,
        } => Ok(()),
        State::Stopped(stop) => {
            stops.push((node, stop))?;
            Ok(())
        }
    }
}

/// The questions that the book lacks, one a line: that after the greeting, then those at which these nodes of the graph have
/// stopped. Refusal: out of memory.
///
/// ```text
/// let text = lacking_text(alloc, &rules, &graph, &stops)?;
/// // of a node 2 that has no answer when it takes a ping at its port 0: b"take 2 0 ping asleep=yes\n"
/// ```
pub fn lacking_text(
    alloc: Global,
    rules: &Rulebook,
    graph: &Graph,
    stops: &[(u32, Stop)],
) -> Result<Vec<u8>, AllocError>
    requires { AreWithin graph.now.nodes stops.now }
    ensures { IfOk result (λ text. text.items ≡ lacking rules.now graph.now stops.now) }
{
    let mut text = Vec::new(alloc);
    put_greeting(&mut text, rules)?;
    for (node, stop) in stops {
        put_stop(&mut text, rules, graph, *node, *stop)?;
    }
    Ok(text)
}

/// The question after the greeting, where the book doesn't answer it.
pub(crate) fn put_greeting(text: &mut Vec<u8>, rules: &Rulebook) -> Result<(), AllocError>
    ensures { IfOk result (λ _. text.new.items ≡ text.old.items ++ greeting_line (told_in rules.now (codes "own 1"))) }
{
    match rules.told(b"own 1") {
        Some(_) => Ok(()),
        None => text.extend_from_slice(b"own 1\n"),
    }
}

/// The question at which a node has stopped, where the book has no answer to it.
fn put_stop(
    text: &mut Vec<u8>,
    rules: &Rulebook,
    graph: &Graph,
    node: u32,
    stop: Stop,
) -> Result<(), AllocError>
    requires low { 1 ≤ node }
    requires high { node ≤ graph.now.nodes }
    ensures { IfOk result (λ _. text.new.items ≡ text.old.items ++ stop_line rules.now graph.now (node, stop)) }
{
    match stop.reason {
        Reason::Unanswered => {
            put_question(text, rules, graph, node, stop.asked)?;
            text.extend_from_slice(b"\n")
        }
        Reason::Fails(_) => Ok(()),
        Reason::Spent => Ok(()),
    }
}

/// A question of a node; none stands for its opening.
pub(crate) fn put_question(
    text: &mut Vec<u8>,
    rules: &Rulebook,
    graph: &Graph,
    node: u32,
    asked: Option<Lookup>,
) -> Result<(), AllocError>
    requires low { 1 ≤ node }
    requires high { node ≤ graph.now.nodes }
    ensures { IfOk result (λ _. text.new.items ≡ text.old.items ++ question_of rules.now graph.now node asked) }
{
    match asked {
        None => put_open(text, node, graph.ports(node)),
        Some(Lookup::Wake { node, state }) => put_wake(text, node, rules.text(state)),
        Some(
            Lookup::Take {
                node,
                port,
                message,
                state,
            },
        ) => put_take(text, node, port, rules.text(message), rules.text(state)),
    }
}
