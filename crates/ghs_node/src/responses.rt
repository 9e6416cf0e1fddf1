//! The responses to the seven messages, one function each.
ghost use Rattle.std.specs.Prelude.{◌≡◌, ◌≢◌, ◌<◌, ◌≤◌, ◌++◌, length, None, OnOk, OnErr};
ghost use Rattle.ghs_node.specs.declared.message.Message.{Message};
ghost use Rattle.ghs_node.specs.Words.{on_branches};
ghost use Rattle.ghs_node.specs.NodeState.{degree};
ghost use Rattle.ghs_node.specs.Reaction.{awake, reaction, absorbs, still, within_degree};
ghost use Rattle.ghs_node.specs.Draft.{drafted, goes_on, Answers};
ghost use Rattle.ghs_node.specs.declared.work.Work.{Work};

use crate::delta::Delta;
use crate::fault::NodeFault;
use crate::head::is_below;
use crate::level::Level;
use crate::mark::Mark;
use crate::message::{Message, Phase};
use crate::node::Node;
use crate::procedures::{change_root, report, test};
use ghs_graph::key::Key;
use std::alloc::AllocError;

/// The response to a Connect.
pub(crate) fn on_connect(
    delta: &mut Delta,
    node: &Node,
    port: u32,
    level: Level,
) -> Result<(), NodeFault>
    requires port { port < degree node.now }
    requires count { delta.old.head.find_count ≤ degree node.now }
    ensures { Answers result delta.new (goes_on delta.old (awake (drafted node.now delta.old) port (Message.Connect level))) }
{
    if level.get() < delta.head.level.get() {
        return absorb(delta, node, port);
    }
    if delta.mark_of(node, port) == Mark::Basic {
        return Ok(delta.requeued());
    }
    let Some(next) = Level::of(delta.head.level.get() + 1) else {
        return Err(NodeFault::Unforeseen);
    };
    delta.send(port, Message::Initiate(next, node.key(port), Phase::Find))?;
    Ok(delta.done())
}

/// Takes in the fragment of a lower level behind a port, and has it join the search where there is one.
fn absorb(delta: &mut Delta, node: &Node, port: u32) -> Result<(), NodeFault>
    requires port { port < degree node.now }
    requires count { delta.old.head.find_count ≤ degree node.now }
    ensures { Answers result delta.new (goes_on delta.old (within_degree (drafted node.now delta.old) (absorbs (drafted node.now delta.old) port))) }
{
    let degree = node.degree();
    let level = delta.head.level;
    let name = delta.head().fragment_name();
    let phase = delta.head.phase;
    if phase == Phase::Find {
        delta.head.find_count += 1;
    }
    if delta.head.find_count > degree {
        return Err(NodeFault::Unforeseen);
    }
    delta.mark = Some((port, Mark::Branch));
    delta.send(port, Message::Initiate(level, name, phase))?;
    Ok(delta.done())
}

/// The response to a Test.
pub(crate) fn on_test(
    delta: &mut Delta,
    node: &Node,
    port: u32,
    level: Level,
    name: Key,
) -> Result<(), NodeFault>
    requires port { port < degree node.now }
    requires plain { delta.old.head.name ≢ None → delta.old.mark ≡ None }
    ensures { Answers result delta.new (goes_on delta.old (awake (drafted node.now delta.old) port (Message.Test level name))) }
{
    if level.get() > delta.head.level.get() {
        return Ok(delta.requeued());
    }
    if !delta.head().is_named(name) {
        delta.send(port, Message::Accept)?;
        return Ok(delta.done());
    }
    delta.reject(node, port);
    if delta.head().is_probing(port) {
        Ok(test(delta, node)?)
    } else {
        delta.send(port, Message::Reject)?;
        Ok(delta.done())
    }
}

/// The response to an Initiate: the node takes over the fragment's variables, passes them on over its
/// other branches, and takes part in a search.
pub(crate) fn on_initiate(
    delta: &mut Delta,
    node: &Node,
    port: u32,
    level: Level,
    name: Key,
    phase: Phase,
) -> Result<(), NodeFault>
    requires port { port < degree node.now }
    requires still { delta.old ≡ still node.now }
    ensures { Answers result delta.new (reaction node.now (Work.Deliver port (Message.Initiate level name phase))) }
{
    let passed_on = other_branches(node, port);
    let head = node.head();
    if head.phase == Phase::Sleeping
        || phase == Phase::Sleeping
        || level.get() <= head.level.get()
        || phase == Phase::Find && head.find_count + passed_on > node.degree()
    {
        return Err(NodeFault::Unforeseen);
    }
    delta.head.level = level;
    delta.head.name = Some(name);
    delta.head.phase = phase;
    delta.head.in_branch = Some(port);
    delta.head.best = None;
    send_on_branches(delta, node, port, &Message::Initiate(level, name, phase))?;
    if phase == Phase::Found {
        return Ok(delta.done());
    }
    delta.head.find_count += passed_on;
    Ok(test(delta, node)?)
}

/// How many branches a node has beside that of a port.
#[tactic(auto, using(crate::proofs::Branches::branches_here, crate::proofs::Branches::branches_past))]
fn other_branches(node: &Node, port: u32) -> u32
    ensures count { (m : Message) → length (on_branches node.now.marks port m) ≡ result }
    ensures bound { result ≤ degree node.now }
{
    let mut count = 0;
    for branch in 0..node.degree() {
        if node.mark(branch) == Mark::Branch && branch != port {
            count += 1;
        }
    }
    count
}

/// Sends a message on each branch but that of a port.
#[tactic(auto, using(crate::proofs::Branches::branches_here, crate::proofs::Branches::branches_past))]
fn send_on_branches(
    delta: &mut Delta,
    node: &Node,
    port: u32,
    message: &Message,
) -> Result<(), AllocError>
    ensures ok { OnOk result (delta.new ≡ record delta.old { sends = delta.old.sends ++ on_branches node.now.marks port message.now }) }
    ensures err { OnErr result (0 < length (on_branches node.now.marks port message.now)) }
{
    for branch in 0..node.degree() {
        if node.mark(branch) == Mark::Branch && branch != port {
            delta.send(branch, *message)?;
        }
    }
    Ok(())
}

/// The response to an Accept: the link that was tested leads out of the fragment.
pub(crate) fn on_accept(delta: &mut Delta, node: &Node, port: u32) -> Result<(), NodeFault>
    requires port { port < degree node.now }
    requires still { delta.old ≡ still node.now }
    ensures { Answers result delta.new (awake node.now port Message.Accept) }
{
    if !delta.head().is_probing(port) {
        return Err(NodeFault::Unforeseen);
    }
    delta.head.probe = None;
    delta.head.best = delta.head().better(port, Some(node.key(port)));
    Ok(report(delta)?)
}

/// The response to a Reject: the link that was tested leads back into the fragment.
pub(crate) fn on_reject(delta: &mut Delta, node: &Node, port: u32) -> Result<(), NodeFault>
    requires port { port < degree node.now }
    requires still { delta.old ≡ still node.now }
    ensures { Answers result delta.new (awake node.now port Message.Reject) }
{
    if !node.head().is_probing(port) {
        return Err(NodeFault::Unforeseen);
    }
    delta.reject(node, port);
    Ok(test(delta, node)?)
}

/// The response to a Report, which comes up from a part of the fragment, or over the core from the other half.
pub(crate) fn on_report(
    delta: &mut Delta,
    node: &Node,
    port: u32,
    key: Option<Key>,
) -> Result<(), NodeFault>
    requires port { port < degree node.now }
    requires still { delta.old ≡ still node.now }
    ensures { Answers result delta.new (awake node.now port (Message.Report key)) }
{
    if !delta.head().has_core_at(port) {
        if delta.head.find_count == 0 {
            return Err(NodeFault::Unforeseen);
        }
        delta.head.find_count -= 1;
        delta.head.best = delta.head().better(port, key);
        return Ok(report(delta)?);
    }
    if delta.head.phase == Phase::Find {
        return Ok(delta.requeued());
    }
    if is_below(delta.head().best_key(), key) {
        return change_root(delta, node);
    }
    if key.is_none() && delta.head.best.is_none() {
        return Ok(delta.halted());
    }
    Ok(delta.done())
}
