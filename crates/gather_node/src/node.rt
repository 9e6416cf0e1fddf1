//! Nodes.
ghost use Rattle.std.specs.Prelude.{◌≡◌, ◌<◌, ◌^◌, length, map, replicate, slice_index_or, IfOk, false};
ghost use Rattle.ghs_graph.specs.declared.key.Key.{Key};
ghost use Rattle.ghs_graph.specs.declared.port.Port.{Port};
ghost use Rattle.gather_node.specs.State.{after, degree, marks, nothing_brought, with_brought};
ghost use Rattle.gather_node.specs.Gather.{gather};

use crate::change::Change;
use crate::forest::{has_by, is_rising};
use crate::head::Head;
use crate::links::{Links, same};
use ghs_graph::key::Key;
use ghs_graph::port::Port;
use std::alloc::{AllocError, Global};
use std::marker::Model;

/// A node of the network: its number, the keys of its ports, its own variables, the links that came with an answer at each
/// port, and which ports are Branch.
#[derive(Debug, Drop)]
pub struct Node<'s> {
    number: u32,
    keys: Vec<Key>,
    head: Head,
    brought: Vec<Option<Links<'s>>>,
    branches: Vec<bool>,
}

impl<'s> Model for Node<'s> {
    ghost use Rattle.gather_node.specs.State.{State};
    ghost use Rattle.gather_node.specs.Held.{IsHeld};

    ghost Value = { State };

    ghost view = { λ n. record { number = n.number; keys = n.keys.items; head = n.head; brought = n.brought.items; branches = n.branches.items } };

    ghost invariant = { λ n. IsHeld n.keys.items n.brought.items n.branches.items };
}

impl<'s> Node<'s> {
    /// The opening node of this number with these ports: asleep, none of them Branch.
    ///
    /// ```text
    /// let node = Node::open(alloc, 2, graph.ports(2))?;
    /// // is_asleep(&node), and no port is a Branch
    /// ```
    pub fn open(alloc: Global, number: u32, ports: &[Port]) -> Result<Node<'s>, AllocError>
        requires few { length ports.now < 2 ^ 24 }
        ensures { IfOk result (λ n. n ≡ gather.opening number ports.now) }
    {
        let keys = keys_of(alloc, ports)?;
        let brought = nothing(alloc, ports.len())?;
        let branches = no_branches(alloc, ports.len())?;
        Ok(Node {
            number,
            keys,
            head: Head::UNTOUCHED,
            brought,
            branches,
        })
    }

    /// The same node once more. Refusal: out of memory.
    pub fn copy(&self, alloc: Global) -> Result<Node<'s>, AllocError>
        ensures { IfOk result (λ n. n ≡ self.now) }
    {
        let mut keys = Vec::new(alloc);
        keys.extend_from_slice(&self.keys)?;
        let mut branches = Vec::new(alloc);
        branches.extend_from_slice(&self.branches)?;
        let brought = copies(alloc, &self.brought)?;
        Ok(Node {
            number: self.number,
            keys,
            head: self.head,
            brought,
            branches,
        })
    }

    /// The node's number.
    pub fn number(&self) -> u32
        ensures { result ≡ self.now.number }
    {
        self.number
    }

    /// How many ports the node has.
    pub fn degree(&self) -> u32
        ensures degree { result ≡ degree self.now }
        ensures few { result < 2 ^ 24 }
    {
        self.keys.len() as u32
    }

    /// The keys of its ports.
    pub fn keys(&self) -> &[Key]
        ensures { result.now ≡ self.now.keys }
    {
        self.keys.as_slice()
    }

    /// The node's own variables.
    pub fn head(&self) -> &Head
        ensures { result.now ≡ self.now.head }
    {
        &self.head
    }

    /// What has come with an answer at each port.
    pub fn brought(&self) -> &[Option<Links<'s>>]
        ensures brought { result.now ≡ self.now.brought }
        ensures count { length result.now ≡ degree self.now }
    {
        self.brought.as_slice()
    }

    /// Which ports are Branch.
    pub fn branches(&self) -> &[bool]
        ensures { result.now ≡ self.now.branches }
    {
        self.branches.as_slice()
    }

    /// Whether a port is a Branch.
    pub fn is_branch(&self, port: u32) -> bool
        ensures { result ≡ slice_index_or self.now.branches port false }
    {
        (port as usize) < self.branches.len() && self.branches[port as usize]
    }

    /// The node changes. Takes no memory.
    pub fn apply(&mut self, change: &Change<'s>)
        ensures { self.new ≡ after self.old change.now }
    {
        if change.forgets {
            forget(&mut self.brought);
        }
        put_brought(&mut self.brought, &change.brought);
        if let Some(tree) = &change.tree {
            mark(&mut self.branches, tree.as_slice(), self.keys.as_slice());
        }
        self.head = change.head;
    }
}

/// Whether a node sleeps: then it may wake by itself.
pub fn is_asleep(node: &Node) -> bool
    ensures { result ≡ gather.is_asleep node.now }
{
    node.head().wave.is_none()
}

/// Whether a node knows the tree.
pub fn has_halted(node: &Node) -> bool
    ensures { result ≡ gather.has_halted node.now }
{
    node.head().halted
}

/// The keys of ports, in their order.
fn keys_of(alloc: Global, ports: &[Port]) -> Result<Vec<Key>, AllocError>
    ensures { IfOk result (λ keys. keys.items ≡ map (λ (p : Port). p.key) ports.now) }
{
    ports.iter().map(|port| port.key).collect(alloc)
}

/// No links at any port.
fn nothing<'s>(alloc: Global, count: usize) -> Result<Vec<Option<Links<'s>>>, AllocError>
    ensures { IfOk result (λ b. b.items ≡ nothing_brought count) }
{
    let mut brought = Vec::with_capacity(alloc, count)?;
    for _place in 0..count {
        brought.push(None)?;
    }
    Ok(brought)
}

/// The same links at each port once more.
fn copies<'s>(
    alloc: Global,
    brought: &[Option<Links<'s>>],
) -> Result<Vec<Option<Links<'s>>>, AllocError>
    ensures { IfOk result (λ b. b.items ≡ brought.now) }
{
    let mut copies = Vec::new(alloc);
    for links in brought {
        copies.push(same(links))?;
    }
    Ok(copies)
}

/// No port is a Branch.
fn no_branches(alloc: Global, count: usize) -> Result<Vec<bool>, AllocError>
    ensures { IfOk result (λ b. b.items ≡ replicate count false) }
{
    vec![in alloc; false; count]
}

/// What has come is forgotten.
fn forget<'s>(brought: &mut Vec<Option<Links<'s>>>)
    ensures { brought.new.items ≡ nothing_brought (length brought.old.items) }
{
    for place in 0..brought.len() {
        brought[place] = None;
    }
}

/// Links come with an answer.
fn put_brought<'s>(brought: &mut Vec<Option<Links<'s>>>, new: &Option<(u32, Links<'s>)>)
    ensures { brought.new.items ≡ with_brought new.now brought.old.items }
{
    if let Some((port, links)) = new {
        if (*port as usize) < brought.len() {
            brought[*port as usize] = Some(links.again());
        }
    }
}

/// The ports whose links are in the tree are Branch, and no others.
fn mark(branches: &mut Vec<bool>, tree: &[Key], keys: &[Key])
    requires { length branches.old.items ≡ length keys.now }
    ensures { branches.new.items ≡ marks tree.now keys.now }
{
    let rising = is_rising(tree);
    for place in 0..branches.len() {
        branches[place] = has_by(rising, tree, &keys[place]);
    }
}
