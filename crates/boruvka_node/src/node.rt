//! Nodes.
ghost use Rattle.std.specs.Prelude.{◌≡◌, ◌<◌, ◌^◌, length, map, slice_index_or, IfOk, None};
ghost use Rattle.ghs_graph.specs.declared.port.Port.{Port};
ghost use Rattle.boruvka_node.specs.State.{degree, key_at, missing, least_basic, no_port, port_at};
ghost use Rattle.boruvka_node.specs.Entering.{after, entered_from, with_port};
ghost use Rattle.boruvka_node.specs.Boruvka.{boruvka};

use crate::change::{Change, Entry};
use crate::head::Head;
use crate::message::Phase;
use crate::port_state::PortState;
use crate::ports::Ports;
use ghs_graph::key::Key;
use ghs_graph::port::Port;
use std::alloc::{AllocError, Global};
use std::marker::Model;

/// A node of the network: its number, the keys of its ports, what it keeps of them, and its own variables.
#[derive(Debug, Drop)]
pub struct Node {
    number: u32,
    keys: Vec<Key>,
    ports: Ports,
    head: Head,
    /// From how many ports a search at the node's level wants for something.
    missing: u32,
}

impl Model for Node {
    ghost use Rattle.boruvka_node.specs.State.{State};
    ghost use Rattle.boruvka_node.specs.Counters.{AreCounted};

    ghost Value = { State };

    ghost view = { λ n. record { number = n.number; keys = n.keys.items; ports = n.ports; head = n.head } };

    ghost invariant = { λ n. AreCounted (record { number = n.number; keys = n.keys.items; ports = n.ports; head = n.head }) n.missing };
}

impl Node {
    /// The opening node of this number with these ports: asleep, its ports Basic.
    ///
    /// ```text
    /// let node = Node::open(alloc, 2, graph.ports(2))?;
    /// // is_asleep(&node), and node.port(0) is PortState::FRESH
    /// ```
    pub fn open(alloc: Global, number: u32, ports: &[Port]) -> Result<Node, AllocError>
        requires few { length ports.now < 2 ^ 24 }
        ensures { IfOk result (λ n. n ≡ boruvka.opening number ports.now) }
    {
        let keys = keys_of(alloc, ports)?;
        Ok(Node {
            number,
            keys,
            ports: Ports::fresh(alloc, ports.len())?,
            head: Head::UNTOUCHED,
            missing: 0,
        })
    }

    /// The node's number.
    pub fn number(&self) -> u32
        ensures { result ≡ self.now.number }
    {
        self.number
    }

    /// How many ports the node has.
    pub fn degree(&self) -> u32
        ensures degree { result ≡ degree self.now }
        ensures few { result < 2 ^ 24 }
    {
        self.ports.len()
    }

    /// The key of a port; where there is none, zeros.
    pub fn key(&self, port: u32) -> Key
        ensures { result ≡ key_at self.now port }
    {
        if (port as usize) < self.keys.len() {
            self.keys[port as usize]
        } else {
            Key {
                weight: 0,
                a: 0,
                b: 0,
            }
        }
    }

    /// What the node keeps of a port; where there is none, one that is Inside.
    pub fn port(&self, port: u32) -> PortState
        ensures { result ≡ port_at self.now port }
    {
        self.ports.get(port)
    }

    /// A port after a change of one port at most; where there is none, one that is Inside.
    pub(crate) fn port_with(&self, change: Option<(u32, PortState)>, port: u32) -> PortState
        ensures { result ≡ slice_index_or (with_port self.now.ports change) port no_port }
    {
        match change {
            Some((changed, state)) if changed == port && port < self.degree() => state,
            _ => self.port(port),
        }
    }

    /// The node's own variables.
    pub fn head(&self) -> &Head
        ensures { result.now ≡ self.now.head }
    {
        &self.head
    }

    /// The least port that is Basic, after a change of one port at most.
    pub(crate) fn least_basic(&self, change: Option<(u32, PortState)>) -> Option<u32>
        ensures { result ≡ least_basic (with_port self.now.ports change) }
    {
        match change {
            Some((port, state)) => self.ports.least_basic_with(port, state),
            None => self.ports.least_basic(),
        }
    }

    /// From how many ports a search at the node's level wants for something, after a change of one port at most.
    pub(crate) fn missing(&self, change: Option<(u32, PortState)>) -> u32
        ensures { result ≡ missing (record self.now { ports = with_port self.now.ports change }) }
    {
        match change {
            Some((port, state)) => {
                self.ports
                    .missing_with(self.head.level, self.missing, port, state)
            }
            None => self.missing,
        }
    }

    /// Makes a change: in constant time and as the least Basic port rises, but for one that enters a fragment, which goes
    /// over the ports. Takes no memory.
    pub fn apply(&mut self, change: &Change)
        ensures { self.new ≡ after self.old change.now }
    {
        let missing = self.missing(change.port);
        if let Some((port, state)) = change.port {
            self.ports.set(port, state);
        }
        self.missing = missing;
        self.enter(change);
    }

    /// Makes the rest of a change, once its one port has changed.
    fn enter(&mut self, change: &Change)
        ensures { self.new ≡ after self.old (record change.now { port = None }) }
    {
        match change.entry {
            Some(entry) => self.enter_ports(change.head, &entry),
            None => self.set_head(change.head),
        }
    }

    /// The ports enter, and the node has new variables: O(ports).
    #[tactic(auto, using(crate::proofs::lemmas::Entered::length_entered))]
    fn enter_ports(&mut self, head: Head, entry: &Entry)
        ensures { self.new ≡ record self.old { ports = entered_from entry.now 0 self.old.ports; head = head } }
    {
        self.ports.enter(entry);
        self.missing = self.ports.missing(head.level);
        self.head = head;
    }

    /// The node has new variables; what is missing is counted again where the level is another.
    fn set_head(&mut self, head: Head)
        ensures { self.new ≡ record self.old { head = head } }
    {
        if head.level.get() != self.head.level.get() {
            self.missing = self.ports.missing(head.level);
        }
        self.head = head;
    }
}

/// Whether a node sleeps: then it may wake by itself.
pub fn is_asleep(node: &Node) -> bool
    ensures { result ≡ boruvka.is_asleep node.now }
{
    node.head().phase == Phase::Sleeping
}

/// Whether a node has halted as a root.
pub fn has_halted(node: &Node) -> bool
    ensures { result ≡ boruvka.has_halted node.now }
{
    node.head().halted
}

/// The keys of ports, in their order.
fn keys_of(alloc: Global, ports: &[Port]) -> Result<Vec<Key>, AllocError>
    ensures { IfOk result (λ keys. keys.items ≡ map (λ (p : Port). p.key) ports.now) }
{
    ports.iter().map(|port| port.key).collect(alloc)
}
