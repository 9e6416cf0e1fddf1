//! What a node keeps beside its marks.
ghost use Rattle.std.specs.Prelude.{◌≡◌};
ghost use Rattle.ghs_node.specs.Words.{below, best_key, better, is_at, is_name};
ghost use Rattle.ghs_node.specs.NodeState.{untouched};
ghost use Rattle.ghs_node.specs.Reaction.{name_of, core_port};

use crate::level::Level;
use crate::message::Phase;
use ghs_graph::key::Key;

/// A node's own variables. Ports are numbered from 0 in key order. They lie in memory as they stand here: the small ones
/// side by side, and first what tells whether a message only waits.
#[derive(Clone, Copy, Debug, PartialEq, Eq)]
pub struct Head {
    /// The fragment's level, as far as the node knows.
    pub level: Level,
    pub phase: Phase,
    /// Whether the node has halted as a core node.
    pub halted: bool,
    /// The port towards the fragment's core; none before the first Initiate.
    pub in_branch: Option<u32>,
    /// How many Reports the node waits for.
    pub find_count: u32,
    /// The port whose Test isn't answered yet.
    pub probe: Option<u32>,
    /// The fragment's name; none before the first Initiate.
    pub name: Option<Key>,
    /// The best outgoing link heard of: the port that leads to it, and its key.
    pub best: Option<(u32, Key)>,
}

impl Head {
    /// The variables of a node that nothing has happened to.
    pub fn untouched() -> Head
        ensures { result ≡ untouched }
    {
        Head {
            level: Level::ZERO,
            phase: Phase::Sleeping,
            halted: false,
            in_branch: None,
            find_count: 0,
            probe: None,
            name: None,
            best: None,
        }
    }

    /// The fragment's name. Where it is asked for, it is known.
    pub(crate) fn fragment_name(&self) -> Key
        ensures { result ≡ name_of self.now }
    {
        self.name.unwrap_or(Key {
            weight: 0,
            a: 0,
            b: 0,
        })
    }

    /// The port towards the core. Where it is asked for, it is known.
    pub(crate) fn core_port(&self) -> u32
        ensures { result ≡ core_port self.now }
    {
        self.in_branch.unwrap_or(0)
    }

    /// The key of the best outgoing link heard of; none stands for infinity.
    pub(crate) fn best_key(&self) -> Option<Key>
        ensures { result ≡ best_key self.now.best }
    {
        self.best.map(|(_, key)| key)
    }

    /// The lesser of the best link so far and one that was heard of at a port.
    pub(crate) fn better(&self, port: u32, key: Option<Key>) -> Option<(u32, Key)>
        ensures { result ≡ better self.now.best port key }
    {
        match key {
            Some(key) if is_below(Some(key), self.best_key()) => Some((port, key)),
            _ => self.best,
        }
    }

    /// Whether the fragment has this name.
    pub(crate) fn is_named(&self, name: Key) -> bool
        ensures { result ≡ is_name self.now.name name }
    {
        self.name == Some(name)
    }

    /// Whether the Test that went out on this port isn't answered yet.
    pub(crate) fn is_probing(&self, port: u32) -> bool
        ensures { result ≡ is_at self.now.probe port }
    {
        self.probe == Some(port)
    }

    /// Whether the core lies behind this port.
    pub(crate) fn has_core_at(&self, port: u32) -> bool
        ensures { result ≡ is_at self.now.in_branch port }
    {
        self.in_branch == Some(port)
    }
}

/// Whether a key is less than another; none stands for infinity.
pub(crate) fn is_below(left: Option<Key>, right: Option<Key>) -> bool
    ensures { result ≡ below left right }
{
    match (left, right) {
        (Some(left), Some(right)) => left.is_below(&right),
        (Some(_), None) => true,
        (None, _) => false,
    }
}
