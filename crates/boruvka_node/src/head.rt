//! What a node keeps beside its ports.
ghost use Rattle.std.specs.Prelude.{◌≡◌, ◌==◌, ◌&&◌};
ghost use Rattle.ghs_node.specs.Words.{best_key, better, is_name};
ghost use Rattle.boruvka_node.specs.State.{name_of};

use crate::message::Phase;
use ghs_graph::key::Key;
use ghs_node::level::Level;

/// A node's own variables. Ports are numbered from 0 in key order.
#[derive(Clone, Copy, Debug, PartialEq, Eq)]
pub struct Head {
    /// The fragment's level.
    pub level: Level,
    /// The fragment's name; none at level 0.
    pub name: Option<Key>,
    pub phase: Phase,
    /// The port towards the fragment's root; none at a root.
    pub parent: Option<u32>,
    /// The best outgoing link heard of at this level: the port that leads to it, and its key.
    pub best: Option<(u32, Key)>,
    /// The port that this level's Connect went out on.
    pub out: Option<u32>,
    /// Whether the node has halted as a root.
    pub halted: bool,
}

impl Head {
    /// The variables of a node that nothing has happened to.
    pub const UNTOUCHED: Head = Head {
        level: Level::ZERO,
        name: None,
        phase: Phase::Sleeping,
        parent: None,
        best: None,
        out: None,
        halted: false,
    };

    /// The fragment's name. Where it is asked for, it is known.
    pub(crate) fn fragment_name(&self) -> Key
        ensures { result ≡ name_of self.now }
    {
        self.name.unwrap_or(Key {
            weight: 0,
            a: 0,
            b: 0,
        })
    }

    /// Whether the node is in the fragment of this level and name.
    pub(crate) fn is_of(&self, level: Level, fragment: Key) -> bool
        ensures { result ≡ ((level == self.now.level) && is_name self.now.name fragment) }
    {
        level.get() == self.level.get() && self.name == Some(fragment)
    }

    /// The key of the best outgoing link heard of; none stands for infinity.
    pub(crate) fn best_key(&self) -> Option<Key>
        ensures { result ≡ best_key self.now.best }
    {
        self.best.map(|(_, key)| key)
    }

    /// The lesser of the best link so far and one that was heard of at a port.
    pub(crate) fn better(&self, port: u32, key: Option<Key>) -> Option<(u32, Key)>
        ensures { result ≡ better self.now.best port key }
    {
        match (key, self.best) {
            (Some(key), None) => Some((port, key)),
            (Some(key), Some((_, best))) if key.is_below(&best) => Some((port, key)),
            _ => self.best,
        }
    }
}
