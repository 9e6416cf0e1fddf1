//! What a node keeps of each of its ports.
ghost use Rattle.std.specs.Prelude.{◌≡◌};
ghost use Rattle.boruvka_node.specs.State.{is_missing, was_heard};
ghost use Rattle.boruvka_node.specs.Words.{is_basic};

use crate::mark::Mark;
use ghs_graph::key::Key;
use ghs_node::level::Level;

/// One port of a node.
#[derive(Clone, Copy, Debug, PartialEq, Eq)]
pub struct PortState {
    pub mark: Mark,
    /// Whether a Report is owed from there: the node has called the far end to a search, and hasn't been answered.
    pub owes: bool,
    /// The last level heard there, 0 before the first Name.
    pub level: Level,
    /// The last name heard there, none before the first Name.
    pub name: Option<Key>,
}

impl PortState {
    /// A port at which nothing has happened.
    pub const FRESH: PortState = PortState {
        mark: Mark::Basic,
        owes: false,
        level: Level::ZERO,
        name: None,
    };

    /// Stands where no port is.
    pub const NONE: PortState = PortState {
        mark: Mark::Inside,
        owes: false,
        level: Level::ZERO,
        name: None,
    };

    /// Whether it is untested: Basic, or Asked.
    pub fn is_basic(&self) -> bool
        ensures { result ≡ is_basic self.now.mark }
    {
        self.mark.is_basic()
    }

    /// Whether a search at a level wants for something from there: a Report, or from a Basic port a Name of the level.
    pub fn is_missing(&self, level: Level) -> bool
        ensures { result ≡ is_missing level self.now }
    {
        self.owes || self.is_basic() && self.level.get() < level.get()
    }

    /// Whether this level and name are what was heard there last.
    pub(crate) fn was_heard(&self, level: Level, name: Key) -> bool
        ensures { result ≡ was_heard level name self.now }
    {
        self.level.get() == level.get() && self.name == Some(name)
    }
}
