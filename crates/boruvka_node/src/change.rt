//! How a node changes in one reaction.
ghost use Rattle.std.specs.Prelude.{◌≡◌};
ghost use Rattle.boruvka_node.specs.Entering.{entered_port, joined_mark};

use crate::head::Head;
use crate::mark::Mark;
use crate::port_state::PortState;
use ghs_graph::key::Key;
use ghs_node::level::Level;

/// A node enters a fragment of the next level.
#[derive(Clone, Copy, Debug, PartialEq, Eq)]
pub struct Entry {
    pub level: Level,
    pub name: Key,
    /// The port over which it was called; none at the fragment's root.
    pub parent: Option<u32>,
    /// The port that the last level's Connect went out on.
    pub out: Option<u32>,
}

/// A node's new variables, the one port that changes by itself, and then the entry that changes all of them.
#[derive(Clone, Copy, Debug, Drop)]
pub struct Change {
    pub head: Head,
    pub port: Option<(u32, PortState)>,
    pub entry: Option<Entry>,
}

impl Entry {
    /// A port's mark of now: the port that the node went out on and each Asked one become Branch.
    pub(crate) fn joined(&self, port: u32, mark: Mark) -> Mark
        ensures { result ≡ joined_mark self.now port mark }
    {
        if self.out == Some(port) || mark == Mark::Asked {
            Mark::Branch
        } else {
            mark
        }
    }

    /// A port once the node has entered.
    pub(crate) fn entered(&self, port: u32, state: PortState) -> PortState
        ensures { result ≡ entered_port self.now port state }
    {
        let mark = self.joined(port, state.mark);
        let inside = mark.is_basic() && state.was_heard(self.level, self.name);
        PortState {
            mark: if inside { Mark::Inside } else { mark },
            owes: mark == Mark::Branch && self.parent != Some(port),
            ..state
        }
    }
}
