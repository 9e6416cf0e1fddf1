//! Reactions in the making. A reaction is worked out where it is handed out, so nothing of it is moved.
ghost use Rattle.std.specs.Prelude.{◌≡◌, ◌<◌, ◌≤◌, ◌++◌, ◌∷◌, [], true, OnOk};
ghost use Rattle.ghs_node.specs.NodeState.{mark_at, degree};
ghost use Rattle.ghs_node.specs.Reaction.{does, reject_at, still};
ghost use Rattle.ghs_node.specs.Draft.{drafted, later};

use crate::delta::{Delta, Fate};
use crate::head::Head;
use crate::mark::Mark;
use crate::message::Message;
use crate::node::Node;
use crate::sends::Sends;
use std::alloc::{AllocError, Global};

impl Delta {
    /// The reaction that does nothing, and is done with its message: `react_into` begins with it.
    pub fn still(alloc: Global, node: &Node) -> Delta
        ensures { result ≡ still node.now }
    {
        Delta {
            head: *node.head(),
            mark: None,
            sends: Sends::none(alloc),
            fate: Fate::Consumed,
            halts: false,
        }
    }

    /// The node's head, as it now is.
    pub(crate) fn head(&self) -> &Head
        ensures { result.now ≡ self.now.head }
    {
        &self.head
    }

    /// The reaction sends one message more, the last.
    pub(crate) fn send(&mut self, port: u32, message: Message) -> Result<(), AllocError>
        ensures { OnOk result (self.new ≡ record self.old { sends = self.old.sends ++ (port, message) ∷ [] }) }
    {
        self.sends.push(port, message)
    }

    /// The mark of a port, as it now is.
    pub(crate) fn mark_of(&self, node: &Node, port: u32) -> Mark
        requires { port < degree node.now }
        ensures { result ≡ mark_at (drafted node.now self.now) port }
    {
        match self.mark {
            Some((changed, mark)) if changed == port => mark,
            _ => node.mark(port),
        }
    }

    /// The port's mark becomes Rejected if it is Basic.
    pub(crate) fn reject(&mut self, node: &Node, port: u32)
        requires { port < degree node.now }
        ensures { self.new ≡ record self.old { mark = later self.old.mark (reject_at (drafted node.now self.old) port) } }
    {
        if self.mark_of(node, port) == Mark::Basic {
            self.mark = Some((port, Mark::Rejected));
        }
    }

    /// The reaction is done, and with it the message.
    pub(crate) fn done(&mut self)
        ensures { self.new ≡ does self.old.head self.old.mark self.old.sends }
    {
        self.fate = Fate::Consumed;
        self.halts = false;
    }

    /// The reaction is done, and the message goes to the end of its queue.
    pub(crate) fn requeued(&mut self)
        ensures { self.new ≡ record (does self.old.head self.old.mark self.old.sends) { fate = Fate.Requeued } }
    {
        self.fate = Fate::Requeued;
        self.halts = false;
    }

    /// The reaction is done, and the node halts.
    pub(crate) fn halted(&mut self)
        ensures { self.new ≡ record (does (record self.old.head { halted = true }) self.old.mark self.old.sends) { halts = true } }
    {
        self.head.halted = true;
        self.fate = Fate::Consumed;
        self.halts = true;
    }
}
