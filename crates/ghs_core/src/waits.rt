//! Whether a node would only put a message back.
ghost use Rattle.std.specs.Prelude.{◌≡◌, ◌↔◌, ◌<◌, IsTrue, not};
ghost use Rattle.ghs_node.specs.NodeState.{degree};
ghost use Rattle.ghs_node.specs.Words.{is_at, is_basic, is_find, is_sleeping};
ghost use Rattle.ghs_protocol.specs.Living.{Waits};
ghost use Rattle.ghs_core.specs.Waits.{waits};

use ghs_node::mark::Mark;
use ghs_node::message::{Message, Phase};
use ghs_node::node::Node;

/// Whether a node would only put back a message that comes in at a port: the node is awake, and the message is a Connect
/// not below its level on a Basic port, a Test above its level, or a Report from its in_branch while it searches. O(1).
pub fn waits(node: &Node, port: u32, message: &Message) -> bool
    requires { port < degree node.now }
    ensures test { result ≡ waits node.now port message.now }
    ensures law { IsTrue result ↔ Waits node.now port message.now }
{
    let head = node.head();
    match *message {
        Message::Connect(level) => {
            is_awake(head.phase) && head.level.get() <= level.get() && is_basic(node.mark(port))
        }
        Message::Test(level, _) => is_awake(head.phase) && head.level.get() < level.get(),
        Message::Report(_) => is_searching(head.phase) && is_at(head.in_branch, port),
        Message::Initiate(..) | Message::Accept | Message::Reject | Message::ChangeRoot => false,
    }
}

fn is_awake(phase: Phase) -> bool
    ensures { result ≡ not (is_sleeping phase) }
{
    match phase {
        Phase::Sleeping => false,
        Phase::Find | Phase::Found => true,
    }
}

fn is_searching(phase: Phase) -> bool
    ensures { result ≡ is_find phase }
{
    match phase {
        Phase::Find => true,
        Phase::Sleeping | Phase::Found => false,
    }
}

fn is_basic(mark: Mark) -> bool
    ensures { result ≡ is_basic mark }
{
    match mark {
        Mark::Basic => true,
        Mark::Branch | Mark::Rejected => false,
    }
}

/// Whether a port that may be none is this one.
fn is_at(place: Option<u32>, port: u32) -> bool
    ensures { result ≡ is_at place port }
{
    place == Some(port)
}
