//! The reaction of a node to one piece of work.
ghost use Rattle.std.specs.Prelude.{◌≡◌, ◌<◌, ◌↔◌, length, Some, IfOk, IsErrOf, OnOk};
ghost use Rattle.ghs_node.specs.declared.delta.Delta.{Delta};
ghost use Rattle.ghs_node.specs.declared.message.Message.{Message};
ghost use Rattle.ghs_node.specs.NodeState.{IsNode, degree};
ghost use Rattle.ghs_node.specs.Reaction.{reaction, still, HasPort, IsReaction};
ghost use Rattle.ghs_node.specs.Rows.{Row};
ghost use Rattle.ghs_node.specs.NoRule.{NoRule};
ghost use Rattle.ghs_node.specs.Draft.{Answers};

use crate::delta::Delta;
use crate::fault::NodeFault;
use crate::message::{Message, Phase};
use crate::node::Node;
use crate::procedures::{begin, change_root};
use crate::responses::{on_accept, on_connect, on_initiate, on_reject, on_report, on_test};
use crate::work::Work;
use std::alloc::Global;

/// What a node does with a piece of work, by the procedures of Gallager, Humblet and Spira (ACM TOPLAS
/// 5(1), 1983, appendix). The node itself stays as it is: `Node::apply` makes the change. Sends behind the
/// second are all that takes memory.
///
/// ```text
/// let delta = react(alloc, &node, Work::Wake)?;
/// // of a sleeper with ports: delta.mark is Some((0, Mark::Branch)), and delta.sends a Connect of level 0 on port 0
/// node.apply(&delta);                                       // the node is awake
/// let again = react(alloc, &node, Work::Wake);              // Err(NodeFault::Unforeseen): only a sleeper wakes
/// ```
pub fn react(alloc: Global, node: &Node, work: Work) -> Result<Delta, NodeFault>
    ensures reaction { IfOk result (λ d. reaction node.now work ≡ Some d) }
    ensures row { IfOk result (λ d. Row node.now work d) }
    ensures applicable { IfOk result (λ d. IsReaction node.now d) }

    // The faults, the first that holds.
    ensures no_port { IsErrOf result NodeFault.NoPort ↔ ¬ HasPort node.now work }
    ensures unforeseen { IsErrOf result NodeFault.Unforeseen ↔ (HasPort node.now work × NoRule node.now work) }
    ensures memory { IsErrOf result NodeFault.Memory → (d : Delta) × Row node.now work d × (0 < length d.sends) }
{
    let mut delta = Delta::still(alloc, node);
    match react_into(&mut delta, node, work) {
        Ok(()) => Ok(delta),
        Err(fault) => Err(fault),
    }
}

/// The same, worked out in place: the reaction that does nothing (`Delta::still`) becomes the node's. After a fault it is
/// of no use.
pub fn react_into(delta: &mut Delta, node: &Node, work: Work) -> Result<(), NodeFault>
    requires still { delta.old ≡ still node.now }
    ensures reaction { OnOk result (reaction node.now work ≡ Some delta.new) }
    ensures row { OnOk result (Row node.now work delta.new) }
    ensures applicable { OnOk result (IsReaction node.now delta.new) }

    // The faults, the first that holds.
    ensures no_port { IsErrOf result NodeFault.NoPort ↔ ¬ HasPort node.now work }
    ensures unforeseen { IsErrOf result NodeFault.Unforeseen ↔ (HasPort node.now work × NoRule node.now work) }
    ensures memory { IsErrOf result NodeFault.Memory → (d : Delta) × Row node.now work d × (0 < length d.sends) }
{
    let degree = node.degree();
    match work {
        Work::Wake => wake(delta, node),
        Work::Deliver { port, message } => {
            if port < degree {
                respond(delta, node, port, &message)
            } else {
                Err(NodeFault::NoPort)
            }
        }
    }
}

/// A node wakes by itself. One without links halts at once.
fn wake(delta: &mut Delta, node: &Node) -> Result<(), NodeFault>
    requires { delta.old ≡ still node.now }
    ensures { Answers result delta.new (reaction node.now Work.Wake) }
{
    if delta.head.phase != Phase::Sleeping {
        return Err(NodeFault::Unforeseen);
    }
    if node.degree() == 0 {
        delta.head.phase = Phase::Found;
        return Ok(delta.halted());
    }
    begin(delta, node)?;
    Ok(delta.done())
}

/// A message has come in at a port.
fn respond(delta: &mut Delta, node: &Node, port: u32, message: &Message) -> Result<(), NodeFault>
    requires node { IsNode node.now }
    requires port { port < degree node.now }
    requires still { delta.old ≡ still node.now }
    ensures { Answers result delta.new (reaction node.now (Work.Deliver port message.now)) }
{
    match message {
        Message::Connect(level) => {
            begin(delta, node)?;
            on_connect(delta, node, port, *level)
        }
        Message::Initiate(level, name, phase) => {
            on_initiate(delta, node, port, *level, *name, *phase)
        }
        Message::Test(level, name) => {
            begin(delta, node)?;
            on_test(delta, node, port, *level, *name)
        }
        Message::Accept => on_accept(delta, node, port),
        Message::Reject => on_reject(delta, node, port),
        Message::Report(key) => on_report(delta, node, port, *key),
        Message::ChangeRoot => change_root(delta, node),
    }
}
