//! The procedures of the protocol, which the responses to messages share: wakeup, test, report and change-root.
ghost use Rattle.std.specs.Prelude.{◌≡◌, ◌<◌, length, OnOk, OnErr};
ghost use Rattle.ghs_node.specs.declared.message.Phase.TheVariants.{Sleeping};
ghost use Rattle.ghs_node.specs.NodeState.{degree};
ghost use Rattle.ghs_node.specs.Reaction.{closes, settles, root_to, still};
ghost use Rattle.ghs_node.specs.Draft.{begun_in, Answers};

use crate::delta::Delta;
use crate::fault::NodeFault;
use crate::level::Level;
use crate::mark::Mark;
use crate::message::{Message, Phase};
use crate::node::Node;
use std::alloc::AllocError;

/// Begins a reaction to a message that may wake its node: a node that sleeps wakes first.
pub(crate) fn begin(delta: &mut Delta, node: &Node) -> Result<(), AllocError>
    requires ports { 0 < degree node.now }
    requires still { delta.old ≡ still node.now }
    ensures ok { OnOk result (delta.new ≡ begun_in node.now) }
    ensures err { OnErr result (node.now.head.phase ≡ Sleeping) }
{
    if delta.head.phase == Phase::Sleeping {
        delta.head.level = Level::ZERO;
        delta.head.phase = Phase::Found;
        delta.head.find_count = 0;
        delta.mark = Some((0, Mark::Branch));
        delta.send(0, Message::Connect(Level::ZERO))?;
    }
    Ok(())
}

/// Looks for the fragment's least outgoing link: the least Basic port is tested, and where there is none
/// the node reports.
pub(crate) fn test(delta: &mut Delta, node: &Node) -> Result<(), AllocError>
    ensures ok { OnOk result (delta.new ≡ settles node.now delta.old.head delta.old.mark delta.old.sends) }
    ensures err { OnErr result (0 < length (settles node.now delta.old.head delta.old.mark delta.old.sends).sends) }
{
    match node.least_basic(delta.mark) {
        Some(port) => {
            delta.head.probe = Some(port);
            let name = delta.head().fragment_name();
            delta.send(port, Message::Test(delta.head.level, name))?;
            Ok(delta.done())
        }
        None => {
            delta.head.probe = None;
            report(delta)
        }
    }
}

/// Reports to the core, once no Report is waited for and no Test is out.
pub(crate) fn report(delta: &mut Delta) -> Result<(), AllocError>
    ensures ok { OnOk result (delta.new ≡ closes delta.old.head delta.old.mark delta.old.sends) }
    ensures err { OnErr result (0 < length (closes delta.old.head delta.old.mark delta.old.sends).sends) }
{
    if delta.head.find_count == 0 && delta.head.probe.is_none() {
        delta.head.phase = Phase::Found;
        let best = delta.head().best_key();
        delta.send(delta.head().core_port(), Message::Report(best))?;
    }
    Ok(delta.done())
}

/// Moves the core towards the best link: along a Branch, or out over the link itself by a Connect.
pub(crate) fn change_root(delta: &mut Delta, node: &Node) -> Result<(), NodeFault>
    requires { delta.old ≡ still node.now }
    ensures { Answers result delta.new (root_to node.now node.now.head.best) }
{
    let Some((port, _)) = node.head().best else {
        return Err(NodeFault::Unforeseen);
    };
    if node.mark(port) == Mark::Branch {
        delta.send(port, Message::ChangeRoot)?;
    } else {
        delta.mark = Some((port, Mark::Branch));
        delta.send(port, Message::Connect(node.head().level))?;
    }
    Ok(delta.done())
}
