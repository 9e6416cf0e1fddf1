//! What holds of whatever goes on from a net. The law is a function that does nothing.
ghost use Rattle.ghs_core.specs.Fairness.{GoesOnFairly};
ghost use Rattle.ghs_core.specs.NetState.{net_of};

use crate::net::Net;

/// From a net, whatever was played on it: wherever a message is under way, one that doesn't wait can be had by two Takes at
/// most, whether or not a core node has halted; and into however many laps what follows is cut, in each of which every queue
/// is taken from that holds a message that doesn't wait, there are at most 2(B + N), B the bound on messages and N the nodes.
/// No weakly fair course from the net goes on for ever, and each comes to rest once a node of each component has woken.
pub fn law_goes_on_fairly(net: &Net)
    ensures { GoesOnFairly net.now.graph (net_of net.now) }
{
    let _ = net.trace();
}
