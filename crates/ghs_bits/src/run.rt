//! The bits of a whole run.
ghost use Rattle.ghs_bits.specs.Bits.{bits_sent, longest_sent};
ghost use Rattle.peer_network.specs.Network.{network_of};
ghost use Rattle.ghs_protocol.specs.Run.{IsRun};
ghost use Rattle.std.specs.Prelude.{◌≡◌, ◌≤◌, ◌^◌, IfOk, length};

use crate::bits::Bits;
use ghs_following::walk::follow_all;
use ghs_graph::graph::Graph;
use peer_network::event::Event;
use std::alloc::{AllocError, Global};

/// How many bits the messages of a run have that were sent, and how many the longest of them has. The events are played once
/// more, each and each message in constant time. Refusal: out of memory.
pub fn bits_of(alloc: Global, graph: &Graph, events: &[Event]) -> Result<Bits, AllocError>
    requires run { IsRun (network_of graph.now) events.now }
    requires few { length events.now ≤ 2 ^ 40 }
    ensures sent { IfOk result (λ b. b.sent ≡ bits_sent graph.now events.now) }
    ensures longest { IfOk result (λ b. b.longest ≡ longest_sent graph.now events.now) }
{
    let mut bits = Bits::none(graph);
    follow_all(alloc, graph, events, &mut bits)?;
    Ok(bits)
}
