//! How long a run is.
ghost use Rattle.std.specs.Prelude.{◌≡◌, IfOk};
ghost use Rattle.peer_network.specs.Network.{network_of};
ghost use Rattle.peer_machine.specs.Run.{IsRun};
ghost use Rattle.peer_lengths.specs.Sends.{bits_sent, longest_sent};
ghost use Rattle.peer_lengths.specs.Chain.{longest_chain};

use crate::meter::Meter;
use ghs_graph::graph::Graph;
use peer_machine::event::Event;
use peer_machine::measured::Measured;
use peer_net::net::Net;
use peer_runs::follower::Follower;
use std::alloc::{AllocError, Global};

/// How long a run is, in messages and in bits.
#[derive(Clone, Copy, Debug, PartialEq, Eq)]
pub struct Lengths {
    /// How many messages its longest chain has, each sent because of the one before; 0, where none was consumed.
    pub chain: u64,
    /// How many bits the messages have that were sent.
    pub bits: u128,
    /// How many bits the longest message has; 0, where none was sent.
    pub longest: u32,
}

/// How long the run of these events is. They are played once more: beside its reaction an event takes O(1), and O(1) for each
/// message that it sends. Refusal: out of memory.
///
/// ```text
/// let lengths = lengths_of::<Boruvka>(alloc, (), net.graph(), net.trace())?;
/// // once a run of the path 1-2-3 that node 1 began has ended: a chain of 8 messages, and with weights 5 and 7 53 bits
/// ```
pub fn lengths_of<P: Measured>(
    alloc: Global,
    setting: P::Setting,
    graph: &Graph,
    events: &[Event],
) -> Result<Lengths, AllocError>
    requires setting { P.goes_by setting }
    requires run { IsRun P.rules (network_of graph.now) events.now }
    ensures chain { IfOk result (λ l. l.chain ≡ longest_chain P.rules (network_of graph.now) events.now) }
    ensures bits { IfOk result (λ l. l.bits ≡ bits_sent P.rules graph.now events.now) }
    ensures longest { IfOk result (λ l. l.longest ≡ longest_sent P.rules graph.now events.now) }
{
    let mut net = match Net::<P>::open(alloc, setting, graph.copy(alloc)?) {
        Ok(net) => net,
        Err((_, error)) => return Err(error),
    };
    let mut meter = Meter::<P>::none(alloc, setting, graph)?;
    for event in events {
        let _ = net.trace();
        let seen = meter.look(&net, *event)?;
        let sends = net.play(alloc, *event)?;
        meter.follow(&net, *event, seen, &sends);
    }
    meter.lengths()
}
