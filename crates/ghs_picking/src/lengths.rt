//! How long a run is.
ghost use Rattle.ghs_bits.specs.Bits.{AreBitsOf};
ghost use Rattle.ghs_following.specs.Kept.{AreChainsOf};
ghost use Rattle.ghs_graph.specs.Graph.{Shape};
ghost use Rattle.ghs_picking.specs.Lengths.{lengths_of};
ghost use Rattle.peer_network.specs.Network.{network_of};
ghost use Rattle.ghs_protocol.specs.Run.{IsRun};
ghost use Rattle.peer_network.specs.declared.event.Event.{Event as Happening};
ghost use Rattle.std.specs.Prelude.{[], ◌≡◌, ◌≤◌, ◌^◌, IfOk, List, length};

use ghs_bits::bits::Bits;
use ghs_following::chains::RunChains;
use ghs_following::walk::follow_all;
use ghs_graph::graph::Graph;
use peer_network::event::Event;
use std::alloc::{AllocError, Global};

/// How long a run is, in messages and in bits.
#[derive(Clone, Copy, Debug, PartialEq, Eq)]
pub struct RunLengths {
    /// How many messages its longest chain has; 0, where none was heard.
    pub chain: u64,
    /// How many bits the messages have that were sent, each counted once.
    pub bits: u64,
    /// How many bits the longest message has; 0, where none was sent.
    pub longest: u32,
}

/// How long the run of these events is. They are played once more, each and each message in constant time. Refusal: out of
/// memory.
///
/// ```text
/// let lengths = lengths_of(alloc, world.graph(), world.trace())?;
/// // lengths.chain == 8 in the run of the triangle that docs/class/LESSON.md tells
/// ```
pub fn lengths_of(alloc: Global, graph: &Graph, events: &[Event]) -> Result<RunLengths, AllocError>
    requires run { IsRun (network_of graph.now) events.now }
    requires few { length events.now ≤ 2 ^ 40 }
    ensures { IfOk result (λ l. l ≡ lengths_of graph.now events.now) }
{
    let mut kept = begin(alloc, graph)?;
    follow_all(alloc, graph, events, &mut kept)?;
    Ok(lengths_in(&kept))
}

/// The chains and the bits of a run that has no event yet.
pub(crate) fn begin(alloc: Global, graph: &Graph) -> Result<(RunChains, Bits), AllocError>
    ensures chains { IfOk result (λ k. AreChainsOf graph.now [] k.0) }
    ensures bits { IfOk result (λ k. AreBitsOf graph.now [] k.1) }
{
    let chains = RunChains::none(alloc, graph)?;
    Ok((chains, Bits::none(graph)))
}

/// How long a run is that has these chains and these bits.
pub(crate) fn lengths_in(kept: &(RunChains, Bits)) -> RunLengths
    ensures { (g : Shape) (es : List Happening) → AreChainsOf g es kept.now.0 → AreBitsOf g es kept.now.1 → result ≡ lengths_of g es }
{
    let (chains, bits) = kept;
    RunLengths {
        chain: chains.longest(),
        bits: bits.sent,
        longest: bits.longest,
    }
}
