//! How a run stands, in numbers.
use peer_lengths::lengths::Lengths;

/// How a run stands, in numbers. What a protocol doesn't have is `None`.
#[derive(Clone, Copy, Debug, PartialEq, Eq)]
pub struct Figures {
    pub nodes: u32,
    pub links: u64,
    pub events: u64,
    /// How many messages were sent, of all kinds together.
    pub sent: u64,
    /// How many of each kind, by the protocol's own numbers; 0 behind its last kind.
    pub kinds: [u64; 8],
    /// How often a message was put back to the end of its queue.
    pub requeued: u64,
    /// How many messages wait in queues.
    pub queued: u64,
    /// The bound on the messages sent.
    pub bound: u64,
    /// The greatest level of a node.
    pub level: Option<u8>,
    pub fragments: Option<u64>,
    /// The weight of the branch links together.
    pub weight: Option<u128>,
    /// Whether the run has ended.
    pub ended: bool,
    /// How long the run is: its longest chain, its bits and its longest message.
    pub lengths: Lengths,
}
