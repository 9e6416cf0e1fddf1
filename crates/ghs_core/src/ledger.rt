//! Ledgers of messages.

/// Messages counted, by kind where an array has a place for each of the seven kinds. Requeueing is no sending.
#[derive(Clone, Copy, Debug, PartialEq, Eq)]
pub struct Ledger {
    /// How many were sent.
    pub sent: [u64; 7],
    /// How many were received and are done with.
    pub consumed: [u64; 7],
    /// How often one was put back to the end of its queue.
    pub requeued: u64,
    /// How many wait in queues.
    pub queued: u64,
    /// How many are out of their queues and not yet received; none in a net.
    pub out: u64,
}
