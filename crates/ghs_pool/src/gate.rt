//! What is called while a node is out, and when a worker ends.

/// What a worker has done in a run.
#[derive(Clone, Copy, Debug, Drop, PartialEq, Eq)]
pub struct Tally {
    /// Its number, from 1 on.
    pub worker: u32,
    /// The events that it made.
    pub commits: u64,
    /// Of these, those that went out on a ticket; the others were made at once.
    pub tickets: u64,
    /// Of its events, those that it made while 64 nodes and more were ready: numbers that waited in the queue, or nodes out.
    pub crowded: u64,
    /// Of its events, those between whose check-out and commit another worker made one.
    pub beside: u64,
}

/// Is called by each worker.
pub trait Gate {
    /// For each ticket, between the check-out and the commit, while the lock isn't held.
    fn between(&self, ticket: u64);

    /// Once, at its end. Does nothing unless the gate says more.
    fn ended(&self, _tally: Tally) {}
}

/// Does nothing.
#[derive(Clone, Copy, Debug, Drop)]
pub struct OpenGate;

impl Gate for OpenGate {
    fn between(&self, _ticket: u64) {}
}
