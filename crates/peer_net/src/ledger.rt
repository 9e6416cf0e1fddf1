//! Ledgers of messages.
ghost use Rattle.std.specs.Prelude.{◌≡◌, length, slice_index};
ghost use Rattle.peer_network.specs.Sums.{sum_below};

/// Messages counted: a list has a place for each kind.
#[derive(Clone, Copy, Debug)]
pub struct Ledger<'a> {
    /// How many were sent.
    pub sent: &'a [u64],
    /// How many were received.
    pub consumed: &'a [u64],
    /// How many wait in queues.
    pub queued: u64,
    /// How many times one was deferred: it waits on, and is neither sent again nor received.
    pub deferred: u64,
}

/// The counts of all kinds together.
pub fn in_total(counts: &[u64]) -> u128
    ensures { result ≡ sum_below (length counts.now) (λ k. slice_index counts.now k) }
{
    let mut total = 0;
    for count in counts {
        total += u128::from(*count);
    }
    total
}
