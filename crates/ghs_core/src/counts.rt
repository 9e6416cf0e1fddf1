//! Counts of messages by kind.
ghost use Rattle.std.specs.Prelude.{◌≡◌, ℕ, slice_index};

/// For each kind of message how many were sent and how many consumed, and how often one was requeued.
#[derive(Clone, Copy, Debug)]
pub struct Counts {
    pub sent: [u64; 7],
    pub consumed: [u64; 7],
    pub requeued: u64,
}

impl Counts {
    /// Nothing was sent.
    pub fn none() -> Counts
        ensures sent { (k : ℕ) → slice_index result.sent k ≡ 0 }
        ensures consumed { (k : ℕ) → slice_index result.consumed k ≡ 0 }
        ensures requeued { result.requeued ≡ 0 }
    {
        Counts {
            sent: [0; 7],
            consumed: [0; 7],
            requeued: 0,
        }
    }
}
