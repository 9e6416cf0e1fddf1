//! Counts of messages.
ghost use Rattle.std.specs.Prelude.{◌≡◌, ℕ, false, ◌+◌, ◌<◌, ◌^◌, length, replicate, slice_index, IfOk};
ghost use Rattle.peer_net.specs.Counts.{AreNone, CountsSends, CountsTake};

use peer_machine::protocol::Protocol;
use std::alloc::{AllocError, Global};

/// How many messages of each kind were sent and were consumed, and how many times one was deferred.
#[derive(Debug, Drop)]
pub struct Counts {
    pub sent: Vec<u64>,
    pub consumed: Vec<u64>,
    pub deferred: u64,
}

impl Counts {
    /// None of each kind.
    pub fn none(alloc: Global, kinds: usize) -> Result<Counts, AllocError>
        ensures { IfOk result (AreNone kinds) }
    {
        Ok(Counts {
            sent: vec![in alloc; 0u64; kinds]?,
            consumed: vec![in alloc; 0u64; kinds]?,
            deferred: 0,
        })
    }
}

/// Counts messages that are sent.
pub fn count_sends<P: Protocol>(
    setting: P::Setting,
    counts: &mut Counts,
    sends: &[(u32, P::Message)],
)
    requires setting { P.goes_by setting }
    requires kinds { length counts.old.sent.items ≡ P.rules.kinds }
    requires fits { (k : ℕ) → k < P.rules.kinds → slice_index counts.old.sent.items k + length sends.now < 2 ^ 64 }
    ensures { CountsSends P.rules sends.now counts.old counts.new }
{
    for i in 0..sends.len() {
        let (_, message) = &sends[i];
        counts.sent[P::kind(setting, message)] += 1;
    }
}

/// Counts a message that is consumed.
pub fn count_take<P: Protocol>(setting: P::Setting, counts: &mut Counts, message: P::Message)
    requires setting { P.goes_by setting }
    requires kinds { length counts.old.consumed.items ≡ P.rules.kinds }
    requires fits { (k : ℕ) → k < P.rules.kinds → slice_index counts.old.consumed.items k + 1 < 2 ^ 64 }
    ensures { CountsTake P.rules false message counts.old counts.new }
{
    counts.consumed[P::kind(setting, &message)] += 1;
}

/// Counts a message that is deferred.
pub fn count_deferred(counts: &mut Counts)
    requires { counts.old.deferred + 1 < 2 ^ 64 }
    ensures { counts.new ≡ record counts.old { deferred = counts.old.deferred + 1 } }
{
    counts.deferred += 1;
}
