//! Messages counted by their kinds.
ghost use Rattle.std.specs.Prelude.{◌≡◌, ℕ, ◌+◌, ◌<◌, ◌^◌, length, slice_index};
ghost use Rattle.peer_machine.specs.Ledger.{of_kind};
ghost use Rattle.peer_machine.specs.Rules.{messages};
ghost use Rattle.peer_parts.specs.Kept.{HasCounted};

use peer_machine::protocol::Protocol;

/// Counts messages that are sent.
pub fn count<P: Protocol>(setting: P::Setting, counts: &mut Vec<u64>, sends: &[(u32, P::Message)])
    requires setting { P.goes_by setting }
    requires kinds { length counts.old.items ≡ P.rules.kinds }
    requires fits { (k : ℕ) → k < P.rules.kinds → slice_index counts.old.items k + of_kind P.rules k (messages sends.now) < 2 ^ 64 }
    ensures { HasCounted P.rules (messages sends.now) counts.old.items counts.new.items }
{
    for i in 0..sends.len() {
        let (_, message) = &sends[i];
        counts[P::kind(setting, message)] += 1;
    }
}
