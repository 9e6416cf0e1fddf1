//! What the events of one part come to.
ghost use Rattle.std.specs.Prelude.{◌≡◌, ◌+◌, ◌-◌, ◌<◌, ◌^◌, ℕ, length, slice_index};
ghost use Rattle.ghs_core.specs.Dispatch.{CountsSends, messages_of};
ghost use Rattle.ghs_protocol.specs.Ledger.{of_kind};

use ghs_node::message::Message;

/// How many events a part has, and how many messages of each kind they sent for the first time.
#[derive(Clone, Copy, Debug, PartialEq, Eq)]
pub struct Part {
    pub events: u64,
    /// In the order of kinds.
    pub kinds: [u64; 7],
}

impl Part {
    /// An event more, which sends these messages.
    pub(crate) fn add(&mut self, sends: &[(u32, Message)])
        requires events { self.old.events < 2 ^ 64 - 1 }
        requires kinds { (k : ℕ) → k < 7 → slice_index self.old.kinds k + of_kind k (messages_of sends.now) < 2 ^ 64 }
        ensures events { self.new.events ≡ self.old.events + 1 }
        ensures kinds { CountsSends sends.now self.old.kinds self.new.kinds }
        ensures width { length self.new.kinds ≡ length self.old.kinds }
    {
        self.events += 1;
        count(&mut self.kinds, sends);
    }
}

/// Counts messages by their kinds.
fn count(kinds: &mut [u64; 7], sends: &[(u32, Message)])
    requires { (k : ℕ) → k < 7 → slice_index kinds.old k + of_kind k (messages_of sends.now) < 2 ^ 64 }
    ensures counts { CountsSends sends.now kinds.old kinds.new }
    ensures width { length kinds.new ≡ length kinds.old }
{
    for (_, message) in sends {
        kinds[message.kind().place()] += 1;
    }
}
