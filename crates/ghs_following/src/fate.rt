//! What becomes of a message, as chains ask it.
ghost use Rattle.ghs_following.specs.Chains.{is_deferred};
ghost use Rattle.std.specs.Prelude.{◌≡◌};

use ghs_node::delta::Fate;

/// Whether a message with this fate is deferred: it goes to the end of its queue.
pub fn is_deferred(fate: Fate) -> bool
    ensures { result ≡ is_deferred fate }
{
    match fate {
        Fate::Consumed => false,
        Fate::Requeued => true,
    }
}
