//! Kinds of messages.
ghost use Rattle.std.specs.Prelude.{◌≡◌, ◌<◌};
ghost use Rattle.ghs_node.specs.Kind.{place_of};

/// How many kinds of messages there are.
pub const KINDS: usize = 7;

/// The kind of a message, in the order in which ledgers list them.
#[derive(Clone, Copy, Debug, PartialEq, Eq)]
pub enum Kind {
    Connect,
    Initiate,
    Test,
    Accept,
    Reject,
    Report,
    ChangeRoot,
}

impl Kind {
    /// The place of this kind in a ledger, from 0 on.
    pub fn place(self) -> usize
        ensures place { result ≡ place_of self }
        ensures bound { result < KINDS }
    {
        self as usize
    }
}
