//! What holds of the length of every run, under any rules. Each law is a function that does nothing; `S` is the type of a
//! node's states, `M` that of messages.
ghost use Rattle.peer_machine.specs.Rules.{Rules};
ghost use Rattle.peer_lengths.specs.Laws.{SendsAreCounted, BitsAreWithin, BitsAreByKind, ChainsAreSent};

/// The messages whose bits are added up are as many as the net has counted.
pub fn law_sends<S, M>()
    ensures { (r : Rules S M) → SendsAreCounted r }
{}

/// They have no more bits than if each were as long as the longest.
pub fn law_bits<S, M>()
    ensures { (r : Rules S M) → BitsAreWithin r }
{}

/// They have as many as those of each kind together.
pub fn law_bits_by_kind<S, M>()
    ensures { (r : Rules S M) → BitsAreByKind r }
{}

/// No chain has more messages than were sent.
pub fn law_chain<S, M>()
    ensures { (r : Rules S M) → ChainsAreSent r }
{}
