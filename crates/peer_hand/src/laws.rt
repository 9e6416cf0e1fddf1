//! What holds of the events that are offered. A law is a function that does nothing.
ghost use Rattle.peer_hand.specs.Laws.{OfferedAreNext};

use peer_machine::protocol::Protocol;

/// An event is offered exactly where adding it to the events so far gives a run.
///
/// ```text
/// law_offered::<Boruvka>();
/// // in a body: from here on its contract may be used by the proof, and the compiler leaves the call out
/// ```
pub fn law_offered<P: Protocol>()
    ensures { OfferedAreNext P.rules }
{}
