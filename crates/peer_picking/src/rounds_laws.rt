//! What holds of runs by rounds. Each law is a function that does nothing.
ghost use Rattle.peer_picking.specs.Laws.{ChainsAreWithinRounds, RoundsAreChains};

use peer_machine::ends::Ends;

/// No chain has more messages than there were rounds.
pub fn law_chains_are_within_rounds<P: Ends>()
    ensures { ChainsAreWithinRounds P.rules }
{}

/// Where no event may happen any more, the longest chain has as many messages as there were rounds.
pub fn law_rounds_are_chains<P: Ends>()
    ensures { RoundsAreChains P.rules }
{}
