//! What holds of the events that are offered. A law is a function that does nothing.
ghost use Rattle.ghs_hand.specs.Laws.{OfferedAreNext};

use ghs_protocol::interleavings::law_rules;

/// An event is offered exactly where adding it to the events so far gives a run.
pub fn law_offered()
    ensures { OfferedAreNext }
{
    law_rules();
}
