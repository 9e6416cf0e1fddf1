//! Laws of the definitions, which cost nothing to call.
ghost use Rattle.peer_network.specs.declared.event.Event.{Event};
ghost use Rattle.peer_texts.specs.Laws.{IsOneReading, ReadsBack};
ghost use Rattle.std.specs.Prelude.{List, ℕ};

/// Within the limits the text of a list of events has this list and no other, and no fault.
pub fn law_trace()
    ensures { (events : List Event) → ReadsBack events }
{}

/// Each text has one list of events or one fault, and no text has two.
pub fn law_one_reading()
    ensures { (text : List ℕ) → IsOneReading text }
{}
