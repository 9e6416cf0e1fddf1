//! Laws of the definitions, which cost nothing to call.
ghost use Rattle.peer_trace.specs.Laws.{AreReadAsBefore, HasOneProtocol, IsOneOwnReading, IsOneReadingOf, ReadsBackOf, ReadsBackOwn};
ghost use Rattle.peer_trace.specs.declared.protocol.Protocol.{Protocol};
ghost use Rattle.std.specs.Prelude.{List, ℕ};

use peer_texts::laws::{law_one_reading, law_trace};

/// Within the limits the text of a run of a protocol has these events and no others, and no fault; and whoever asks for
/// another protocol is told this one.
pub fn law_stored_trace()
    ensures { ReadsBackOf }
{
    law_trace();
}

/// Within the limits the text of a run of a user's own protocol has this mark, these events and no others, and no fault; and
/// whoever asks for any other protocol is told that it is a user's own.
pub fn law_own_trace()
    ensures { ReadsBackOwn }
{
    law_trace();
}

/// As a run of a user's own protocol a text has one mark and one list of events, or one fault, and never both.
pub fn law_one_own_reading()
    ensures { (text : List ℕ) → IsOneOwnReading text }
{
    law_one_reading();
}

/// Of each protocol a text has one list of events or one fault, and never two. It has events of one protocol at most.
pub fn law_one_stored_reading()
    ensures reading { (protocol : Protocol) (text : List ℕ) → IsOneReadingOf protocol text }
    ensures protocol { (text : List ℕ) → HasOneProtocol text }
{
    law_one_reading();
}

/// A text is a run of GHS exactly where it is a trace's text without any name, and with the same events; its faults are
/// those of a trace's text, but where it names another protocol, a user's own among them.
pub fn law_ghs_trace()
    ensures { (text : List ℕ) → AreReadAsBefore text }
{}
