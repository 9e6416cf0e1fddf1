//! What holds of the bits of every run. Each law is a function that does nothing.
ghost use Rattle.ghs_bits.specs.Laws.{BitsAreByKind, BitsAreWithinBound, LengthsAreShort, LevelsAreFloors, WidthsAreLeast};

/// The bits that a number needs are the least number, one at least, in which it can be written.
pub fn law_widths()
    ensures { WidthsAreLeast }
{}

/// A level has as many bits as the floor of log2 of the nodes needs.
pub fn law_levels()
    ensures { LevelsAreFloors }
{}

/// No message has more than 83 bits: of a graph within the limits a level has five bits at most, and a key two numbers of 21
/// and a weight of 32.
pub fn law_lengths()
    ensures { LengthsAreShort }
{}

/// The bits of a run are those of its messages by kind: of each kind as many as the ledger has, each with what all messages
/// of the kind have, and the bits of a key for each Report that has one.
pub fn law_bits_by_kind()
    ensures { BitsAreByKind }
{}

/// No run sends more bits than the bound on messages allows, if each had as many as an Initiate. No message has more.
pub fn law_bits_within_bound()
    ensures { BitsAreWithinBound }
{}
