//! Protocols whose words are known before a program runs.
use crate::spoken::Spoken;
use crate::value::Word;
use peer_machine::work::Work;

/// A protocol whose names of kinds and rows the program itself has: so they may be kept as long as it runs.
///
/// ```text
/// let name = Echo::fixed_kind_name(0);
/// // explore: a Word<'static>
/// ```
pub trait FixedWords: Spoken {
    ghost use Rattle.std.specs.Prelude.{◌≡◌, ◌<◌};

    /// The name of a kind of messages, by its number, from 0 on.
    fn fixed_kind_name(kind: usize) -> Word<'static>
        requires { kind < Self.rules.kinds }
        ensures { result ≡ Self.words.kind kind };

    /// The row by which a node reacts to some work.
    fn fixed_row(node: &Self::Node, work: &Work<Self::Message>) -> Word<'static>
        ensures { result ≡ Self.words.row node.now work.now };
}
