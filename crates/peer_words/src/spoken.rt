//! Protocols that have words.
use crate::value::{Said, Saying, Word};
use peer_machine::protocol::Protocol;
use peer_machine::work::Work;
use std::alloc::{AllocError, Global};

/// The ports whose marks a change may change.
#[derive(Clone, Copy, Debug, PartialEq, Eq)]
pub enum Touched {
    NoPort,
    OnePort(u32),
    AllPorts,
}

/// A protocol whose runs can be told: what its messages, rows, marks and variables are called. The words may be known only when
/// it runs, as those of a user's book: then they are lent by its setting.
///
/// ```text
/// impl Spoken for Boruvka { .. }   // its name, its messages in words, the row of a reaction, a node's variables and marks
/// let saying = Boruvka::says(alloc, &(), &Message::ChangeRoot)?;
/// // its kind is `changeroot`, and it carries nothing
/// ```
pub trait Spoken: Protocol {
    ghost use Rattle.std.specs.Prelude.{◌≡◌, ℕ, ◌<◌, ◌++◌, false, IfOk};
    ghost use Rattle.peer_words.specs.Touched.{is_touched};
    ghost use Rattle.peer_words.specs.declared.spoken.Touched.{Touched};
    ghost use Rattle.peer_words.specs.Words.{Words};

    /// The words that the functions below say.
    ghost words: { Words Self.Node Self.Message };

    /// The ports whose marks a change may change.
    ghost touched: { Self.Change → Touched };

    /// The protocol's name, as options and stored runs have it.
    fn name() -> Word<'static>
        ensures { result ≡ words.name };

    /// A message in words. Refusal: out of memory.
    fn says<'s>(
        alloc: Global,
        setting: &'s Self::Setting,
        message: &Self::Message,
    ) -> Result<Saying<'s>, AllocError>
        requires { Self.goes_by setting.now }
        ensures { IfOk result (λ s. s ≡ words.says message.now) };

    /// The name of a kind of messages, by its number, from 0 on.
    fn kind_name<'s>(setting: &'s Self::Setting, kind: usize) -> Word<'s>
        requires setting { Self.goes_by setting.now }
        requires known { kind < Self.rules.kinds }
        ensures { result ≡ words.kind kind };

    /// The row by which a node reacts to some work.
    fn row<'s>(
        setting: &'s Self::Setting,
        node: &Self::Node,
        work: &Work<Self::Message>,
    ) -> Word<'s>
        requires { Self.goes_by setting.now }
        ensures { result ≡ words.row node.now work.now };

    /// Appends the variables of a node, in the order of the texts. Refusal: out of memory.
    fn put_variables<'s>(
        list: &mut Vec<Said<'s>>,
        setting: &'s Self::Setting,
        node: &Self::Node,
    ) -> Result<(), AllocError>
        requires { Self.goes_by setting.now }
        ensures { IfOk result (λ _. list.new.items ≡ list.old.items ++ words.variables node.now) };

    /// The mark of a node's port.
    fn mark<'s>(setting: &'s Self::Setting, node: &Self::Node, port: u32) -> Word<'s>
        requires { Self.goes_by setting.now }
        ensures { result ≡ words.mark node.now port };

    /// The ports whose marks a change may change. O(1).
    fn touches(change: &Self::Change) -> Touched
        ensures { result ≡ touched change.now };

    /// A message in words has the name of its kind.
    ghost names_kinds: { (m : Self.Message) → (words.says m).kind ≡ words.kind (Self.rules.kind_of m) };

    /// A change keeps the marks of all other ports.
    ghost keeps_marks: { (n : Self.Node) (c : Self.Change) (p : ℕ) → is_touched (touched c) p ≡ false → words.mark (Self.after n c) p ≡ words.mark n p };
}
