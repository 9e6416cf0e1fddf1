//! Protocols whose rules are known before a program runs.
use crate::protocol::Protocol;

/// A protocol with one setting, which the program itself has.
///
/// ```text
/// let world = World::<Echo>::open(alloc, Echo::setting(), graph, WakeSet::All)?;   // for echo that is `()`
/// ```
pub trait Fixed: Protocol {
    /// The setting that the rules are made of.
    fn setting() -> Self::Setting
        ensures { Self.goes_by result };
}
