//! What can be had once more.

/// What can be had once more at no cost, as a number, or a reference to what lies elsewhere. So a message may carry a list of
/// any length and stand in several places: the list lies where the setting keeps it.
///
/// ```text
/// impl Again for Message { .. }   // of a type that is `Copy`: *self
/// ```
pub trait Again: Drop {
    ghost use Rattle.std.specs.Prelude.{◌≡◌};

    /// The same once more. O(1), and takes no memory.
    fn again(&self) -> Self
        ensures { result ≡ self.now };
}
