//! Keys of links.
ghost use Rattle.std.specs.Prelude.{◌≡◌};
ghost use Rattle.ghs_graph.specs.Key.{key_lt};

/// A link's key: its weight, its smaller end and its larger end. Keys are compared in that order.
#[derive(Clone, Copy, Debug, PartialEq, Eq, PartialOrd, Ord)]
pub struct Key {
    pub weight: u32,
    pub a: u32,
    pub b: u32,
}

impl Key {
    /// Whether this key is less than the other.
    pub fn is_below(&self, other: &Key) -> bool
        ensures { result ≡ key_lt self.now other.now }
    {
        self < other
    }
}
