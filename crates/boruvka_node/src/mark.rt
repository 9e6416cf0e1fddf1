//! Marks of ports.
ghost use Rattle.std.specs.Prelude.{◌≡◌};
ghost use Rattle.boruvka_node.specs.Words.{is_basic};

/// What a node knows of a link of its own.
#[derive(Clone, Copy, Debug, PartialEq, Eq)]
pub enum Mark {
    /// Nothing yet: it may lead out of the fragment.
    Basic,
    /// No more than that, and the far end's Connect of this level has come. What is said of Basic ports is said of it too.
    Asked,
    /// It is a link of the fragment's tree.
    Branch,
    /// It leads back into the fragment, and is no link of its tree.
    Inside,
}

impl Mark {
    /// Whether a port of this mark is untested: Basic, or Asked.
    pub fn is_basic(self) -> bool
        ensures { result ≡ is_basic self }
    {
        match self {
            Mark::Basic => true,
            Mark::Asked => true,
            Mark::Branch => false,
            Mark::Inside => false,
        }
    }
}
