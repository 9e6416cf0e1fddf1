//! The protocols whose runs are stored.
ghost use Rattle.peer_trace.specs.Protocol.{is_in_heads, name_of, protocol_named};
ghost use Rattle.std.specs.Prelude.{Some, ◌≡◌};

/// A protocol whose runs are stored.
#[derive(Clone, Copy, Debug, Drop, PartialEq, Eq)]
pub enum Protocol {
    /// GHS.
    Ghs,
    /// Borůvka in step.
    Boruvka,
    /// The echo wave.
    Echo,
    /// Gather.
    Gather,
}

impl Protocol {
    /// Its name.
    ///
    /// ```text
    /// let name = Protocol::Boruvka.name();        // "boruvka"
    /// let found = Protocol::named(name);          // Some(Protocol::Boruvka)
    /// let none = Protocol::named("Boruvka");      // None
    /// ```
    pub fn name(self) -> &'static str
        ensures name { result.now ≡ name_of self }
        ensures own { protocol_named result.now ≡ Some self }
    {
        match self {
            Protocol::Ghs => "ghs",
            Protocol::Boruvka => "boruvka",
            Protocol::Echo => "echo",
            Protocol::Gather => "gather",
        }
    }

    /// The protocol of this name.
    pub fn named(name: &str) -> Option<Protocol>
        ensures { result ≡ protocol_named name.now }
    {
        if name == "ghs" {
            return Some(Protocol::Ghs);
        }
        if name == "boruvka" {
            return Some(Protocol::Boruvka);
        }
        if name == "echo" {
            return Some(Protocol::Echo);
        }
        if name == "gather" {
            return Some(Protocol::Gather);
        }
        None
    }

    /// Whether the heads of its stored runs name it.
    pub(crate) fn is_in_heads(self) -> bool
        ensures { result ≡ is_in_heads self }
    {
        match self {
            Protocol::Ghs => false,
            Protocol::Boruvka | Protocol::Echo | Protocol::Gather => true,
        }
    }
}
