//! How links weigh.
ghost use Rattle.ghs_make.specs.Weights.{weights_name, weights_named};
ghost use Rattle.std.specs.Prelude.{◌≡◌};

/// How links weigh, in the order of their lines.
#[derive(Clone, Copy, Debug, Drop, PartialEq, Eq)]
pub enum Weights {
    /// From 1 to a million, as the seed picks.
    Random,
    /// 1, 2, 3 and so on.
    Rising,
    /// The last one 1, the one before it 2, and so on.
    Falling,
    /// All 1.
    Equal,
}

impl Weights {
    /// The name, as a command line has it.
    pub fn name(self) -> &'static str
        ensures { result.now ≡ weights_name self }
    {
        match self {
            Weights::Random => "random",
            Weights::Rising => "rising",
            Weights::Falling => "falling",
            Weights::Equal => "equal",
        }
    }

    /// Those of this name.
    pub fn named(name: &str) -> Option<Weights>
        ensures { result ≡ weights_named name.now }
    {
        if name == "random" {
            return Some(Weights::Random);
        }
        if name == "rising" {
            return Some(Weights::Rising);
        }
        if name == "falling" {
            return Some(Weights::Falling);
        }
        if name == "equal" {
            return Some(Weights::Equal);
        }
        None
    }
}
