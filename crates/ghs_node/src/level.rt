//! Levels of fragments.
ghost use Rattle.std.specs.Prelude.{◌≡◌, ◌≤◌, ◌↔◌, IsSome, IfSome};

use std::marker::Model;

/// The highest level. A fragment of level L has at least 2^L nodes, and a graph at most 2^20.
pub const TOP_LEVEL: u8 = 20;

/// A fragment's level, 0 to `TOP_LEVEL`.
#[derive(Clone, Copy, Debug, PartialEq, Eq)]
pub struct Level {
    level: u8,
}

impl Model for Level {
    ghost use Rattle.std.specs.Prelude.{ℕ, ◌≤◌};
    ghost use Rattle.ghs_node.specs.declared.level.TheConstants.{TOP_LEVEL};

    ghost Value = { ℕ };

    ghost view = { λ l. l.level };

    ghost invariant = { λ l. l.level ≤ TOP_LEVEL };

    ghost inverse = { λ n. record { level = n } };
}

impl Level {
    /// The level of a fragment of one node.
    pub const ZERO: Level = Level { level: 0 };

    /// The level of two fragments of level 0 that have merged.
    pub const ONE: Level = Level { level: 1 };

    /// The level of two fragments of level 1 that have merged.
    pub const TWO: Level = Level { level: 2 };

    /// The highest level from which a merge leads to another.
    pub const NEXT_TO_TOP: Level = Level {
        level: TOP_LEVEL - 1,
    };

    /// The highest level.
    pub const TOP: Level = Level { level: TOP_LEVEL };

    /// The level of this number, if there is one.
    pub fn of(level: u8) -> Option<Level>
        ensures within { IsSome result ↔ (level ≤ TOP_LEVEL) }
        ensures value { IfSome result (λ l. l ≡ level) }
    {
        if level <= TOP_LEVEL {
            Some(Level { level })
        } else {
            None
        }
    }

    /// The level's number, 0 to `TOP_LEVEL`.
    pub fn get(self) -> u8
        ensures value { result ≡ self }
        ensures within { self ≤ TOP_LEVEL }
    {
        self.level
    }
}
