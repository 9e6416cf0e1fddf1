//! The rule of the board's word, and what each step tells the seat that makes it.
use crate::progress::Progress;
use atomic_table::{Join, Play, Split, TableRule};
use std::collections::LinkedList;

/// What a seat knows: all that was published where it publishes, else a beginning of that; and what it was told by another
/// seat since its last load. It is there for the rule alone, and no value of it is made.
pub struct Watch {
    pub publishes: bool,
    pub seen: LinkedList<Progress>,
    pub told: LinkedList<Progress>,
}

/// There is one rising list, the word stands for its last pair, and one seat knows all of it.
pub struct Rising;

impl TableRule<u8, Watch, Progress> for Rising {
    ghost use Rattle.std.specs.Prelude.{[], ◌∷◌};
    ghost use Rattle.ghs_shared.specs.Board.{IsBoard, publisher_of};

    ghost holds = { λ _ s. IsBoard s };

    ghost first = { λ p. publisher_of (p ∷ []) };
}

/// The publisher raises the word.
pub struct Publishes;

impl Play<u8, Watch> for Publishes {
    ghost use Rattle.ghs_shared.specs.Board.{Adds};

    ghost then = { Adds };
}

/// A reader loads the word.
pub struct Reads;

impl Play<u8, Watch> for Reads {
    ghost use Rattle.ghs_shared.specs.Board.{Looks};

    ghost then = { Looks };
}

/// The publisher loads the word.
pub struct ReadsOwn;

impl Play<u8, Watch> for ReadsOwn {
    ghost use Rattle.ghs_shared.specs.Board.{Checks};

    ghost then = { Checks };
}

/// A reader that has seen what this seat has.
pub struct Another;

impl Split<Watch> for Another {
    ghost use Rattle.ghs_shared.specs.Board.{reader_of};

    ghost left = { λ v. v };

    ghost right = { λ v. reader_of v.seen };
}

/// The first seat is told what the second has seen. A join by itself tells nothing; the next load does.
pub struct News;

impl Join<Watch> for News {
    ghost use Rattle.std.specs.Prelude.{[]};
    ghost use Rattle.ghs_shared.specs.Board.{informed, reader_of};

    ghost both = { informed };

    ghost spent = { reader_of [] };
}

/// The first seat becomes a reader that has seen what the second has.
pub struct Instead;

impl Join<Watch> for Instead {
    ghost use Rattle.std.specs.Prelude.{[]};
    ghost use Rattle.ghs_shared.specs.Board.{reader_of};

    ghost both = { λ v w. reader_of w.seen };

    ghost spent = { reader_of [] };
}
