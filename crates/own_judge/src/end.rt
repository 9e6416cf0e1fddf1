//! How the judging of a run ends.
ghost use Rattle.own_judge.specs.Status.{end_status};
ghost use Rattle.std.specs.Prelude.{◌≡◌};

/// How the judging of a run ends.
#[derive(Clone, Copy, Debug, Drop, PartialEq, Eq)]
pub enum End {
    /// At each event the book's answer is the reaction's.
    Agrees,
    /// The book lacks answers.
    Asks,
    /// An answer has a fault by itself.
    Fails,
    /// An answer isn't the reaction.
    Differs,
}

impl End {
    /// The exit status: 0 where the book agrees, 7 where questions are open, 8 where an answer has a fault, 9 where one
    /// differs.
    pub fn status(self) -> u8
        ensures { result ≡ end_status self }
    {
        match self {
            End::Agrees => 0,
            End::Asks => 7,
            End::Fails => 8,
            End::Differs => 9,
        }
    }
}
