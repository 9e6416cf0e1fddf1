//! Why an answer isn't one that a node may give.
/// What is wrong with an answer of a user's node, the first that holds.
#[derive(Clone, Copy, Debug, Drop, PartialEq, Eq)]
pub enum AnswerFault {
    /// The node has no rule for this: it answered `! TEXT`.
    GivesUp,
    /// The answer is none to this question.
    Garbled,
    /// The node got work and sleeps on.
    StillAsleep,
    /// A send goes out at a port that the node lacks.
    NoPort,
    /// A send is of a kind that the greeting lacks.
    NoKind,
}
