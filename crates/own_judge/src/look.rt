//! What comes of asking the book.
ghost use Rattle.own_judge.specs.Look.{amiss};
ghost use Rattle.own_judge.specs.Verdict.{own_after};
ghost use Rattle.std.specs.Prelude.{◌≡◌};

use crate::deed::Deed;
use crate::text::{Question, Text};
use own_book::answer_fault::AnswerFault;

/// What is known of the state of a node of the book.
#[derive(Drop)]
pub enum Own<'a> {
    /// It hasn't been opened.
    Unopened,
    /// It is in this state.
    Known(Text<'a>),
    /// An answer is missing or isn't the reaction, so nothing is known any more.
    Unknown,
}

/// An answer with a fault: the question, the number of the line that says the answer first, and the answer.
#[derive(Drop)]
pub struct Amiss<'a> {
    pub fault: AnswerFault,
    pub question: Question,
    pub line: u64,
    pub answer: Text<'a>,
}

impl<'a> Amiss<'a> {
    /// This fault of this answer.
    pub(crate) fn new(
        fault: AnswerFault,
        question: Question,
        line: u64,
        answer: &'a [u8],
    ) -> Amiss<'a>
        ensures { result ≡ amiss question (line, answer.entry.now) fault }
    {
        Amiss {
            fault,
            question,
            line,
            answer: Text::of(answer),
        }
    }
}

/// An answer that isn't the reaction: the node's state before it, the number of the line that says it first, and what it does.
#[derive(Drop)]
pub struct Difference<'a> {
    pub before: Text<'a>,
    pub line: u64,
    pub deed: Deed,
}

/// What comes of an event.
#[derive(Drop)]
pub enum Look<'a> {
    /// The answer is the reaction; this is the node's state after it.
    Agrees(Text<'a>),
    /// The book has no answer to this question.
    Open(Question),
    /// Nothing is asked, since nothing is known of the node.
    Silent,
    /// The answer has a fault by itself.
    Fails(Amiss<'a>),
    /// The answer isn't the reaction.
    Differs(Difference<'a>),
}

impl<'a> Look<'a> {
    /// What is known of the node behind it.
    pub(crate) fn into_own(self) -> Own<'a>
        ensures { result ≡ own_after self.entry }
    {
        match self {
            Look::Agrees(state) => Own::Known(state),
            Look::Open(_) => Own::Unknown,
            Look::Silent => Own::Unknown,
            Look::Fails(_) => Own::Unknown,
            Look::Differs(_) => Own::Unknown,
        }
    }
}

/// What comes of the greeting.
#[derive(Drop)]
pub enum Greeting<'a> {
    /// It names these kinds of messages, a blank between two.
    Kinds(Text<'a>),
    /// The book has no answer to this question.
    Open(Question),
    /// The answer has a fault.
    Fails(Amiss<'a>),
}
