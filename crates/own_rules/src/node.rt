//! A node of a book, its messages, and how it changes.
use own_book::answer_fault::AnswerFault;
use peer_machine::again::Again;

/// A message, by the number of its text in the book.
#[derive(Clone, Copy, Debug, PartialEq, Eq)]
pub struct Message {
    pub text: usize,
}

impl Again for Message {
    fn again(&self) -> Message {
        *self
    }
}

/// What a node may still do: send so many messages; and where deferrals count, one that it defers is one of them.
#[derive(Clone, Copy, Debug, PartialEq, Eq)]
pub struct Allowance {
    pub messages: u32,
    /// Whether deferrals count.
    pub deferrals: bool,
}

/// What a node is asked at an event; texts stand as their numbers in the book.
#[derive(Clone, Copy, Debug, PartialEq, Eq, Hash)]
pub enum Lookup {
    /// What it does in this state when it wakes by itself.
    Wake {
        node: u32,
        state: usize,
    },
    /// What it does in this state with this message, which came in at this port.
    Take {
        node: u32,
        port: u32,
        message: usize,
        state: usize,
    },
}

/// Why a node has stopped.
#[derive(Clone, Copy, Debug, PartialEq, Eq)]
pub enum Reason {
    /// The book has no answer to its question.
    Unanswered,
    /// The answer is none that a node may give.
    Fails(AnswerFault),
    /// By the answer it would have gone beyond its allowance.
    Spent,
}

/// The question at which a node has stopped, and why; none stands for its opening.
#[derive(Clone, Copy, Debug, PartialEq, Eq)]
pub struct Stop {
    pub asked: Option<Lookup>,
    pub reason: Reason,
}

/// How far a node has come. It is also how a node changes in one reaction.
#[derive(Clone, Copy, Debug, PartialEq, Eq)]
pub enum State {
    /// It is in the state with this number, sleeps or not, and has this allowance left.
    Runs {
        text: usize,
        asleep: bool,
        left: Allowance,
    },
    /// It has stopped, and does nothing any more.
    Stopped(Stop),
}

/// A node: its number, its number of ports, and how far it has come.
#[derive(Clone, Copy, Debug, PartialEq, Eq)]
pub struct Node {
    pub number: u32,
    pub ports: u32,
    pub state: State,
}
