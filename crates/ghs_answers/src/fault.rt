//! Why the program gives no answer.
ghost use Rattle.ghs_answers.specs.Fault.{of_gr, of_make, of_replay, of_steps, of_stored, of_text, of_trace, of_unwritten, status_of};
ghost use Rattle.std.specs.Prelude.{◌≡◌};

use ghs_gr::fault::GrFault;
use ghs_gr::raw_graph::{ARC_LIMIT, NODE_LIMIT};
use ghs_gr::text::TextFault;
use ghs_make::fault::MakeFault;
use ghs_report::portions::WriteFault;
use ghs_report::write_out::Partial;
use peer_explore::fault::{MOST_LINKS, MOST_NODES, NUMBERS};
use peer_explore::row::KINDS;
use peer_page::limits::{PAGE_EVENTS, PAGE_NODES};
use peer_schedule::fault::ReplayFault;
use peer_steps::fault::StepsFault;
use peer_texts::fault::TraceFault;
use peer_trace::fault::StoredFault;
use peer_trace::protocol::Protocol;
use std::alloc::AllocError;
use thiserror::Error;

/// What can go wrong in the program's work, with the line that is said of it. Lines are numbered from 1.
#[derive(Clone, Copy, Debug, Drop, PartialEq, Eq, Error)]
pub enum ServeFault {
    #[error("line {0}: not a line of this format")]
    BadLine(u32),
    #[error("line {0}: arc before the problem line")]
    ArcBeforeProblem(u32),
    #[error("line {0}: second problem line")]
    SecondProblem(u32),
    #[error("line {0}: number missing or out of range")]
    Number(u32),
    #[error("line {0}: no such node")]
    NodeRange(u32),
    #[error("no problem line")]
    NoProblem,
    #[error("no such node to wake: {0}")]
    NoNode(u32),
    #[error("arcs said {said}, found {found}")]
    ArcCount { said: u32, found: u32 },
    #[error("input too long")]
    TooLong,
    #[error("trace line {0}: not a line of this format")]
    TraceBadLine(u64),
    #[error("trace line {0}: number missing or out of range")]
    TraceNumber(u64),
    #[error("events said {said}, found {found}")]
    TraceCount { said: u64, found: u64 },
    /// It is one of this other protocol.
    #[error("the trace is of --protocol {}", .0.name())]
    TraceOf(Protocol),
    /// It is one of a user's own protocol.
    #[error("the trace is of --protocol own")]
    TraceOfOwn,
    #[error("trace event {0} is not lawful")]
    NotLawful(u64),
    #[error("page too large: at most {nodes} nodes and {events} events; --to shortens it, --from only opens it later", nodes = PAGE_NODES, events = PAGE_EVENTS)]
    PageTooLarge,
    #[error("nodes: 1 to {most}", most = NODE_LIMIT)]
    NodesOutside,
    #[error("this kind takes no number of links")]
    LinksGiven,
    #[error("this kind has weights of its own")]
    WeightsGiven,
    #[error("links: {least} to {most}")]
    LinksOutside { least: u32, most: u32 },
    #[error("more than {most} links", most = ARC_LIMIT)]
    TooManyLinks,
    #[error("too large to explore: at most {nodes} nodes and {links} links", nodes = MOST_NODES, links = MOST_LINKS)]
    TooLargeToExplore,
    /// Of a user's own protocol.
    #[error("more than {most} kinds of messages", most = KINDS)]
    TooManyKinds,
    #[error("no such end: there are {ends}")]
    NoSuchEnd { ends: u64 },
    #[error("more than {limit} states")]
    StateLimit { limit: u32 },
    #[error("more than {most} states of nodes, messages or contents of queues", most = NUMBERS)]
    PartLimit,
    #[error("turn limit reached")]
    TurnLimit,
    /// Never answered: while a run goes on, an event is ready.
    #[error("no event is ready and the run has not ended")]
    Stalled,
    #[error("the run has not ended")]
    NotEnded,
    #[error("out of memory")]
    Memory,
    #[error("a thread could not be started")]
    NoThread,
    #[error("input could not be read")]
    Read,
    #[error("output failed after {written} bytes")]
    Write { written: u128 },
    /// The workers stopped, and the world says nothing of why.
    #[error("the world is not the one that was given")]
    Strange,
    /// Never answered: each lawful event has a rule.
    #[error("a message met a state that has no rule")]
    Unforeseen,
}

impl ServeFault {
    /// The program's exit status: 1 where the input is refused, 3 where a run hasn't ended or there are more states than
    /// may be, or more of their parts, 4 for lack of memory or of a thread, 5 where a read or a write failed, 6 for workers that stop without a
    /// reason and a state that has no rule.
    pub fn status(&self) -> u8
        ensures { result ≡ status_of self.now }
    {
        match self {
            ServeFault::TurnLimit => 3,
            ServeFault::StateLimit { limit: _ } => 3,
            ServeFault::PartLimit => 3,
            ServeFault::Stalled => 3,
            ServeFault::NotEnded => 3,
            ServeFault::Memory => 4,
            ServeFault::NoThread => 4,
            ServeFault::Read => 5,
            ServeFault::Write { written: _ } => 5,
            ServeFault::Strange => 6,
            ServeFault::Unforeseen => 6,
            _ => 1,
        }
    }
}

impl From<GrFault> for ServeFault {
    ghost from_gives = { λ x e. e ≡ of_gr x };

    fn from(fault: GrFault) -> ServeFault {
        match fault {
            GrFault::Read => ServeFault::Read,
            GrFault::TooLong => ServeFault::TooLong,
            GrFault::Memory => ServeFault::Memory,
            GrFault::BadLine(line) => ServeFault::BadLine(line),
            GrFault::ArcBeforeProblem(line) => ServeFault::ArcBeforeProblem(line),
            GrFault::SecondProblem(line) => ServeFault::SecondProblem(line),
            GrFault::Number(line) => ServeFault::Number(line),
            GrFault::NodeRange(line) => ServeFault::NodeRange(line),
            GrFault::NoProblem => ServeFault::NoProblem,
            GrFault::ArcCount { said, found } => ServeFault::ArcCount { said, found },
        }
    }
}

impl From<TextFault> for ServeFault {
    ghost from_gives = { λ x e. e ≡ of_text x };

    fn from(fault: TextFault) -> ServeFault {
        match fault {
            TextFault::Read => ServeFault::Read,
            TextFault::TooLong => ServeFault::TooLong,
            TextFault::Memory => ServeFault::Memory,
        }
    }
}

impl From<TraceFault> for ServeFault {
    ghost from_gives = { λ x e. e ≡ of_trace x };

    fn from(fault: TraceFault) -> ServeFault {
        match fault {
            TraceFault::BadLine(line) => ServeFault::TraceBadLine(line),
            TraceFault::Number(line) => ServeFault::TraceNumber(line),
            TraceFault::Count { said, found } => ServeFault::TraceCount { said, found },
            TraceFault::Memory => ServeFault::Memory,
        }
    }
}

impl From<StoredFault> for ServeFault {
    ghost from_gives = { λ x e. e ≡ of_stored x };

    fn from(fault: StoredFault) -> ServeFault {
        match fault {
            StoredFault::Other(protocol) => ServeFault::TraceOf(protocol),
            StoredFault::Own => ServeFault::TraceOfOwn,
            StoredFault::Trace(fault) => fault.into(),
        }
    }
}

impl From<ReplayFault> for ServeFault {
    ghost from_gives = { λ x e. e ≡ of_replay x };

    fn from(fault: ReplayFault) -> ServeFault {
        match fault {
            ReplayFault::NotLawful(event) => ServeFault::NotLawful(event),
            ReplayFault::Unforeseen(_) => ServeFault::Unforeseen,
            ReplayFault::Memory => ServeFault::Memory,
        }
    }
}

impl From<StepsFault> for ServeFault {
    ghost from_gives = { λ x e. e ≡ of_steps x };

    fn from(fault: StepsFault) -> ServeFault {
        match fault {
            StepsFault::NotLawful(event) => ServeFault::NotLawful(event),
            StepsFault::Memory => ServeFault::Memory,
            StepsFault::Write { written } => ServeFault::Write { written },
        }
    }
}

impl From<MakeFault> for ServeFault {
    ghost from_gives = { λ x e. e ≡ of_make x };

    fn from(fault: MakeFault) -> ServeFault {
        match fault {
            MakeFault::Nodes => ServeFault::NodesOutside,
            MakeFault::LinksGiven => ServeFault::LinksGiven,
            MakeFault::WeightsGiven => ServeFault::WeightsGiven,
            MakeFault::Links { least, most } => ServeFault::LinksOutside { least, most },
            MakeFault::TooManyLinks => ServeFault::TooManyLinks,
            MakeFault::Memory => ServeFault::Memory,
        }
    }
}

impl From<WriteFault> for ServeFault {
    ghost from_gives = { λ x e. e ≡ of_unwritten x };

    fn from(fault: WriteFault) -> ServeFault {
        match fault {
            WriteFault::Memory => ServeFault::Memory,
            WriteFault::Write { written } => ServeFault::Write { written },
        }
    }
}

impl From<AllocError> for ServeFault {
    ghost use Rattle.ghs_answers.specs.declared.fault.ServeFault.{ServeFault};

    ghost from_gives = { λ _ e. e ≡ ServeFault.Memory };

    fn from(_error: AllocError) -> ServeFault {
        ServeFault::Memory
    }
}

impl From<Partial> for ServeFault {
    ghost use Rattle.ghs_answers.specs.declared.fault.ServeFault.{ServeFault};

    ghost from_gives = { λ x e. e ≡ ServeFault.Write x.written };

    fn from(partial: Partial) -> ServeFault {
        ServeFault::Write {
            written: partial.written as u128,
        }
    }
}
