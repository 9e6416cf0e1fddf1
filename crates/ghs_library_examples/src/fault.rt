//! One type for all that may go wrong, so that `?` works between crates.
use ghs_explore::fault::ExploreFault as GhsExploreFault;
use ghs_gr::fault::GrFault;
use ghs_gr::raw_graph::RawGraph;
use ghs_graph::graph::Graph;
use ghs_graph::graph_fault::GraphFault;
use ghs_report::report_text::ReportFault;
use ghs_sched::fault::{ReplayFault, RunFault};
use peer_explore::fault::ExploreFault;
use peer_steps::fault::StepsFault;
use peer_trace::fault::StoredFault;
use std::alloc::AllocError;
use thiserror::Error;

/// What goes wrong.
#[derive(Clone, Copy, Debug, Drop, PartialEq, Eq, Error)]
pub enum Fault {
    #[error("{0}")]
    Text(GrFault),
    #[error("{0}")]
    Stored(StoredFault),
    #[error("{0}")]
    Run(RunFault),
    #[error("trace event {0} is not lawful")]
    NotLawful(u64),
    #[error("the run goes on")]
    NotEnded,
    #[error("not explored")]
    Explore,
    #[error("out of memory")]
    Memory,
}

impl From<AllocError> for Fault {
    fn from(_error: AllocError) -> Fault {
        Fault::Memory
    }
}

impl From<GrFault> for Fault {
    fn from(fault: GrFault) -> Fault {
        Fault::Text(fault)
    }
}

impl From<(RawGraph, GraphFault)> for Fault {
    fn from(_refused: (RawGraph, GraphFault)) -> Fault {
        Fault::Memory
    }
}

impl From<(Graph, AllocError)> for Fault {
    fn from(_refused: (Graph, AllocError)) -> Fault {
        Fault::Memory
    }
}

impl From<(Graph, ReplayFault)> for Fault {
    fn from(refused: (Graph, ReplayFault)) -> Fault {
        match refused.1 {
            ReplayFault::NotLawful(event) => Fault::NotLawful(event),
            _ => Fault::Memory,
        }
    }
}

impl From<RunFault> for Fault {
    fn from(fault: RunFault) -> Fault {
        Fault::Run(fault)
    }
}

impl From<ReportFault> for Fault {
    fn from(fault: ReportFault) -> Fault {
        match fault {
            ReportFault::NotEnded => Fault::NotEnded,
            ReportFault::Memory => Fault::Memory,
        }
    }
}

impl From<StoredFault> for Fault {
    fn from(fault: StoredFault) -> Fault {
        Fault::Stored(fault)
    }
}

impl From<StepsFault> for Fault {
    fn from(fault: StepsFault) -> Fault {
        match fault {
            StepsFault::NotLawful(event) => Fault::NotLawful(event),
            _ => Fault::Memory,
        }
    }
}

impl From<ExploreFault> for Fault {
    fn from(_fault: ExploreFault) -> Fault {
        Fault::Explore
    }
}

impl From<GhsExploreFault> for Fault {
    fn from(_fault: GhsExploreFault) -> Fault {
        Fault::Explore
    }
}
