//! The faults of one line.
ghost use Rattle.ghs_gr.specs.Fault.{ends_fault as ends_fault_of, is_node as is_node_of, line_fault as line_fault_of, sizes_fault as sizes_fault_of};
ghost use Rattle.ghs_gr.specs.Problem.{sizes_of};
ghost use Rattle.std.specs.Option.{option_map};
ghost use Rattle.std.specs.Prelude.{Some, ◌≡◌};

use crate::arc::Arc;
use crate::fault::LineFault;
use crate::line::Line;
use crate::problem::Problem;
use crate::raw_graph::{ARC_LIMIT, NODE_LIMIT};

/// The first fault of a line, where this is the problem line before it.
pub fn line_fault(problem: Option<Problem>, line: Line) -> Option<LineFault>
    ensures { result ≡ line_fault_of (option_map sizes_of problem) line }
{
    match line {
        Line::Passed => None,
        Line::Malformed => Some(LineFault::BadLine),
        Line::Problem(nodes, arcs) => match problem {
            Some(_) => Some(LineFault::SecondProblem),
            None => sizes_fault(nodes, arcs),
        },
        Line::Arc(arc) => match problem {
            Some(problem) => ends_fault(problem.nodes, arc),
            None => Some(LineFault::ArcBeforeProblem),
        },
    }
}

/// The fault of a problem line's numbers.
fn sizes_fault(nodes: Option<u32>, arcs: Option<u32>) -> Option<LineFault>
    ensures { result ≡ sizes_fault_of (nodes, arcs) }
{
    match (nodes, arcs) {
        (Some(nodes), Some(arcs)) if 1 <= nodes && nodes <= NODE_LIMIT && arcs <= ARC_LIMIT => None,
        _ => Some(LineFault::Number),
    }
}

/// The fault of an arc line's numbers and ends, where there are so many nodes.
fn ends_fault(nodes: u32, arc: Option<Arc>) -> Option<LineFault>
    ensures { result ≡ ends_fault_of (Some nodes) arc }
{
    match arc {
        Some(arc) if is_node(nodes, arc.from) && is_node(nodes, arc.to) => None,
        Some(_) => Some(LineFault::NodeRange),
        None => Some(LineFault::Number),
    }
}

fn is_node(nodes: u32, node: u32) -> bool
    ensures { result ≡ is_node_of (Some nodes) node }
{
    1 <= node && node <= nodes
}
