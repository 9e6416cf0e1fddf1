//! The text of all runs of a graph, handed over in the room that a page gives.
ghost use Rattle.ghs_graph.specs.Graph.{Shape};
ghost use Rattle.ghs_outcomes.specs.Outcomes.{IsOutcomesAnswer, IsTold, explores_by};
ghost use Rattle.ghs_outcomes.specs.Limit.{at_least_1};
ghost use Rattle.peer_hand.specs.Handing.{IsHandedOver};
ghost use Rattle.peer_hand.specs.Texts.{HasNoGraph, IsTextOf};
ghost use Rattle.std.specs.Prelude.{◌≡◌, ◌≤◌, IfErr, IfOk};

use crate::any::told_by;
use crate::ghs::told_by_ghs;
use boruvka::protocol::Boruvka;
use bumpalo::Bump;
use echo::protocol::Echo;
use gather::protocol::Gather;
use ghs_graph::graph::Graph;
use peer_hand::fault::HandFault;
use peer_hand::handing::hand_over;
use peer_hand::texts::graph_of;
use peer_network::wake_set::WakeSet;
use peer_trace::protocol::Protocol;
use std::alloc::{AllocError, Global};

/// With which counts all runs of a graph's text end under a wake set, how many states they lead to, and a run of each count; or
/// what stands against it: the text's fault, too large a graph, more states than the limit, no numbers left, out of memory. A
/// limit of 0 counts as 1. The answer is how many bytes that has; where they fit into `out` they are its front, and else it is as
/// it was.
///
/// ```text
/// let count = hand_outcomes(alloc, Protocol::Ghs, WakeSet::All, 10_000, b"p sp 2 1\na 1 2 5", &mut out);
/// // where count is at most out.len(), out[..count] is the text, which begins with the line of the first row
/// ```
pub fn hand_outcomes(
    alloc: Global,
    protocol: Protocol,
    wake: WakeSet,
    limit: u32,
    graph: &[u8],
    out: &mut [u8],
) -> usize
    ensures { IsHandedOver (IsOutcomesAnswer protocol wake limit graph.now) result out.old out.new }
{
    hand_over(
        alloc,
        answer_of(alloc, protocol, wake, at_least_1(limit), graph),
        out,
    )
}

/// What is told of all runs of a graph's text.
fn answer_of(
    alloc: Global,
    protocol: Protocol,
    wake: WakeSet,
    limit: u32,
    graph: &[u8],
) -> Result<Vec<u8>, HandFault>
    requires { 1 ≤ limit }
    ensures text { IfOk result (λ text. (g : Shape) × IsTextOf graph.now g × IsTold (explores_by protocol) g wake limit text.items) }
    ensures fault { IfErr result (HasNoGraph graph.now) }
{
    let graph = graph_of(alloc, graph)?;
    Ok(told(alloc, protocol, wake, limit, &graph)?)
}

/// What is told of all runs of a graph by a protocol.
fn told(
    alloc: Global,
    protocol: Protocol,
    wake: WakeSet,
    limit: u32,
    graph: &Graph,
) -> Result<Vec<u8>, AllocError>
    requires { 1 ≤ limit }
    ensures { IfOk result (λ text. IsTold (explores_by protocol) graph.now wake limit text.items) }
{
    match protocol {
        Protocol::Ghs => told_by_ghs(alloc, wake, limit, graph),
        Protocol::Boruvka => told_by::<Boruvka>(alloc, (), Protocol::Boruvka, wake, limit, graph),
        Protocol::Echo => told_by::<Echo>(alloc, (), Protocol::Echo, wake, limit, graph),
        Protocol::Gather => {
            let lists = Bump::new(alloc);
            told_by::<Gather>(alloc, &lists, Protocol::Gather, wake, limit, graph)
        }
    }
}

/// A limit of states, at least 1.
fn at_least_1(limit: u32) -> u32
    ensures is { result ≡ at_least_1 limit }
    ensures some { 1 ≤ result }
{
    if limit == 0 { 1 } else { limit }
}
