//! The graph of a text, and the events of another.
ghost use Rattle.peer_hand.specs.Texts.{HasNoEvents, HasNoGraph, IsTextOf};
ghost use Rattle.peer_trace.specs.Reading.{HasEventsOf};
ghost use Rattle.std.specs.Prelude.{IfErr, IfOk};

use crate::fault::HandFault;
use ghs_gr::judgement::judge;
use ghs_graph::graph::Graph;
use peer_network::event::Event;
use peer_trace::protocol::Protocol;
use peer_trace::trace::read_trace_of;
use std::alloc::Global;

/// The graph of a text. Refusals: the text's fault; out of memory.
///
/// ```text
/// let graph = graph_of(alloc, b"p sp 2 1\na 1 2 5")?;
/// // two nodes and a link of weight 5; Err(HandFault::Graph(GrFault::NodeRange(2))) of `a 1 7 5`
/// ```
pub fn graph_of(alloc: Global, text: &[u8]) -> Result<Graph, HandFault>
    ensures graph { IfOk result (λ g. IsTextOf text.now g) }
    ensures fault { IfErr result (λ fault. HasNoGraph text.now fault) }
{
    let raw = judge(alloc, text)?;
    match Graph::build(alloc, raw) {
        Ok(graph) => Ok(graph),
        Err(_) => Err(HandFault::Memory),
    }
}

/// The events of a text, which is a run of this protocol. Refusals: it is one of another; the text's fault; out of memory.
pub(crate) fn events_of(
    alloc: Global,
    protocol: Protocol,
    text: &[u8],
) -> Result<Vec<Event>, HandFault>
    ensures events { IfOk result (λ events. HasEventsOf protocol text.now events.items) }
    ensures fault { IfErr result (λ fault. HasNoEvents protocol text.now fault) }
{
    Ok(read_trace_of(alloc, protocol, text)?)
}
