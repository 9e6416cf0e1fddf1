//! What the devices give: a graph, and the events of a stored run.
ghost use Rattle.ghs_cli.specs.Serving.{IsGraphCause, IsTextOf, IsTraceCause, IsTraceText, is_limit};
ghost use Rattle.ghs_answers.specs.Causes.{is_write};
ghost use Rattle.ghs_answers.specs.declared.fault.ServeFault.{ServeFault};
ghost use Rattle.std.specs.Prelude.{◌≡◌, ◌≤◌, ◌↔◌, false, length, true, IfErr, IfOk, IfSome, IsErrOf};

use ghs_answers::fault::ServeFault;
use ghs_gr::device::Source;
use ghs_gr::judgement::read_gr;
use ghs_gr::text::read_text;
use ghs_graph::graph::Graph;
use peer_network::event::Event;
use peer_network::wake_set::WakeSet;
use peer_texts::trace::EVENT_LIMIT;
use peer_trace::protocol::Protocol;
use peer_trace::trace::read_trace_of;
use std::alloc::Global;

/// The graph whose text the device gives. It has each node that the wake set lists.
pub fn graph_of<R: Source>(alloc: Global, wake: WakeSet, graph: &mut R) -> Result<Graph, ServeFault>
    requires { R.has_failed graph.old ≡ false }
    ensures text { IfOk result (λ built. IfSome (R.left graph.old) (λ input. IsTextOf wake input built)) }
    ensures fault { IfErr result (λ fault. IfSome (R.left graph.old) (λ input. IsGraphCause wake input fault)) }
    ensures early { IfErr result (λ fault. is_write fault ≡ false) }
    ensures goes_on { IfErr result (λ fault. is_limit fault ≡ false) }
    ensures read { IsErrOf result ServeFault.Read ↔ (R.has_failed graph.new ≡ true) }
{
    let raw = read_gr(alloc, graph)?;
    if let Some(node) = wake.missing(raw.nodes()) {
        return Err(ServeFault::NoNode(node));
    }
    match Graph::build(alloc, raw) {
        Ok(built) => Ok(built),
        Err(_) => Err(ServeFault::Memory),
    }
}

/// The events whose text the device gives, of a run of a protocol.
pub fn events_of<T: Source>(
    alloc: Global,
    protocol: Protocol,
    trace: &mut T,
) -> Result<Vec<Event>, ServeFault>
    requires { T.has_failed trace.old ≡ false }
    ensures events { IfOk result (λ events. IfSome (T.left trace.old) (λ stored. IsTraceText protocol stored events.items)) }
    ensures few { IfOk result (λ events. length events.items ≤ EVENT_LIMIT) }
    ensures fault { IfErr result (λ fault. IfSome (T.left trace.old) (λ stored. IsTraceCause protocol stored fault)) }
    ensures early { IfErr result (λ fault. is_write fault ≡ false) }
    ensures read { IsErrOf result ServeFault.Read ↔ (T.has_failed trace.new ≡ true) }
{
    let text = read_text(alloc, trace)?;
    Ok(read_trace_of(alloc, protocol, &text)?)
}
