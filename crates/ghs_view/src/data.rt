//! The data of a run, as lines of JSON.
ghost use Rattle.std.specs.Prelude.{◌≡◌, ◌++◌, ◌≤◌, ◌^◌, IfOk, length};
ghost use Rattle.ghs_core.specs.NetState.{net_of, network};
ghost use Rattle.peer_network.specs.Network.{network_of};
ghost use Rattle.ghs_protocol.specs.Run.{IsRun};
ghost use Rattle.ghs_view.specs.Data.{data_json, ledger_json};

use crate::protocol::PROTOCOL;
use ghs_choices::form::Form;
use ghs_core::event::Event;
use ghs_core::net::Net;
use ghs_graph::graph::Graph;
use ghs_steps::write::put_lines;
use peer_net::ledger::Ledger;
use peer_page::counts::put_counts;
use peer_page::head::put_head;
use peer_page::links::put_links;
use std::alloc::{AllocError, Global};

/// The network, the words of the protocol, the links, the steps of the events that are shown, and the counts behind them. `events` is how many the
/// whole run has, `from` the event before which it opens, counted from 1, and `bound` the bound on the network's messages.
/// Refusal: out of memory.
///
/// ```text
/// let most = bound(graph.nodes(), graph.links());
/// let data = data_of(alloc, graph, most, &events, events.len() as u64, 1)?;
/// // of the run of the triangle, the first of its lines:
/// // {"ghs":"steps","version":1,"nodes":3,"links":3,"bound":21,"events":15,"from":1,"to":15}
/// ```
pub fn data_of(
    alloc: Global,
    graph: Graph,
    bound: u64,
    shown: &[Event],
    events: u64,
    from: u64,
) -> Result<Vec<u8>, AllocError>
    requires run { IsRun (network_of graph) shown.now }
    requires few { length shown.now ≤ 2 ^ 40 }
    ensures { IfOk result (λ text. text.items ≡ data_json graph bound events from shown.now) }
{
    let mut text = Vec::new(alloc);
    put_head(&mut text, &graph, bound, events, from, shown.len() as u64)?;
    text.extend_from_slice(PROTOCOL)?;
    put_links(&mut text, graph.keys())?;
    let net = put_lines(alloc, graph, shown, Form::Json, &mut text)?;
    put_ledger(&mut text, &net)?;
    Ok(text)
}

/// The counts of a net, after its events.
fn put_ledger(text: &mut Vec<u8>, net: &Net) -> Result<(), AllocError>
    ensures { IfOk result (λ _. text.new.items ≡ text.old.items ++ ledger_json (network net.now) (length net.now.trace) (net_of net.now)) }
{
    let counts = net.ledger();
    let ledger = Ledger {
        sent: &counts.sent,
        consumed: &counts.consumed,
        queued: counts.queued,
        deferred: counts.requeued,
    };
    put_counts(text, net.events(), &ledger)?;
    Ok(())
}
