//! The data of a run, as lines of JSON.
ghost use Rattle.std.specs.Prelude.{◌≡◌, ◌++◌, IfOk, length};
ghost use Rattle.peer_network.specs.Network.{network_of};
ghost use Rattle.peer_machine.specs.Run.{IsRun};
ghost use Rattle.peer_net.specs.NetState.{net_of, network};
ghost use Rattle.peer_view.specs.Data.{data_json, ledger_json};

use crate::protocol::put_protocol;
use ghs_choices::form::Form;
use ghs_graph::graph::Graph;
use peer_machine::event::Event;
use peer_machine::protocol::Protocol;
use peer_net::net::Net;
use peer_page::counts::put_counts;
use peer_page::head::put_head;
use peer_page::links::put_links;
use peer_steps::write::put_lines;
use peer_words::viewed::Viewed;
use std::alloc::{AllocError, Global};

/// The network, the words of the protocol, the links, the steps of the events that are shown, and the counts behind them.
/// `events` is how many the whole run has, `from` the event before which it opens, counted from 1. Refusal: out of memory.
///
/// ```text
/// let data = data_of::<Boruvka>(alloc, (), graph, &events, events.len() as u64, 1)?;
/// // of a run of two nodes and a link of weight 5, the first of its lines:
/// // {"ghs":"steps","version":1,"nodes":2,"links":1,"bound":10,"events":5,"from":1,"to":5}
/// ```
pub fn data_of<P: Viewed>(
    alloc: Global,
    setting: P::Setting,
    graph: Graph,
    shown: &[Event],
    events: u64,
    from: u64,
) -> Result<Vec<u8>, AllocError>
    requires setting { P.goes_by setting }
    requires run { IsRun P.rules (network_of graph) shown.now }
    ensures { IfOk result (λ text. text.items ≡ data_json P.rules P.words P.looks P.bound graph events from shown.now) }
{
    let most = P::bound_of(setting, &graph);
    let mut text = Vec::new(alloc);
    put_head(&mut text, &graph, most, events, from, shown.len() as u64)?;
    put_protocol::<P>(&mut text, setting)?;
    put_links(&mut text, graph.keys())?;
    let net = put_lines::<P>(alloc, setting, graph, shown, Form::Json, &mut text)?;
    put_ledger::<P>(&mut text, &net)?;
    Ok(text)
}

/// The counts of a net, after its events.
fn put_ledger<P: Protocol>(text: &mut Vec<u8>, net: &Net<P>) -> Result<(), AllocError>
    ensures { IfOk result (λ _. text.new.items ≡ text.old.items ++ ledger_json P.rules (network net.now) (length net.now.trace) (net_of P.rules net.now)) }
{
    let events = net.trace().len() as u64;
    put_counts(text, events, &net.ledger())?;
    Ok(())
}
