//! All runs by any protocol.
ghost use Rattle.ghs_outcomes.specs.Outcomes.{AreOutcomes, HasRunsBehind, IsTold, by_any};
ghost use Rattle.std.specs.Prelude.{◌≡◌, ◌≤◌, None, IfOk, OnOk};

use crate::words::{no_numbers, too_large, too_many};
use ghs_graph::graph::Graph;
use peer_explore::explore::explore_watched;
use peer_explore::explored::Explored;
use peer_explore::fault::ExploreFault;
use peer_explore::laws::law_range;
use peer_explore::watch::Unwatched;
use peer_machine::explorable::{Explorable, Finite};
use peer_network::wake_set::WakeSet;
use peer_report::explored_text::explored_text;
use peer_trace::protocol::Protocol;
use peer_trace::trace::write_trace_of;
use peer_words::spoken::Spoken;
use std::alloc::{AllocError, Global};

/// What is told of all runs of a graph by this setting. Stored runs name the protocol. Refusal: out of memory.
pub(crate) fn told_by<P: Explorable + Finite + Spoken>(
    alloc: Global,
    setting: P::Setting,
    protocol: Protocol,
    wake: WakeSet,
    limit: u32,
    graph: &Graph,
) -> Result<Vec<u8>, AllocError>
    requires setting { P.goes_by setting }
    requires limit { 1 ≤ limit }
    ensures { IfOk result (λ text. IsTold (by_any P.rules P.words.kind P.bound protocol) graph.now wake limit text.items) }
{
    match explore_watched::<P, Unwatched>(alloc, setting, graph, wake, limit, &Unwatched) {
        Ok(explored) => outcomes_text(alloc, protocol, wake, limit, graph, &explored),
        Err(ExploreFault::TooLarge) => too_large(alloc),
        Err(ExploreFault::TooMany) => too_many(alloc, limit),
        Err(ExploreFault::PartLimit) => no_numbers(alloc),
        Err(ExploreFault::Memory) => Err(AllocError),
    }
}

/// The rows and the states, and behind them a run of each row.
fn outcomes_text<P: Explorable + Finite + Spoken>(
    alloc: Global,
    protocol: Protocol,
    wake: WakeSet,
    limit: u32,
    graph: &Graph,
    explored: &Explored<P>,
) -> Result<Vec<u8>, AllocError>
    requires graph { explored.now.graph ≡ graph.now }
    requires wake { explored.now.wake ≡ wake }
    requires few { explored.now.states ≤ limit }
    requires lost { explored.now.lost ≡ None }
    ensures { IfOk result (λ text. AreOutcomes (by_any P.rules P.words.kind P.bound protocol) graph.now wake limit text.items) }
{
    // Called for their clauses: what the rows and the states are, and that the first and the last row have the least and the
    // greatest sum.
    law_range::<P>();
    let _ = graph.nodes();
    let _ = explored.rows();
    let _ = explored.states();
    let mut text = explored_text(alloc, explored)?;
    put_runs(alloc, protocol, &mut text, explored)?;
    Ok(text)
}

/// A run of each row. Refusal: out of memory.
fn put_runs<P: Explorable + Finite + Spoken>(
    alloc: Global,
    protocol: Protocol,
    text: &mut Vec<u8>,
    explored: &Explored<P>,
) -> Result<(), AllocError>
    ensures { OnOk result (HasRunsBehind (by_any P.rules P.words.kind P.bound protocol) explored.now.graph explored.now.wake explored.now.rows text.old.items text.new.items) }
{
    for k in 0..explored.rows().len() {
        let events = explored.run(alloc, k)?;
        let run = write_trace_of(alloc, protocol, &events)?;
        text.extend_from_slice(&run)?;
    }
    Ok(())
}
