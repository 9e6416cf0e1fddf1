//! All runs by GHS.
ghost use Rattle.ghs_outcomes.specs.Outcomes.{AreOutcomes, HasRunsBehind, IsTold, by_ghs};
ghost use Rattle.std.specs.Prelude.{◌≡◌, ◌≤◌, IfOk, OnOk};

use crate::words::{no_numbers, too_large, too_many};
use ghs_explore::explore::explore;
use ghs_explore::explored::Explored;
use ghs_explore::fault::ExploreFault;
use ghs_explore::laws::law_range;
use ghs_explore::text::explored_text;
use ghs_graph::graph::Graph;
use peer_network::wake_set::WakeSet;
use peer_texts::trace::write_trace;
use std::alloc::{AllocError, Global};

/// What is told of all runs of a graph. Refusal: out of memory.
pub(crate) fn told_by_ghs(
    alloc: Global,
    wake: WakeSet,
    limit: u32,
    graph: &Graph,
) -> Result<Vec<u8>, AllocError>
    requires { 1 ≤ limit }
    ensures { IfOk result (λ text. IsTold by_ghs graph.now wake limit text.items) }
{
    match explore(alloc, graph, wake, limit) {
        Ok(explored) => outcomes_text(alloc, wake, limit, graph, &explored),
        Err(ExploreFault::TooLarge) => too_large(alloc),
        Err(ExploreFault::TooMany) => too_many(alloc, limit),
        Err(ExploreFault::PartLimit) => no_numbers(alloc),
        Err(ExploreFault::Memory) => Err(AllocError),
    }
}

/// The rows and the states, and behind them a run of each row.
fn outcomes_text(
    alloc: Global,
    wake: WakeSet,
    limit: u32,
    graph: &Graph,
    explored: &Explored,
) -> Result<Vec<u8>, AllocError>
    requires graph { explored.now.graph ≡ graph.now }
    requires wake { explored.now.wake ≡ wake }
    requires few { explored.now.states ≤ limit }
    ensures { IfOk result (λ text. AreOutcomes by_ghs graph.now wake limit text.items) }
{
    // Called for their clauses: what the rows and the states are, and that the first and the last row have the least and the
    // greatest sum.
    law_range();
    let _ = graph.nodes();
    let _ = explored.rows();
    let _ = explored.states();
    let mut text = explored_text(alloc, explored)?;
    put_runs(alloc, &mut text, explored)?;
    Ok(text)
}

/// A run of each row. Refusal: out of memory.
fn put_runs(alloc: Global, text: &mut Vec<u8>, explored: &Explored) -> Result<(), AllocError>
    ensures { OnOk result (HasRunsBehind by_ghs explored.now.graph explored.now.wake explored.now.rows text.old.items text.new.items) }
{
    for k in 0..explored.rows().len() {
        let events = explored.run(alloc, k)?;
        let run = write_trace(alloc, &events)?;
        text.extend_from_slice(&run)?;
    }
    Ok(())
}
