//! Explorations by any protocol.
ghost use Rattle.ghs_cli.specs.AnyExplore.{AreEndsOf, FindsNothing, IsBehind, IsFound, IsRunOf};
ghost use Rattle.ghs_commands.specs.Job.{AreExploreLimits};
ghost use Rattle.ghs_commands.specs.declared.exploring.Finding.{Finding};
ghost use Rattle.std.specs.Prelude.{◌≡◌, ◌<◌, ◌≤◌, Err, None, IfErr, IfOk, length};

use crate::progress::Teller;
use ghs_answers::fault::ServeFault;
use ghs_commands::exploring::{ExploreOptions, Finding};
use ghs_graph::graph::Graph;
use peer_explore::explore::explore_watched;
use peer_explore::explored::Explored;
use peer_explore::fault::ExploreFault;
use peer_explore::laws::law_range;
use peer_machine::explorable::{Explorable, Finite};
use peer_report::explored_text::explored_text;
use peer_trace::protocol::Protocol;
use peer_trace::trace::write_trace_of;
use peer_words::spoken::Spoken;
use std::alloc::{AllocError, Global};

/// What is found of all runs of a graph. Stored events name the protocol.
pub(crate) fn found<P: Explorable + Finite + Spoken, R: Eprint>(
    rt: &R,
    alloc: Global,
    setting: P::Setting,
    protocol: Protocol,
    options: &ExploreOptions,
    graph: &Graph,
) -> Result<Vec<u8>, ServeFault>
    requires setting { P.goes_by setting }
    requires limits { AreExploreLimits options.now }
    ensures text { IfOk result (λ text. IsFound P.rules P.words.kind P.bound protocol options.now.finding options.now graph.now text.items) }
    ensures fault { IfErr result (FindsNothing P.rules options.now graph.now) }
{
    let teller = Teller::new(rt, options.progress);
    match explore_watched::<P, Teller<R>>(
        alloc,
        setting,
        graph,
        options.wake,
        options.limit,
        &teller,
    ) {
        Ok(explored) => found_text(alloc, protocol, options, graph, &explored),
        Err(ExploreFault::TooLarge) => Err(ServeFault::TooLargeToExplore),
        Err(ExploreFault::TooMany) => Err(ServeFault::StateLimit {
            limit: options.limit,
        }),
        Err(ExploreFault::PartLimit) => Err(ServeFault::PartLimit),
        Err(ExploreFault::Memory) => Err(ServeFault::Memory),
    }
}

/// What is printed of what was found.
fn found_text<P: Explorable + Finite + Spoken>(
    alloc: Global,
    protocol: Protocol,
    options: &ExploreOptions,
    graph: &Graph,
    explored: &Explored<P>,
) -> Result<Vec<u8>, ServeFault>
    requires limits { AreExploreLimits options.now }
    requires graph { explored.now.graph ≡ graph.now }
    requires wake { explored.now.wake ≡ options.now.wake }
    requires few { explored.now.states ≤ options.now.limit }
    requires lost { explored.now.lost ≡ None }
    ensures text { IfOk result (λ text. IsFound P.rules P.words.kind P.bound protocol options.now.finding options.now graph.now text.items) }
    ensures fault { IfErr result (FindsNothing P.rules options.now graph.now) }
{
    match options.finding {
        Finding::Ends => Ok(ends_text(alloc, options, graph, explored)?),
        Finding::Run => trace_of_end(alloc, protocol, options, graph, explored),
    }
}

/// With which counts of messages the runs end.
fn ends_text<P: Explorable + Finite + Spoken>(
    alloc: Global,
    options: &ExploreOptions,
    graph: &Graph,
    explored: &Explored<P>,
) -> Result<Vec<u8>, AllocError>
    requires graph { explored.now.graph ≡ graph.now }
    requires wake { explored.now.wake ≡ options.now.wake }
    requires few { explored.now.states ≤ options.now.limit }
    requires lost { explored.now.lost ≡ None }
    ensures { IfOk result (λ text. AreEndsOf P.rules P.words.kind P.bound options.now graph.now text.items) }
{
    // Called for their clauses: what the rows and the states are, and that the first and the last row have the least and the
    // greatest sum.
    law_range::<P>();
    let _ = graph.nodes();
    let _ = explored.rows();
    let _ = explored.states();
    explored_text(alloc, explored)
}

/// The events of a run that ends as the row says that is asked for.
fn trace_of_end<P: Explorable + Finite + Spoken>(
    alloc: Global,
    protocol: Protocol,
    options: &ExploreOptions,
    graph: &Graph,
    explored: &Explored<P>,
) -> Result<Vec<u8>, ServeFault>
    requires asked { options.now.finding ≡ Finding.Run }
    requires limits { AreExploreLimits options.now }
    requires graph { explored.now.graph ≡ graph.now }
    requires wake { explored.now.wake ≡ options.now.wake }
    ensures text { IfOk result (λ text. IsRunOf P.rules protocol options.now graph.now text.items) }
    ensures fault { IfErr result (FindsNothing P.rules options.now graph.now) }
    ensures behind { length explored.now.rows < options.now.end → result ≡ Err (ServeFault.NoSuchEnd (length explored.now.rows)) }
{
    let ends = explored.rows().len();
    if options.end as usize > ends {
        return Err(ServeFault::NoSuchEnd { ends: ends as u64 });
    }
    let events = explored.run(alloc, options.end as usize - 1)?;
    Ok(write_trace_of(alloc, protocol, &events)?)
}
