//! Explorations: with which counts of messages all runs of a small network end, and a run of each.
ghost use Rattle.ghs_cli.specs.Exploring.{AreEndsOf, FindsNothing, IsBehind, IsFound, IsRunOf};
ghost use Rattle.ghs_cli.specs.Serving.{IsOfText, IsTextCause};
ghost use Rattle.ghs_answers.specs.Causes.{is_write};
ghost use Rattle.ghs_cli.specs.Verbs.{verbs_of};
ghost use Rattle.ghs_answers.specs.declared.fault.ServeFault.{ServeFault};
ghost use Rattle.ghs_commands.specs.Job.{AreExploreLimits};
ghost use Rattle.ghs_commands.specs.declared.exploring.Finding.{Finding};
ghost use Rattle.std.specs.Prelude.{◌≡◌, ◌<◌, ◌≤◌, ◌↔◌, false, true, Err, IfErr, IfOk, IfSome, IsErrOf, length};

use crate::any_explore;
use crate::progress::Teller;
use crate::reading::graph_of;
use boruvka::protocol::Boruvka;
use bumpalo::Bump;
use echo::protocol::Echo;
use gather::protocol::Gather;
use ghs_answers::fault::ServeFault;
use ghs_commands::exploring::{ExploreOptions, Finding};
use ghs_explore::explore::explore_watched;
use ghs_explore::explored::Explored;
use ghs_explore::fault::ExploreFault;
use ghs_explore::laws::law_range;
use ghs_explore::text::explored_text;
use ghs_gr::device::Source;
use ghs_graph::graph::Graph;
use peer_texts::trace::write_trace;
use peer_trace::protocol::Protocol;
use std::alloc::{AllocError, Global};

/// What is found of all runs of the graph that the device gives.
pub(crate) fn explored_text_of<S: Source, R: Eprint>(
    rt: &R,
    alloc: Global,
    protocol: Protocol,
    options: &ExploreOptions,
    graph: &mut S,
) -> Result<Vec<u8>, ServeFault>
    requires limits { AreExploreLimits options.now }
    requires graph { S.has_failed graph.old ≡ false }
    ensures text { IfOk result (λ text. IfSome (S.left graph.old) (λ input. IsOfText options.now.wake ((verbs_of protocol).explores options.now) input text.items)) }
    ensures fault { IfErr result (λ fault. IfSome (S.left graph.old) (λ input. IsTextCause options.now.wake ((verbs_of protocol).cant_explore options.now) input fault)) }
    ensures early { IfErr result (λ fault. is_write fault ≡ false) }
    ensures read { IsErrOf result ServeFault.Read ↔ (S.has_failed graph.new ≡ true) }
{
    let graph = graph_of(alloc, options.wake, graph)?;
    found_by(rt, alloc, protocol, options, &graph)
}

/// What is found of all runs of a graph by the protocol that is asked for.
fn found_by<R: Eprint>(
    rt: &R,
    alloc: Global,
    protocol: Protocol,
    options: &ExploreOptions,
    graph: &Graph,
) -> Result<Vec<u8>, ServeFault>
    requires { AreExploreLimits options.now }
    ensures text { IfOk result (λ text. (verbs_of protocol).explores options.now graph.now text.items) }
    ensures fault { IfErr result ((verbs_of protocol).cant_explore options.now graph.now) }
    ensures early { IfErr result (λ fault. is_write fault ≡ false) }
    ensures unread { IsErrOf result ServeFault.Read → ⊥ }
{
    match protocol {
        Protocol::Ghs => found(rt, alloc, options, graph),
        Protocol::Boruvka => any_explore::found::<Boruvka, R>(
            rt,
            alloc,
            (),
            protocol,
            options,
            graph,
        ),
        Protocol::Echo => any_explore::found::<Echo, R>(rt, alloc, (), protocol, options, graph),
        Protocol::Gather => {
            let lists = Bump::new(alloc);
            any_explore::found::<Gather, R>(rt, alloc, &lists, protocol, options, graph)
        }
    }
}

/// What is found of all runs of a graph by GHS.
fn found<R: Eprint>(
    rt: &R,
    alloc: Global,
    options: &ExploreOptions,
    graph: &Graph,
) -> Result<Vec<u8>, ServeFault>
    requires { AreExploreLimits options.now }
    ensures text { IfOk result (λ text. IsFound options.now.finding options.now graph.now text.items) }
    ensures fault { IfErr result (FindsNothing options.now graph.now) }
{
    let teller = Teller::new(rt, options.progress);
    match explore_watched(alloc, graph, options.wake, options.limit, &teller) {
        Ok(explored) => found_text(alloc, options, graph, &explored),
        Err(ExploreFault::TooLarge) => Err(ServeFault::TooLargeToExplore),
        Err(ExploreFault::TooMany) => Err(ServeFault::StateLimit {
            limit: options.limit,
        }),
        Err(ExploreFault::PartLimit) => Err(ServeFault::PartLimit),
        Err(ExploreFault::Memory) => Err(ServeFault::Memory),
    }
}

/// What is printed of what was found.
fn found_text(
    alloc: Global,
    options: &ExploreOptions,
    graph: &Graph,
    explored: &Explored,
) -> Result<Vec<u8>, ServeFault>
    requires limits { AreExploreLimits options.now }
    requires graph { explored.now.graph ≡ graph.now }
    requires wake { explored.now.wake ≡ options.now.wake }
    requires few { explored.now.states ≤ options.now.limit }
    ensures text { IfOk result (λ text. IsFound options.now.finding options.now graph.now text.items) }
    ensures fault { IfErr result (FindsNothing options.now graph.now) }
{
    match options.finding {
        Finding::Ends => Ok(ends_text(alloc, options, graph, explored)?),
        Finding::Run => trace_of_end(alloc, options, graph, explored),
    }
}

/// With which counts of messages the runs end.
fn ends_text(
    alloc: Global,
    options: &ExploreOptions,
    graph: &Graph,
    explored: &Explored,
) -> Result<Vec<u8>, AllocError>
    requires graph { explored.now.graph ≡ graph.now }
    requires wake { explored.now.wake ≡ options.now.wake }
    requires few { explored.now.states ≤ options.now.limit }
    ensures { IfOk result (λ text. AreEndsOf options.now graph.now text.items) }
{
    // Called for their clauses: what the rows and the states are, and that the first and the last row have the least and the
    // greatest sum.
    law_range();
    let _ = graph.nodes();
    let _ = explored.rows();
    let _ = explored.states();
    explored_text(alloc, explored)
}

/// The events of a run that ends as the row says that is asked for.
fn trace_of_end(
    alloc: Global,
    options: &ExploreOptions,
    graph: &Graph,
    explored: &Explored,
) -> Result<Vec<u8>, ServeFault>
    requires asked { options.now.finding ≡ Finding.Run }
    requires limits { AreExploreLimits options.now }
    requires graph { explored.now.graph ≡ graph.now }
    requires wake { explored.now.wake ≡ options.now.wake }
    ensures text { IfOk result (λ text. IsRunOf options.now graph.now text.items) }
    ensures fault { IfErr result (FindsNothing options.now graph.now) }
    ensures behind { length explored.now.rows < options.now.end → result ≡ Err (ServeFault.NoSuchEnd (length explored.now.rows)) }
{
    let ends = explored.rows().len();
    if options.end as usize > ends {
        return Err(ServeFault::NoSuchEnd { ends: ends as u64 });
    }
    let events = explored.run(alloc, options.end as usize - 1)?;
    Ok(write_trace(alloc, &events)?)
}
