//! Pages of runs: of the run that a seed picks, of the runs of two, and of a stored one.
ghost use Rattle.ghs_commands.specs.Job.{AreViewLimits};
ghost use Rattle.ghs_cli.specs.Serving.{IsBothCause, IsOfBoth, IsOfText, IsTextCause};
ghost use Rattle.ghs_answers.specs.Causes.{is_write};
ghost use Rattle.ghs_cli.specs.Verbs.{verbs_of};
ghost use Rattle.ghs_cli.specs.Viewing.{HasNoSeedView, HasNoStoredView, HasNoView, IsSeedView, IsStoredView, IsView};
ghost use Rattle.ghs_answers.specs.declared.fault.ServeFault.{ServeFault};
ghost use Rattle.ghs_picking.specs.Picking.{IsPickedBy};
ghost use Rattle.ghs_view.specs.RunPage.{IsRunPage};
ghost use Rattle.peer_page.specs.Limits.{IsTooLarge};
ghost use Rattle.std.specs.Prelude.{◌≡◌, ◌≤◌, ◌⊎◌, ◌↔◌, false, length, true, IfSome, IsErrOf, IfErr, IfOk};

use crate::any_view;
use crate::beside::pair_viewed;
use crate::reading::{events_of, graph_of};
use boruvka::protocol::Boruvka;
use bumpalo::Bump;
use echo::protocol::Echo;
use gather::protocol::Gather;
use ghs_answers::fault::ServeFault;
use ghs_commands::job::{StoredViewOptions, ViewOptions};
use ghs_gr::device::Source;
use ghs_graph::graph::Graph;
use ghs_picking::picking::run_by_seed;
use ghs_sched::fault::RunFault;
use ghs_view::page::run_page;
use ghs_view::stored::stored_page;
use ghs_world::world::World;
use peer_network::event::Event;
use peer_page::fault::{PageFault, StoredFault};
use peer_texts::trace::EVENT_LIMIT;
use peer_trace::protocol::Protocol;
use std::alloc::Global;

/// The page of the run that a seed picks of the graph that the device gives, or of the runs of two.
pub(crate) fn view_text_of<S: Source>(
    alloc: Global,
    protocol: Protocol,
    options: &ViewOptions,
    graph: &mut S,
) -> Result<Vec<u8>, ServeFault>
    requires limits { AreViewLimits options.now }
    requires graph { S.has_failed graph.old ≡ false }
    ensures text { IfOk result (λ text. IfSome (S.left graph.old) (λ input. IsOfText options.now.wake ((verbs_of protocol).views options.now) input text.items)) }
    ensures fault { IfErr result (λ fault. IfSome (S.left graph.old) (λ input. IsTextCause options.now.wake ((verbs_of protocol).cant_view options.now) input fault)) }
    ensures early { IfErr result (λ fault. is_write fault ≡ false) }
    ensures read { IsErrOf result ServeFault.Read ↔ (S.has_failed graph.new ≡ true) }
{
    let graph = graph_of(alloc, options.wake, graph)?;
    viewed_by(alloc, protocol, options, graph)
}

/// The page of a run of a graph by a protocol, or of two.
fn viewed_by(
    alloc: Global,
    protocol: Protocol,
    options: &ViewOptions,
    graph: Graph,
) -> Result<Vec<u8>, ServeFault>
    requires { AreViewLimits options.now }
    ensures text { IfOk result (λ text. (verbs_of protocol).views options.now graph text.items) }
    ensures fault { IfErr result ((verbs_of protocol).cant_view options.now graph) }
    ensures early { IfErr result (λ fault. is_write fault ≡ false) }
    ensures unread { IsErrOf result ServeFault.Read → ⊥ }
{
    match protocol {
        Protocol::Ghs => viewed(alloc, options, graph),
        Protocol::Boruvka => any_view::viewed::<Boruvka>(alloc, (), options, graph),
        Protocol::Echo => any_view::viewed::<Echo>(alloc, (), options, graph),
        Protocol::Gather => {
            let lists = Bump::new(alloc);
            any_view::viewed::<Gather>(alloc, &lists, options, graph)
        }
    }
}

/// The page of the run that a seed picks of a graph, or of the runs of two, by GHS.
fn viewed(alloc: Global, options: &ViewOptions, graph: Graph) -> Result<Vec<u8>, ServeFault>
    requires { AreViewLimits options.now }
    ensures text { IfOk result (λ text. IsView options.now graph text.items) }
    ensures fault { IfErr result (λ fault. HasNoView options.now graph fault) }
{
    match options.beside {
        None => seed_viewed(alloc, options, graph),
        Some(beside) => pair_viewed(alloc, options, beside, graph),
    }
}

/// The page of the run that a seed picks of a graph.
fn seed_viewed(alloc: Global, options: &ViewOptions, graph: Graph) -> Result<Vec<u8>, ServeFault>
    requires { AreViewLimits options.now }
    ensures text { IfOk result (λ text. IsSeedView options.now graph text.items) }
    ensures fault { IfErr result (λ fault. HasNoSeedView options.now graph fault) }
{
    let world = world_of(alloc, options, options.seed, graph)?;
    page_of(alloc, options, &world)
}

/// The world that a seed's run of a graph leaves, at its end or at its last turn.
pub(crate) fn world_of(
    alloc: Global,
    options: &ViewOptions,
    seed: u64,
    graph: Graph,
) -> Result<World, ServeFault>
    requires { AreViewLimits options.now }
    ensures graph { IfOk result (λ world. world.net.graph ≡ graph) }
    ensures picked { IfOk result (λ world. IsPickedBy options.now.schedule_kind seed options.now.wake options.now.turns graph world.net.trace) }
    ensures fault { IfErr result (λ fault. fault ≡ ServeFault.Memory) }
{
    let mut world = match World::open(alloc, graph, options.wake, options.turns) {
        Ok(world) => world,
        Err(_) => return Err(ServeFault::Memory),
    };
    match run_by_seed(alloc, &mut world, options.schedule_kind, seed) {
        Ok(_) => Ok(world),
        Err(RunFault::TurnLimit) => Ok(world),
        Err(RunFault::Stalled) => unreachable!(),
        Err(RunFault::Unforeseen) => unreachable!(),
        Err(RunFault::Memory) => Err(ServeFault::Memory),
    }
}

/// The page of a world.
fn page_of(alloc: Global, options: &ViewOptions, world: &World) -> Result<Vec<u8>, ServeFault>
    requires { IsPickedBy options.now.schedule_kind options.now.seed options.now.wake options.now.turns world.now.net.graph world.now.net.trace }
    ensures text { IfOk result (λ text. IsSeedView options.now world.now.net.graph text.items) }
    ensures fault { IfErr result (λ fault. HasNoSeedView options.now world.now.net.graph fault) }
{
    // Read for their clauses: the events are a run, and no more than 2^40.
    let _ = world.net();
    let _ = world.turns();
    let graph = world.graph().copy(alloc)?;
    match run_page(alloc, graph, world.trace(), options.from, options.to) {
        Ok(text) => Ok(text),
        Err(PageFault::TooLarge) => Err(ServeFault::PageTooLarge),
        Err(PageFault::Memory) => Err(ServeFault::Memory),
    }
}

/// The page of a stored run of the graph that a device gives. The trace is judged first, then the graph.
pub(crate) fn stored_view_of<R: Source, T: Source>(
    alloc: Global,
    protocol: Protocol,
    options: &StoredViewOptions,
    graph: &mut R,
    trace: &mut T,
) -> Result<Vec<u8>, ServeFault>
    requires graph { R.has_failed graph.old ≡ false }
    requires trace { T.has_failed trace.old ≡ false }
    ensures text { IfOk result (λ text. IfSome (T.left trace.old) (λ stored. IfSome (R.left graph.old) (λ input. IsOfBoth protocol options.now.wake ((verbs_of protocol).views_stored options.now) stored input text.items))) }
    ensures fault { IfErr result (λ fault. IfSome (T.left trace.old) (λ stored. IfSome (R.left graph.old) (λ input. IsBothCause protocol options.now.wake ((verbs_of protocol).cant_view_stored options.now) stored input fault))) }
    ensures early { IfErr result (λ fault. is_write fault ≡ false) }
    ensures read { IsErrOf result ServeFault.Read ↔ ((R.has_failed graph.new ≡ true) ⊎ (T.has_failed trace.new ≡ true)) }
{
    let events = events_of(alloc, protocol, trace)?;
    let graph = graph_of(alloc, options.wake, graph)?;
    stored_viewed_by(alloc, protocol, options, graph, &events)
}

/// The page of events, once they are known to be a run of a graph by a protocol.
fn stored_viewed_by(
    alloc: Global,
    protocol: Protocol,
    options: &StoredViewOptions,
    graph: Graph,
    events: &[Event],
) -> Result<Vec<u8>, ServeFault>
    requires { length events.now ≤ EVENT_LIMIT }
    ensures text { IfOk result (λ text. (verbs_of protocol).views_stored options.now graph events.now text.items) }
    ensures fault { IfErr result ((verbs_of protocol).cant_view_stored options.now graph events.now) }
    ensures early { IfErr result (λ fault. is_write fault ≡ false) }
    ensures unread { IsErrOf result ServeFault.Read → ⊥ }
{
    match protocol {
        Protocol::Ghs => stored_viewed(alloc, options, graph, events),
        Protocol::Boruvka => any_view::stored_viewed::<Boruvka>(alloc, (), options, graph, events),
        Protocol::Echo => any_view::stored_viewed::<Echo>(alloc, (), options, graph, events),
        Protocol::Gather => {
            let lists = Bump::new(alloc);
            any_view::stored_viewed::<Gather>(alloc, &lists, options, graph, events)
        }
    }
}

/// The same by GHS.
fn stored_viewed(
    alloc: Global,
    options: &StoredViewOptions,
    graph: Graph,
    events: &[Event],
) -> Result<Vec<u8>, ServeFault>
    requires { length events.now ≤ EVENT_LIMIT }
    ensures text { IfOk result (λ text. IsStoredView options.now graph events.now text.items) }
    ensures fault { IfErr result (λ fault. HasNoStoredView options.now graph events.now fault) }
{
    match stored_page(alloc, graph, options.wake, events, options.from, options.to) {
        Ok(text) => Ok(text),
        Err(StoredFault::NotLawful(event)) => Err(ServeFault::NotLawful(event)),
        Err(StoredFault::TooLarge) => Err(ServeFault::PageTooLarge),
        Err(StoredFault::Memory) => Err(ServeFault::Memory),
    }
}
