//! Pages of runs by any protocol: of the run that a seed picks or those of two, and of a stored one.
ghost use Rattle.peer_view.specs.PairPage.{IsPairPage};
ghost use Rattle.peer_view.specs.RunPage.{IsRunPage};
ghost use Rattle.ghs_answers.specs.StoredView.{HasNoStoredView, IsStoredView};
ghost use Rattle.ghs_cli.specs.AnyView.{HasNoView, IsPairView, IsRunView, IsShownBy, IsView};
ghost use Rattle.std.specs.Prelude.{◌≡◌, None, Some, IfErr, IfOk};

use ghs_answers::fault::ServeFault;
use ghs_commands::job::{StoredViewOptions, ViewOptions};
use ghs_graph::graph::Graph;
use peer_machine::ends::Ends;
use peer_network::event::Event;
use peer_page::fault::{PageFault, StoredFault};
use peer_report::run::run_by_seed;
use peer_runs::world::World;
use peer_view::page::run_page;
use peer_view::pair::pair_page;
use peer_view::stored::stored_page;
use peer_words::viewed::Viewed;
use std::alloc::Global;

/// The page of the run that a seed picks of a graph, to its end or to its last turn, or of the runs of two seeds.
pub(crate) fn viewed<P: Ends + Viewed>(
    alloc: Global,
    setting: P::Setting,
    options: &ViewOptions,
    graph: Graph,
) -> Result<Vec<u8>, ServeFault>
    requires { P.goes_by setting }
    ensures text { IfOk result (λ text. IsView P.rules (IsRunPage P.rules P.words P.looks P.bound) P.has_ended (IsPairPage P.rules P.words P.looks P.bound) options.now graph text.items) }
    ensures fault { IfErr result (λ fault. HasNoView P.rules P.has_ended options.now graph fault) }
{
    match options.beside {
        None => run_viewed::<P>(alloc, setting, options, graph),
        Some(beside) => pair_viewed::<P>(alloc, setting, options, beside, graph),
    }
}

/// The page of one run.
fn run_viewed<P: Ends + Viewed>(
    alloc: Global,
    setting: P::Setting,
    options: &ViewOptions,
    graph: Graph,
) -> Result<Vec<u8>, ServeFault>
    requires setting { P.goes_by setting }
    requires alone { options.now.beside ≡ None }
    ensures text { IfOk result (λ text. IsRunView P.rules (IsRunPage P.rules P.words P.looks P.bound) P.has_ended options.now graph text.items) }
    ensures fault { IfErr result (λ fault. HasNoView P.rules P.has_ended options.now graph fault) }
{
    let (world, _) = run_by_seed::<P>(
        alloc,
        setting,
        graph,
        options.wake,
        options.schedule_kind,
        options.seed,
        options.turns,
    )?;
    page_of(alloc, options, &world)
}

/// The page of a world.
fn page_of<P: Ends + Viewed>(
    alloc: Global,
    options: &ViewOptions,
    world: &World<P>,
) -> Result<Vec<u8>, ServeFault>
    requires alone { options.now.beside ≡ None }
    requires run { IsShownBy P.rules P.has_ended options.now.seed options.now world.now.net.graph world.now.net.trace }
    ensures text { IfOk result (λ text. IsRunView P.rules (IsRunPage P.rules P.words P.looks P.bound) P.has_ended options.now world.now.net.graph text.items) }
    ensures fault { IfErr result (λ fault. HasNoView P.rules P.has_ended options.now world.now.net.graph fault) }
{
    let net = world.net();
    let graph = net.graph().copy(alloc)?;
    match run_page::<P>(
        alloc,
        net.setting(),
        graph,
        net.trace(),
        options.from,
        options.to,
    ) {
        Ok(text) => Ok(text),
        Err(PageFault::TooLarge) => Err(ServeFault::PageTooLarge),
        Err(PageFault::Memory) => Err(ServeFault::Memory),
    }
}

/// The page of the runs that two seeds pick of a graph: the options' and another.
fn pair_viewed<P: Ends + Viewed>(
    alloc: Global,
    setting: P::Setting,
    options: &ViewOptions,
    beside: u64,
    graph: Graph,
) -> Result<Vec<u8>, ServeFault>
    requires setting { P.goes_by setting }
    requires beside { options.now.beside ≡ Some beside }
    ensures text { IfOk result (λ text. IsPairView P.rules (IsRunPage P.rules P.words P.looks P.bound) P.has_ended (IsPairPage P.rules P.words P.looks P.bound) options.now beside graph text.items) }
    ensures fault { IfErr result (λ fault. HasNoView P.rules P.has_ended options.now graph fault) }
{
    let same = graph.copy(alloc)?;
    let seed = options.seed;
    let (first, _) = run_by_seed::<P>(
        alloc,
        setting,
        graph,
        options.wake,
        options.schedule_kind,
        seed,
        options.turns,
    )?;
    viewed_beside(alloc, setting, options, beside, same, &first)
}

/// The page of a world's run, and beside it of the one that another seed picks of the same graph.
fn viewed_beside<P: Ends + Viewed>(
    alloc: Global,
    setting: P::Setting,
    options: &ViewOptions,
    beside: u64,
    graph: Graph,
    first: &World<P>,
) -> Result<Vec<u8>, ServeFault>
    requires setting { P.goes_by setting }
    requires beside { options.now.beside ≡ Some beside }
    requires graph { first.now.net.graph ≡ graph }
    requires first { IsShownBy P.rules P.has_ended options.now.seed options.now graph first.now.net.trace }
    ensures text { IfOk result (λ text. IsPairView P.rules (IsRunPage P.rules P.words P.looks P.bound) P.has_ended (IsPairPage P.rules P.words P.looks P.bound) options.now beside graph text.items) }
    ensures fault { IfErr result (λ fault. HasNoView P.rules P.has_ended options.now graph fault) }
{
    let (second, _) = run_by_seed::<P>(
        alloc,
        setting,
        graph,
        options.wake,
        options.schedule_kind,
        beside,
        options.turns,
    )?;
    pair_page_of(alloc, options, beside, first, &second)
}

/// The page of two worlds of one graph.
fn pair_page_of<P: Ends + Viewed>(
    alloc: Global,
    options: &ViewOptions,
    beside: u64,
    first: &World<P>,
    second: &World<P>,
) -> Result<Vec<u8>, ServeFault>
    requires beside { options.now.beside ≡ Some beside }
    requires graph { second.now.net.graph ≡ first.now.net.graph }
    requires first { IsShownBy P.rules P.has_ended options.now.seed options.now first.now.net.graph first.now.net.trace }
    requires second { IsShownBy P.rules P.has_ended beside options.now first.now.net.graph second.now.net.trace }
    ensures text { IfOk result (λ text. IsPairView P.rules (IsRunPage P.rules P.words P.looks P.bound) P.has_ended (IsPairPage P.rules P.words P.looks P.bound) options.now beside first.now.net.graph text.items) }
    ensures fault { IfErr result (λ fault. HasNoView P.rules P.has_ended options.now first.now.net.graph fault) }
{
    let net = first.net();
    let other = second.net();
    let graph = net.graph().copy(alloc)?;
    match pair_page::<P>(
        alloc,
        net.setting(),
        graph,
        net.trace(),
        other.trace(),
        options.from,
        options.to,
    ) {
        Ok(text) => Ok(text),
        Err(PageFault::TooLarge) => Err(ServeFault::PageTooLarge),
        Err(PageFault::Memory) => Err(ServeFault::Memory),
    }
}

/// The page of events, once they are known to be a run of a graph.
pub(crate) fn stored_viewed<P: Ends + Viewed>(
    alloc: Global,
    setting: P::Setting,
    options: &StoredViewOptions,
    graph: Graph,
    events: &[Event],
) -> Result<Vec<u8>, ServeFault>
    requires { P.goes_by setting }
    ensures text { IfOk result (λ text. IsStoredView P.rules (IsRunPage P.rules P.words P.looks P.bound) options.now graph events.now text.items) }
    ensures fault { IfErr result (λ fault. HasNoStoredView P.rules options.now graph events.now fault) }
{
    let wake = options.wake;
    match stored_page::<P>(
        alloc,
        setting,
        graph,
        wake,
        events,
        options.from,
        options.to,
    ) {
        Ok(text) => Ok(text),
        Err(StoredFault::NotLawful(event)) => Err(ServeFault::NotLawful(event)),
        Err(StoredFault::TooLarge) => Err(ServeFault::PageTooLarge),
        Err(StoredFault::Memory) => Err(ServeFault::Memory),
    }
}
