//! The page of a run by a book.
ghost use Rattle.own_rules.specs.Rules.{rules_of};
ghost use Rattle.own_rules.specs.declared.protocol.TheConstants.{RUNNING};
ghost use Rattle.own_view.specs.Page.{IsOwnPage, IsPageBy};
ghost use Rattle.peer_machine.specs.Run.{IsRun, IsRunUnder};
ghost use Rattle.peer_network.specs.Network.{network_of};
ghost use Rattle.peer_network.specs.Wakes.{may_wake};
ghost use Rattle.peer_page.specs.Limits.{IsTooLarge};
ghost use Rattle.peer_page.specs.declared.fault.PageFault.TheVariants.{TooLarge};
ghost use Rattle.peer_view.specs.Stored.{HasNoPage};
ghost use Rattle.std.specs.Prelude.{IfErr, IfOk, IsErrOf, OnOk, ◌↔◌, ◌≡◌};

use crate::told::told_of;
use ghs_graph::graph::Graph;
use own_rules::protocol::{Chosen, Playing, RUNNING, Told};
use own_rules::rulebook::Rulebook;
use peer_network::event::Event;
use peer_network::wake_set::WakeSet;
use peer_page::fault::{PageFault, StoredFault};
use peer_page::limits::is_too_large;
use peer_page::page::page;
use peer_runs::replay::replay;
use peer_schedule::fault::ReplayFault;
use peer_words::viewed::Viewed;
use std::alloc::Global;
use std::marker::Brand;

/// The page of a run by a book: its steps from the opening on to the event `to`, or to the last where there are fewer. It opens
/// before the event `from`. Events are counted from 1. Refusals: the page is too large; out of memory.
///
/// ```text
/// let ran = run_book(alloc, &rules, graph.copy(alloc)?, WakeSet::All, 7, 1 << 40)?;
/// let html = run_page_book(alloc, &rules, graph, &ran.events, 1, u64::MAX)?;
/// // the whole run that seed 7 picks by this very book
/// ```
pub fn run_page_book(
    alloc: Global,
    rules: &Rulebook,
    graph: Graph,
    events: &[Event],
    from: u64,
    to: u64,
) -> Result<Vec<u8>, PageFault>
    requires { IsRun (rules_of rules.now RUNNING) (network_of graph) events.now }
    ensures page { IfOk result (λ text. IsPageBy rules.now RUNNING graph events.now from to text.items) }
    ensures large { IsErrOf result TooLarge ↔ IsTooLarge graph events.now to }
{
    run_page_by::<Brand>(alloc, rules, graph, events, from, to)
}

/// The same, by the book that a type names.
fn run_page_by<'a, J: Chosen>(
    alloc: Global,
    rules: &'a Rulebook,
    graph: Graph,
    events: &[Event],
    from: u64,
    to: u64,
) -> Result<Vec<u8>, PageFault>
    requires book { rules.now ≡ J.book }
    requires most { RUNNING ≡ J.most }
    requires run { IsRun (rules_of J.book J.most) (network_of graph) events.now }
    ensures page { IfOk result (λ text. IsPageBy J.book J.most graph events.now from to text.items) }
    ensures large { IsErrOf result TooLarge ↔ IsTooLarge graph events.now to }
{
    let playing = Playing {
        rules,
        most: RUNNING,
    };
    run_page_under::<Told<'a, J>>(alloc, playing, graph, events, from, to)
}

/// The same, by any protocol.
fn run_page_under<P: Viewed>(
    alloc: Global,
    setting: P::Setting,
    graph: Graph,
    events: &[Event],
    from: u64,
    to: u64,
) -> Result<Vec<u8>, PageFault>
    requires setting { P.goes_by setting }
    requires run { IsRun P.rules (network_of graph) events.now }
    ensures page { IfOk result (λ text. IsOwnPage P.rules P.words P.looks P.bound graph events.now from to text.items) }
    ensures large { IsErrOf result TooLarge ↔ IsTooLarge graph events.now to }
{
    if is_too_large(&graph, events, to) {
        return Err(PageFault::TooLarge);
    }
    let told = told_of::<P>(alloc, setting, graph, events, from, to)?;
    Ok(page(alloc, &told)?)
}

/// The page of a stored run by a book, from the opening on to the event `to`; it opens before the event `from`. A run that hasn't
/// ended is shown too. Refusals, in this order: an event isn't lawful; the page is too large; out of memory comes where it is met.
///
/// ```text
/// let html = stored_page_book(alloc, &rules, graph, WakeSet::All, &events, 1, u64::MAX)?;
/// // Err(StoredFault::NotLawful(2)) where the second event isn't lawful
/// ```
pub fn stored_page_book(
    alloc: Global,
    rules: &Rulebook,
    graph: Graph,
    wake: WakeSet,
    events: &[Event],
    from: u64,
    to: u64,
) -> Result<Vec<u8>, StoredFault>
    ensures run { OnOk result (IsRunUnder (rules_of rules.now RUNNING) (may_wake graph wake) (network_of graph) events.now) }
    ensures page { IfOk result (λ text. IsPageBy rules.now RUNNING graph events.now from to text.items) }
    ensures small { OnOk result (IsTooLarge graph events.now to → ⊥) }
    ensures fault { IfErr result (λ fault. HasNoPage (rules_of rules.now RUNNING) graph wake events.now to fault) }
{
    stored_page_by::<Brand>(alloc, rules, graph, wake, events, from, to)
}

/// The same, by the book that a type names.
fn stored_page_by<'a, J: Chosen>(
    alloc: Global,
    rules: &'a Rulebook,
    graph: Graph,
    wake: WakeSet,
    events: &[Event],
    from: u64,
    to: u64,
) -> Result<Vec<u8>, StoredFault>
    requires book { rules.now ≡ J.book }
    requires most { RUNNING ≡ J.most }
    ensures run { OnOk result (IsRunUnder (rules_of J.book J.most) (may_wake graph wake) (network_of graph) events.now) }
    ensures page { IfOk result (λ text. IsPageBy J.book J.most graph events.now from to text.items) }
    ensures small { OnOk result (IsTooLarge graph events.now to → ⊥) }
    ensures fault { IfErr result (λ fault. HasNoPage (rules_of J.book J.most) graph wake events.now to fault) }
{
    let playing = Playing {
        rules,
        most: RUNNING,
    };
    stored_page_under::<Told<'a, J>>(alloc, playing, graph, wake, events, from, to)
}

/// The same, by any protocol.
fn stored_page_under<P: Viewed>(
    alloc: Global,
    setting: P::Setting,
    graph: Graph,
    wake: WakeSet,
    events: &[Event],
    from: u64,
    to: u64,
) -> Result<Vec<u8>, StoredFault>
    requires setting { P.goes_by setting }
    ensures run { OnOk result (IsRunUnder P.rules (may_wake graph wake) (network_of graph) events.now) }
    ensures page { IfOk result (λ text. IsOwnPage P.rules P.words P.looks P.bound graph events.now from to text.items) }
    ensures small { OnOk result (IsTooLarge graph events.now to → ⊥) }
    ensures fault { IfErr result (λ fault. HasNoPage P.rules graph wake events.now to fault) }
{
    let world = match replay::<P>(alloc, setting, graph, wake, events) {
        Ok(world) => world,
        Err((_, ReplayFault::NotLawful(event))) => return Err(StoredFault::NotLawful(event)),
        Err((_, _)) => return Err(StoredFault::Memory),
    };
    // Read for its clause: the events are a run.
    let _ = world.net();
    match run_page_under::<P>(alloc, setting, world.into_graph(), events, from, to) {
        Ok(text) => Ok(text),
        Err(PageFault::TooLarge) => Err(StoredFault::TooLarge),
        Err(PageFault::Memory) => Err(StoredFault::Memory),
    }
}
