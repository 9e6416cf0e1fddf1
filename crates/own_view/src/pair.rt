//! The page of two runs by a book.
ghost use Rattle.own_rules.specs.Rules.{rules_of};
ghost use Rattle.own_rules.specs.declared.protocol.TheConstants.{RUNNING};
ghost use Rattle.own_view.specs.Page.{IsOwnPair, IsPairBy};
ghost use Rattle.peer_machine.specs.Run.{IsRun};
ghost use Rattle.peer_network.specs.Network.{network_of};
ghost use Rattle.peer_page.specs.Limits.{IsPairTooLarge};
ghost use Rattle.peer_page.specs.declared.fault.PageFault.TheVariants.{TooLarge};
ghost use Rattle.std.specs.Prelude.{IfOk, IsErrOf, ◌↔◌, ◌≡◌};

use crate::told::told_of;
use ghs_graph::graph::Graph;
use own_rules::protocol::{Chosen, Playing, RUNNING, Told};
use own_rules::rulebook::Rulebook;
use peer_network::event::Event;
use peer_page::fault::PageFault;
use peer_page::limits::is_too_large;
use peer_page::page;
use peer_words::viewed::Viewed;
use std::alloc::Global;
use std::marker::Brand;

/// The page of two runs of one network by a book, beside each other: of each its steps from the opening on to the event `to`, or
/// to its last where there are fewer. Both open before the event `from`. Events are counted from 1. Refusals: a page of one of the
/// two would be too large; out of memory.
///
/// ```text
/// let html = pair_page_book(alloc, &rules, graph, &first.events, &second.events, 1, u64::MAX)?;
/// // both runs whole; Err(PageFault::TooLarge) where one of them has more than 100,000 events
/// ```
pub fn pair_page_book(
    alloc: Global,
    rules: &Rulebook,
    graph: Graph,
    first: &[Event],
    second: &[Event],
    from: u64,
    to: u64,
) -> Result<Vec<u8>, PageFault>
    requires first { IsRun (rules_of rules.now RUNNING) (network_of graph) first.now }
    requires second { IsRun (rules_of rules.now RUNNING) (network_of graph) second.now }
    ensures page { IfOk result (λ text. IsPairBy rules.now RUNNING graph first.now second.now from to text.items) }
    ensures large { IsErrOf result TooLarge ↔ IsPairTooLarge graph first.now second.now to }
{
    pair_page_by::<Brand>(alloc, rules, graph, first, second, from, to)
}

/// The same, by the book that a type names.
fn pair_page_by<'a, J: Chosen>(
    alloc: Global,
    rules: &'a Rulebook,
    graph: Graph,
    first: &[Event],
    second: &[Event],
    from: u64,
    to: u64,
) -> Result<Vec<u8>, PageFault>
    requires book { rules.now ≡ J.book }
    requires most { RUNNING ≡ J.most }
    requires first { IsRun (rules_of J.book J.most) (network_of graph) first.now }
    requires second { IsRun (rules_of J.book J.most) (network_of graph) second.now }
    ensures page { IfOk result (λ text. IsPairBy J.book J.most graph first.now second.now from to text.items) }
    ensures large { IsErrOf result TooLarge ↔ IsPairTooLarge graph first.now second.now to }
{
    let playing = Playing {
        rules,
        most: RUNNING,
    };
    pair_page_under::<Told<'a, J>>(alloc, playing, graph, first, second, from, to)
}

/// The same, by any protocol.
fn pair_page_under<P: Viewed>(
    alloc: Global,
    setting: P::Setting,
    graph: Graph,
    first: &[Event],
    second: &[Event],
    from: u64,
    to: u64,
) -> Result<Vec<u8>, PageFault>
    requires setting { P.goes_by setting }
    requires first { IsRun P.rules (network_of graph) first.now }
    requires second { IsRun P.rules (network_of graph) second.now }
    ensures page { IfOk result (λ text. IsOwnPair P.rules P.words P.looks P.bound graph first.now second.now from to text.items) }
    ensures large { IsErrOf result TooLarge ↔ IsPairTooLarge graph first.now second.now to }
{
    if is_too_large(&graph, first, to) || is_too_large(&graph, second, to) {
        return Err(PageFault::TooLarge);
    }
    let same = graph.copy(alloc)?;
    let told = told_of::<P>(alloc, setting, graph, first, from, to)?;
    let other = told_of::<P>(alloc, setting, same, second, from, to)?;
    Ok(page::pair_page(alloc, &told, &other)?)
}
