//! Pages of runs by a user's own protocol.
ghost use Rattle.ghs_answers.specs.StoredView.{HasNoStoredView};
ghost use Rattle.own_cli.specs.View.{HasNoOwnView, HasStoredOwnView, HasViewedOwn, IsOneView, IsOwnView, IsPairTrouble, IsShownRun, IsSound, IsStoredOwnView, IsTrouble, IsTwoView};
ghost use Rattle.own_view.specs.Page.{IsPageBy, IsPairBy};
ghost use Rattle.own_rules.specs.Rules.{rules_of};
ghost use Rattle.own_rules.specs.declared.protocol.TheConstants.{RUNNING};
ghost use Rattle.ghs_answers.specs.Causes.{IsUnwritten};
ghost use Rattle.std.specs.Prelude.{◌≡◌, ◌↔◌, false, true, IfErr, IfNone, IfOk, IfSome, None, Some};

use crate::run::{OwnEnd, OwnTold};
use ghs_answers::fault::ServeFault;
use ghs_commands::job::{StoredViewOptions, ViewOptions};
use ghs_gr::device::Sink;
use ghs_graph::graph::Graph;
use ghs_report::write_out::write_out;
use own_rules::rulebook::Rulebook;
use own_rules::run::{BookRun, run_book};
use own_view::page::{run_page_book, stored_page_book};
use own_view::pair::pair_page_book;
use peer_network::event::Event;
use peer_page::fault::{PageFault, StoredFault};
use std::alloc::{AllocError, Global};

/// Runs a graph by a book, as the seed, the turns and the wake set of the options say, and writes the page of the run, to its end or
/// to its last turn; with a second seed that of the two runs. It says how that ends: where the book lacks answers, or where a node
/// has stopped by one, what `run_by_book` writes of that is written in place of a page. The text is made whole before its first
/// byte goes out. Faults: the page is too large; lack of memory, where it is met; and then a write that fails.
///
/// ```text
/// let end = view_by_book(alloc, &options, graph, &rules, &mut out)?;
/// // OwnEnd::Ended, and standard output has the page; of an empty book OwnEnd::Asks, and it has the questions
/// ```
pub fn view_by_book<W: Sink>(
    alloc: Global,
    options: &ViewOptions,
    graph: Graph,
    rules: &Rulebook,
    out: &mut W,
) -> Result<OwnEnd, ServeFault>
    requires out { W.has_failed out.old ≡ false }
    ensures view { HasViewedOwn options.now graph rules.now (W.held out.old) (W.held out.new) result }
    ensures write { IsUnwritten result ↔ (W.has_failed out.new ≡ true) }
{
    let told = view_of(alloc, options, graph, rules)?;
    write_out(out, &told.text)?;
    Ok(told.end)
}

/// What goes out, and how that ends.
fn view_of(
    alloc: Global,
    options: &ViewOptions,
    graph: Graph,
    rules: &Rulebook,
) -> Result<OwnTold, ServeFault>
    ensures told { IfOk result (λ told. IsOwnView options.now graph rules.now told.end told.text.items) }
    ensures fault { IfErr result (HasNoOwnView options.now graph rules.now) }
{
    match options.beside {
        None => one_view(alloc, options, graph, rules),
        Some(beside) => two_view(alloc, options, beside, graph, rules),
    }
}

/// The same of one run.
fn one_view(
    alloc: Global,
    options: &ViewOptions,
    graph: Graph,
    rules: &Rulebook,
) -> Result<OwnTold, ServeFault>
    requires { options.now.beside ≡ None }
    ensures told { IfOk result (λ told. IsOneView options.now graph rules.now told.end told.text.items) }
    ensures fault { IfErr result (HasNoOwnView options.now graph rules.now) }
{
    let same = graph.copy(alloc)?;
    let ran = run_of(alloc, options, options.seed, graph, rules)?;
    match sound(ran) {
        Ok(ran) => Ok(OwnTold {
            end: OwnEnd::Ended,
            text: page_of(alloc, options, same, rules, &ran)?,
        }),
        Err(told) => Ok(told),
    }
}

/// The run of the graph that a seed picks by the book.
fn run_of(
    alloc: Global,
    options: &ViewOptions,
    seed: u64,
    graph: Graph,
    rules: &Rulebook,
) -> Result<BookRun, AllocError>
    ensures { IfOk result (IsShownRun options.now seed graph rules.now) }
{
    run_book(alloc, rules, graph, options.wake, seed, options.turns, None)
}

/// A run that the book lacks no answer in, and in which no node has stopped by one; of another what is printed of it.
fn sound(ran: BookRun) -> Result<BookRun, OwnTold>
    ensures ok { IfOk result (λ same. (same ≡ ran) × IsSound ran) }
    ensures err { IfErr result (λ told. IsTrouble ran told.end told.text.items) }
{
    if !ran.lacking.is_empty() {
        return Err(OwnTold {
            end: OwnEnd::Asks,
            text: ran.lacking,
        });
    }
    if !ran.faults.is_empty() {
        return Err(OwnTold {
            end: OwnEnd::Fails,
            text: ran.faults,
        });
    }
    Ok(ran)
}

/// The page of a run.
fn page_of(
    alloc: Global,
    options: &ViewOptions,
    graph: Graph,
    rules: &Rulebook,
    ran: &BookRun,
) -> Result<Vec<u8>, ServeFault>
    requires alone { options.now.beside ≡ None }
    requires run { IsShownRun options.now options.now.seed graph rules.now ran.now }
    ensures page { IfOk result (λ text. IsPageBy rules.now RUNNING graph ran.now.events.items options.now.from options.now.to text.items) }
    ensures fault { IfErr result (HasNoOwnView options.now graph rules.now) }
{
    match run_page_book(alloc, rules, graph, &ran.events, options.from, options.to) {
        Ok(text) => Ok(text),
        Err(PageFault::TooLarge) => Err(ServeFault::PageTooLarge),
        Err(PageFault::Memory) => Err(ServeFault::Memory),
    }
}

/// The same of two runs.
fn two_view(
    alloc: Global,
    options: &ViewOptions,
    beside: u64,
    graph: Graph,
    rules: &Rulebook,
) -> Result<OwnTold, ServeFault>
    requires { options.now.beside ≡ Some beside }
    ensures told { IfOk result (λ told. IsTwoView options.now beside graph rules.now told.end told.text.items) }
    ensures fault { IfErr result (HasNoOwnView options.now graph rules.now) }
{
    let same = graph.copy(alloc)?;
    let again = graph.copy(alloc)?;
    let first = run_of(alloc, options, options.seed, graph, rules)?;
    let second = run_of(alloc, options, beside, same, rules)?;
    match sound_pair(first, second) {
        Ok((first, second)) => Ok(OwnTold {
            end: OwnEnd::Ended,
            text: pair_of(alloc, options, beside, again, rules, &first, &second)?,
        }),
        Err(told) => Ok(told),
    }
}

/// Two runs without trouble; else what is printed of the first that has some.
fn sound_pair(first: BookRun, second: BookRun) -> Result<(BookRun, BookRun), OwnTold>
    ensures ok { IfOk result (λ same. (same.0 ≡ first) × (same.1 ≡ second) × IsSound first × IsSound second) }
    ensures err { IfErr result (λ told. IsPairTrouble first second told.end told.text.items) }
{
    let first = sound(first)?;
    let second = sound(second)?;
    Ok((first, second))
}

/// The page of two runs.
fn pair_of(
    alloc: Global,
    options: &ViewOptions,
    beside: u64,
    graph: Graph,
    rules: &Rulebook,
    first: &BookRun,
    second: &BookRun,
) -> Result<Vec<u8>, ServeFault>
    requires beside { options.now.beside ≡ Some beside }
    requires first { IsShownRun options.now options.now.seed graph rules.now first.now }
    requires second { IsShownRun options.now beside graph rules.now second.now }
    ensures page { IfOk result (λ text. IsPairBy rules.now RUNNING graph first.now.events.items second.now.events.items options.now.from options.now.to text.items) }
    ensures fault { IfErr result (HasNoOwnView options.now graph rules.now) }
{
    match pair_page_book(
        alloc,
        rules,
        graph,
        &first.events,
        &second.events,
        options.from,
        options.to,
    ) {
        Ok(text) => Ok(text),
        Err(PageFault::TooLarge) => Err(ServeFault::PageTooLarge),
        Err(PageFault::Memory) => Err(ServeFault::Memory),
    }
}

/// Writes the page of a stored run of a graph by a book, which needn't have ended, nor go on without trouble. The text is made whole
/// before its first byte goes out. Faults: the first event that isn't lawful; the page is too large; lack of memory, where it is
/// met; and then a write that fails.
///
/// ```text
/// stored_view_by_book(alloc, &options, graph, &rules, &events, &mut out)?;
/// // the page of the run that `ghs run --protocol own --print trace` stored
/// ```
pub fn stored_view_by_book<W: Sink>(
    alloc: Global,
    options: &StoredViewOptions,
    graph: Graph,
    rules: &Rulebook,
    events: &[Event],
    out: &mut W,
) -> Result<(), ServeFault>
    requires out { W.has_failed out.old ≡ false }
    ensures view { HasStoredOwnView options.now graph rules.now events.now (W.held out.old) (W.held out.new) result }
    ensures write { IsUnwritten result ↔ (W.has_failed out.new ≡ true) }
{
    let text = stored_text(alloc, options, graph, rules, events)?;
    write_out(out, &text)?;
    Ok(())
}

/// The page of these events.
fn stored_text(
    alloc: Global,
    options: &StoredViewOptions,
    graph: Graph,
    rules: &Rulebook,
    events: &[Event],
) -> Result<Vec<u8>, ServeFault>
    ensures page { IfOk result (λ text. IsStoredOwnView options.now graph rules.now events.now text.items) }
    ensures fault { IfErr result (HasNoStoredView (rules_of rules.now RUNNING) options.now graph events.now) }
{
    match stored_page_book(
        alloc,
        rules,
        graph,
        options.wake,
        events,
        options.from,
        options.to,
    ) {
        Ok(text) => Ok(text),
        Err(StoredFault::NotLawful(event)) => Err(ServeFault::NotLawful(event)),
        Err(StoredFault::TooLarge) => Err(ServeFault::PageTooLarge),
        Err(StoredFault::Memory) => Err(ServeFault::Memory),
    }
}
