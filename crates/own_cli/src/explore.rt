//! All runs of a small network by a user's own protocol.
ghost use Rattle.ghs_answers.specs.Causes.{IsUnwritten};
ghost use Rattle.ghs_commands.specs.Job.{AreExploreLimits};
ghost use Rattle.own_cli.specs.Explore.{HasExploredOwn, HasNoOwnExploration, IsFoundOwn, IsOwnExploration, IsToldAs, IsToldBy, leads_there, never_ends, row_asked};
ghost use Rattle.own_runs.specs.Mark.{mark_of as mark_of_book};
ghost use Rattle.own_cli.specs.declared.run.OwnEnd.TheVariants.{Misses};
ghost use Rattle.own_runs.specs.declared.explore.BookExplored.TheVariants.{Whole};
ghost use Rattle.own_book.specs.Entry.{Entry};
ghost use Rattle.peer_trace.specs.Text.{own_text};
ghost use Rattle.std.specs.Prelude.{◌≡◌, ◌++◌, ◌↔◌, false, true, IfErr, IfOk, List, None, length};

use crate::run::{OwnEnd, OwnTold};
use ghs_answers::fault::ServeFault;
use ghs_choices::check::Check;
use ghs_commands::exploring::{ExploreOptions, Finding};
use ghs_gr::device::Sink;
use ghs_graph::graph::Graph;
use ghs_report::write_out::write_out;
use own_book::book::Book;
use own_rules::rulebook::Rulebook;
use own_runs::explore::{BookEnds, BookExplored, ExploreBookFault, Failure, explore_book};
use own_runs::mark::mark_of;
use peer_explore::fault::ExploreFault;
use peer_explore::watch::Unwatched;
use peer_network::event::Event;
use peer_trace::mark::OwnMark;
use peer_trace::own::write_own_trace;
use std::alloc::{AllocError, Global};

/// Explores all runs of a small network by a book, and writes with which counts of messages they end, or the events of the run that
/// is asked for. It says how that ends: where some run lacks an answer, all questions that the runs lack go out in their place; and
/// where none does but a node stops by an answer, or a run can't be brought to an end, what is said of that, and the events of a
/// run that leads there. The text is made whole before its first byte goes out. Faults: the greeting has more than eight kinds; the
/// network is too large; and then, whichever is met first, more states than the limit, more parts than the search has numbers, lack
/// of memory; no such row; and then a write that fails.
///
/// ```text
/// let end = explore_by_book(alloc, &options, &graph, book, None, &mut out)?;
/// // of an empty book OwnEnd::Asks, and standard output has `own 1` and the openings of all nodes
/// ```
pub fn explore_by_book<W: Sink>(
    alloc: Global,
    options: &ExploreOptions,
    graph: &Graph,
    book: Book,
    check: Option<Check>,
    out: &mut W,
) -> Result<OwnEnd, ServeFault>
    requires out { W.has_failed out.old ≡ false }
    requires limits { AreExploreLimits options.now }
    ensures explored { HasExploredOwn options.now check graph.now book (W.held out.old) (W.held out.new) result }
    ensures write { IsUnwritten result ↔ (W.has_failed out.new ≡ true) }
{
    let told = explored(alloc, options, graph, book, check)?;
    write_out(out, &told.text)?;
    Ok(told.end)
}

/// What goes out, and how that ends.
fn explored(
    alloc: Global,
    options: &ExploreOptions,
    graph: &Graph,
    book: Book,
    check: Option<Check>,
) -> Result<OwnTold, ServeFault>
    requires { AreExploreLimits options.now }
    ensures told { IfOk result (λ told. IsOwnExploration options.now check graph.now book told.end told.text.items) }
    ensures fault { IfErr result (HasNoOwnExploration options.now check graph.now book) }
{
    let mark = mark_of(alloc, &book)?;
    let rules = Rulebook::of(alloc, book)?;
    explored_under(alloc, options, graph, &mark, &rules, check)
}

/// The same of a book that is ready to run, and has this mark.
fn explored_under(
    alloc: Global,
    options: &ExploreOptions,
    graph: &Graph,
    mark: &OwnMark,
    rules: &Rulebook,
    check: Option<Check>,
) -> Result<OwnTold, ServeFault>
    requires limits { AreExploreLimits options.now }
    requires mark { mark.now ≡ mark_of_book rules.now }
    ensures told { IfOk result (λ told. IsOwnExploration options.now check graph.now rules.now told.end told.text.items) }
    ensures fault { IfErr result (HasNoOwnExploration options.now check graph.now rules.now) }
{
    match explore_book(
        alloc,
        rules,
        graph,
        options.wake,
        options.limit,
        row_asked(options),
        check,
        &Unwatched,
    ) {
        Ok(told) => told_as(alloc, options, graph, mark, rules, check, told),
        Err(ExploreBookFault::Kinds) => Err(ServeFault::TooManyKinds),
        Err(ExploreBookFault::Network(ExploreFault::TooLarge)) => {
            Err(ServeFault::TooLargeToExplore)
        }
        Err(ExploreBookFault::Network(ExploreFault::TooMany)) => Err(ServeFault::StateLimit {
            limit: options.limit,
        }),
        Err(ExploreBookFault::Network(ExploreFault::PartLimit)) => Err(ServeFault::PartLimit),
        Err(ExploreBookFault::Network(ExploreFault::Memory)) => Err(ServeFault::Memory),
    }
}

/// The place of the row whose run is asked for.
fn row_asked(options: &ExploreOptions) -> Option<usize>
    requires { AreExploreLimits options.now }
    ensures { result ≡ row_asked options.now.finding options.now.end }
{
    match options.finding {
        Finding::Ends => None,
        Finding::Run => Some(options.end as usize - 1),
    }
}

/// What is printed of all runs.
fn told_as(
    alloc: Global,
    options: &ExploreOptions,
    graph: &Graph,
    mark: &OwnMark,
    rules: &Rulebook,
    check: Option<Check>,
    told: BookExplored,
) -> Result<OwnTold, ServeFault>
    requires mark { mark.now ≡ mark_of_book rules.now }
    requires told { IsToldBy options.now check graph.now rules.now told }
    ensures told { IfOk result (λ printed. IsOwnExploration options.now check graph.now rules.now printed.end printed.text.items) }
    ensures fault { IfErr result (HasNoOwnExploration options.now check graph.now rules.now) }
{
    match told {
        BookExplored::Lacks(text) => Ok(OwnTold {
            end: OwnEnd::Asks,
            text,
        }),
        BookExplored::Fails(failure) => Ok(OwnTold {
            end: OwnEnd::Fails,
            text: failed(alloc, mark, failure)?,
        }),
        BookExplored::Endless(events) => Ok(missed(alloc, mark, endless(alloc, events)?)?),
        BookExplored::Misses(failure) => Ok(missed(alloc, mark, failure)?),
        BookExplored::Whole(found) => Ok(OwnTold {
            end: OwnEnd::Ended,
            text: found_text(alloc, options, graph, mark, rules, check, found)?,
        }),
    }
}

/// What is printed of a run that doesn't end as it has to.
fn missed(alloc: Global, mark: &OwnMark, failure: Failure) -> Result<OwnTold, AllocError>
    ensures end { IfOk result (λ told. told.end ≡ Misses) }
    ensures text { IfOk result (λ told. (book : List Entry) → mark.now ≡ mark_of_book book → told.text.items ≡ failure.text.items ++ leads_there ++ own_text (mark_of_book book) failure.events.items) }
{
    Ok(OwnTold {
        end: OwnEnd::Misses,
        text: failed(alloc, mark, failure)?,
    })
}

/// What is said of a run that can't be brought to an end.
fn endless(alloc: Global, events: Vec<Event>) -> Result<Failure, AllocError>
    ensures events { IfOk result (λ f. f.events ≡ events) }
    ensures text { IfOk result (λ f. f.text.items ≡ never_ends) }
{
    let text = Vec::from_slice(alloc, b"endless: from here no run ends\n")?;
    Ok(Failure { events, text })
}

/// What is said of answers, or of an end, and the events of a run that leads there.
fn failed(alloc: Global, mark: &OwnMark, failure: Failure) -> Result<Vec<u8>, AllocError>
    ensures { IfOk result (λ text. (book : List Entry) → mark.now ≡ mark_of_book book → text.items ≡ failure.text.items ++ leads_there ++ own_text (mark_of_book book) failure.events.items) }
{
    let mut text = failure.text;
    text.extend_from_slice(b"an order that leads there:\n")?;
    let trace = write_own_trace(alloc, mark, &failure.events)?;
    text.extend_from_slice(&trace)?;
    Ok(text)
}

/// With which counts runs end, or the events of the run that is asked for.
fn found_text(
    alloc: Global,
    options: &ExploreOptions,
    graph: &Graph,
    mark: &OwnMark,
    rules: &Rulebook,
    check: Option<Check>,
    found: BookEnds,
) -> Result<Vec<u8>, ServeFault>
    requires mark { mark.now ≡ mark_of_book rules.now }
    requires told { IsToldBy options.now check graph.now rules.now (Whole found) }
    ensures text { IfOk result (λ text. IsFoundOwn options.now.finding rules.now found text.items) }
    ensures fault { IfErr result (HasNoOwnExploration options.now check graph.now rules.now) }
{
    match options.finding {
        Finding::Ends => Ok(found.text),
        Finding::Run => run_text(alloc, options, graph, mark, rules, check, found),
    }
}

/// The events of the run that is asked for.
fn run_text(
    alloc: Global,
    options: &ExploreOptions,
    graph: &Graph,
    mark: &OwnMark,
    rules: &Rulebook,
    check: Option<Check>,
    found: BookEnds,
) -> Result<Vec<u8>, ServeFault>
    requires asked { options.now.finding ≡ Finding.Run }
    requires mark { mark.now ≡ mark_of_book rules.now }
    requires told { IsToldBy options.now check graph.now rules.now (Whole found) }
    ensures text { IfOk result (λ text. IsFoundOwn options.now.finding rules.now found text.items) }
    ensures fault { IfErr result (HasNoOwnExploration options.now check graph.now rules.now) }
{
    let BookEnds { rows, text: _, run } = found;
    match run {
        Some(events) => Ok(write_own_trace(alloc, mark, &events)?),
        None => Err(ServeFault::NoSuchEnd {
            ends: rows.len() as u64,
        }),
    }
}
