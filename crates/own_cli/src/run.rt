//! Runs by a user's own protocol, whose rules are a book.
ghost use Rattle.ghs_answers.specs.Causes.{IsUnwritten};
ghost use Rattle.own_cli.specs.Run.{HasRunOwn, IsCutOff, IsOutputOf, IsOwnEnd, IsOwnOutput, IsPrintedAs, IsShownOwn, StopsOutput, StopsOwn, own_status};
ghost use Rattle.ghs_answers.specs.Timing.{timed_text};
ghost use Rattle.ghs_choices.specs.declared.schedule_kind.ScheduleKind.TheVariants.{Seeded};
ghost use Rattle.ghs_graph.specs.Graph.{Shape};
ghost use Rattle.own_book.specs.Entry.{Entry};
ghost use Rattle.own_rules.specs.Rules.{rules_of};
ghost use Rattle.own_rules.specs.declared.protocol.TheConstants.{RUNNING};
ghost use Rattle.own_runs.specs.Mark.{mark_of as mark_of_book};
ghost use Rattle.peer_machine.specs.Run.{IsRun};
ghost use Rattle.peer_network.specs.Network.{network_of};
ghost use Rattle.std.specs.Prelude.{◌≡◌, ◌↔◌, false, true, IfErr, IfNone, IfOk, IfSome, List};

use ghs_answers::fault::ServeFault;
use ghs_answers::timing::time_text;
use ghs_choices::check::Check;
use ghs_choices::schedule_kind::ScheduleKind;
use ghs_commands::job::{RunOptions, Show};
use ghs_gr::device::Sink;
use ghs_graph::graph::Graph;
use ghs_report::write_out::write_out;
use own_book::book::Book;
use own_rules::rulebook::Rulebook;
use own_rules::run::{BookRun, run_book};
use own_runs::lengths::time_by_book;
use own_runs::mark::mark_of;
use peer_network::event::Event;
use peer_trace::mark::OwnMark;
use peer_trace::own::write_own_trace;
use std::alloc::{AllocError, Global};

/// How a run by a book ends.
#[derive(Clone, Copy, Debug, Drop, PartialEq, Eq)]
pub enum OwnEnd {
    /// It has ended, and no node has stopped.
    Ended,
    /// The book lacks answers.
    Asks,
    /// A node has stopped by an answer, or the greeting is none.
    Fails,
    /// It has ended otherwise than `--check` asks; of all runs also, that one can't be brought to an end.
    Misses,
}

impl OwnEnd {
    /// The exit status: 0 where the run has ended, 7 where questions are open, 8 where an answer has a fault, 9 where the end is wrong.
    pub fn status(self) -> u8
        ensures { result ≡ own_status self }
    {
        match self {
            OwnEnd::Ended => 0,
            OwnEnd::Asks => 7,
            OwnEnd::Fails => 8,
            OwnEnd::Misses => 9,
        }
    }
}

/// How what was done by a book ends, and what is printed of it.
#[derive(Drop)]
pub(crate) struct OwnTold {
    pub(crate) end: OwnEnd,
    pub(crate) text: Vec<u8>,
}

/// How a run by a book ends, and what goes out of it. It has no end where its turns are used; then that is its events.
#[derive(Drop)]
struct OwnOutput {
    end: Option<OwnEnd>,
    text: Vec<u8>,
}

/// Runs a graph by a book, as the seed, the turns and the wake set of the options say, writes what that comes to, and says how it
/// ends: the questions that the book lacks; where it lacks none, what is said of nodes that have stopped by an answer; where
/// none has and the run has ended, what is wrong with its end by the check; where nothing is, the events of the run or its time if the
/// options ask for them, and else its account. The text is made whole before its first byte goes out. Faults: lack of memory; the turns are used, where the events go out before if they are asked for, and else
/// nothing; and a write that fails.
///
/// ```text
/// let end = run_by_book(alloc, &options, graph, book, None, &mut out)?;
/// // of an empty book OwnEnd::Asks, and standard output has `own 1` and the openings of all nodes
/// ```
pub fn run_by_book<W: Sink>(
    alloc: Global,
    options: &RunOptions,
    graph: Graph,
    book: Book,
    check: Option<Check>,
    out: &mut W,
) -> Result<OwnEnd, ServeFault>
    requires out { W.has_failed out.old ≡ false }
    ensures run { HasRunOwn options.now check graph book (W.held out.old) (W.held out.new) result }
    ensures write { IsUnwritten result ↔ (W.has_failed out.new ≡ true) }
{
    let output = output_by(alloc, options, graph, book, check)?;
    write_out(out, &output.text)?;
    match output.end {
        Some(end) => Ok(end),
        None => Err(ServeFault::TurnLimit),
    }
}

/// What goes out of the run by a book.
fn output_by(
    alloc: Global,
    options: &RunOptions,
    graph: Graph,
    book: Book,
    check: Option<Check>,
) -> Result<OwnOutput, ServeFault>
    ensures output { IfOk result (λ o. IsOwnOutput options.now check graph book o.end o.text.items) }
    ensures fault { IfErr result (StopsOwn options.now check graph book) }
{
    let mark = mark_of(alloc, &book)?;
    let rules = Rulebook::of(alloc, book)?;
    output_under(alloc, options, graph, &mark, &rules, check)
}

/// The same of a book that is ready to run, and has this mark.
fn output_under(
    alloc: Global,
    options: &RunOptions,
    graph: Graph,
    mark: &OwnMark,
    rules: &Rulebook,
    check: Option<Check>,
) -> Result<OwnOutput, ServeFault>
    requires { mark.now ≡ mark_of_book rules.now }
    ensures output { IfOk result (λ o. IsOwnOutput options.now check graph rules.now o.end o.text.items) }
    ensures fault { IfErr result (StopsOwn options.now check graph rules.now) }
{
    // The run takes its graph; the time of the run wants it once more.
    let same = graph.copy(alloc)?;
    let ran = run_book(
        alloc,
        rules,
        graph,
        options.wake,
        options.seed,
        options.turns,
        check,
    )?;
    output_of(alloc, options.show, mark, rules, &same, ran)
}

/// The same of a run.
fn output_of(
    alloc: Global,
    show: Show,
    mark: &OwnMark,
    rules: &Rulebook,
    graph: &Graph,
    ran: BookRun,
) -> Result<OwnOutput, ServeFault>
    requires mark { mark.now ≡ mark_of_book rules.now }
    requires run { IsRun (rules_of rules.now RUNNING) (network_of graph.now) ran.events.items }
    ensures output { IfOk result (λ o. IsOutputOf show rules.now graph.now ran o.end o.text.items) }
    ensures fault { IfErr result (StopsOutput show ran) }
{
    match end_of(&ran) {
        Some(end) => Ok(OwnOutput {
            end: Some(end),
            text: text_at(alloc, show, mark, rules, graph, end, ran)?,
        }),
        None => cut_off(alloc, show, mark, ran),
    }
}

/// How a run by a book ends; none where it goes on, though no node has stopped.
pub(crate) fn end_of(ran: &BookRun) -> Option<OwnEnd>
    ensures some { IfSome result (IsOwnEnd ran.now) }
    ensures none { IfNone result (IsCutOff ran.now) }
{
    if !ran.lacking.is_empty() {
        return Some(OwnEnd::Asks);
    }
    if !ran.faults.is_empty() {
        return Some(OwnEnd::Fails);
    }
    if ran.at_limit {
        return None;
    }
    if !ran.wrong.is_empty() {
        return Some(OwnEnd::Misses);
    }
    Some(OwnEnd::Ended)
}

/// What is printed of a run by a book that ends so.
fn text_at(
    alloc: Global,
    show: Show,
    mark: &OwnMark,
    rules: &Rulebook,
    graph: &Graph,
    end: OwnEnd,
    ran: BookRun,
) -> Result<Vec<u8>, AllocError>
    requires mark { mark.now ≡ mark_of_book rules.now }
    requires run { IsRun (rules_of rules.now RUNNING) (network_of graph.now) ran.events.items }
    requires end { IsOwnEnd ran end }
    ensures { IfOk result (λ text. IsPrintedAs (IsShownOwn show rules.now graph.now ran) ran end text.items) }
{
    match end {
        OwnEnd::Asks => Ok(ran.lacking),
        OwnEnd::Fails => Ok(ran.faults),
        OwnEnd::Misses => Ok(ran.wrong),
        OwnEnd::Ended => shown(alloc, show, mark, rules, graph, ran),
    }
}

/// What is shown of a run by a book.
fn shown(
    alloc: Global,
    show: Show,
    mark: &OwnMark,
    rules: &Rulebook,
    graph: &Graph,
    ran: BookRun,
) -> Result<Vec<u8>, AllocError>
    requires mark { mark.now ≡ mark_of_book rules.now }
    requires run { IsRun (rules_of rules.now RUNNING) (network_of graph.now) ran.events.items }
    ensures { IfOk result (λ text. IsShownOwn show rules.now graph.now ran text.items) }
{
    match show {
        Show::Events => write_own_trace(alloc, mark, &ran.events),
        Show::Time => timed(alloc, rules, graph, &ran.events),
        Show::Summary => Ok(ran.account),
    }
}

/// The time of a run by a book.
fn timed(
    alloc: Global,
    rules: &Rulebook,
    graph: &Graph,
    events: &[Event],
) -> Result<Vec<u8>, AllocError>
    requires { IsRun (rules_of rules.now RUNNING) (network_of graph.now) events.now }
    ensures { IfOk result (λ text. text.items ≡ timed_text (rules_of rules.now RUNNING) Seeded graph.now events.now) }
{
    let lengths = time_by_book(alloc, rules, graph, events)?;
    time_text(alloc, ScheduleKind::Seeded, lengths)
}

/// What goes out of a run whose turns are used: its events, where they are asked for.
fn cut_off(alloc: Global, show: Show, mark: &OwnMark, ran: BookRun) -> Result<OwnOutput, ServeFault>
    requires { IsCutOff ran }
    ensures output { IfOk result (λ o. (g : Shape) (book : List Entry) → mark.now ≡ mark_of_book book → IsOutputOf show book g ran o.end o.text.items) }
    ensures fault { IfErr result (StopsOutput show ran) }
{
    match show {
        Show::Summary | Show::Time => Err(ServeFault::TurnLimit),
        Show::Events => Ok(OwnOutput {
            end: None,
            text: write_own_trace(alloc, mark, &ran.events)?,
        }),
    }
}
