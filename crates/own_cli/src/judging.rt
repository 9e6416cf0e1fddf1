//! Stored runs, and all runs of small networks, judged by books.
ghost use Rattle.own_cli.specs.Judging.{HasJudged, HasJudgedAll, IsBookCause, IsToldOf, agreed_text, IsBookText, IsUnread, book_status, of_book, of_text};
ghost use Rattle.ghs_answers.specs.Causes.{IsUnwritten};
ghost use Rattle.peer_texts.specs.declared.trace.TheConstants.{EVENT_LIMIT};
ghost use Rattle.own_cli.specs.Judging.{IsRunTold, shortest, unjudged};
ghost use Rattle.ghs_protocol.specs.Run.{IsRun};
ghost use Rattle.own_judge.specs.Report.{IsJudgement};
ghost use Rattle.own_judge.specs.Verdict.{line};
ghost use Rattle.own_judge.specs.declared.end.End.{End};
ghost use Rattle.peer_network.specs.Network.{network_of};
ghost use Rattle.peer_texts.specs.Text.{trace_text};
ghost use Rattle.std.specs.List.{flat_map};
ghost use Rattle.std.specs.Prelude.{◌≡◌, ◌≤◌, ◌↔◌, ◌++◌, List, ℕ, false, length, true, IfErr, IfOk, IfSome};

use ghs_answers::fault::ServeFault;
use ghs_explore::fault::ExploreFault;
use ghs_gr::device::{Sink, Source};
use ghs_gr::text::{TextFault, read_text};
use ghs_graph::graph::Graph;
use ghs_lines::numbers::put_number;
use ghs_report::write_out::write_out;
use own_book::book::{Book, read_book};
use own_book::fault::BookFault;
use own_judge::end::End;
use own_judge::judge::{Judgement, judge, judge_stored};
use own_judge::orders::judge_orders;
use own_judge::outcome::Outcome;
use own_judge::rows::{Rows, put_rows};
use own_judge::text::Question;
use peer_network::event::Event;
use peer_network::wake_set::WakeSet;
use peer_texts::trace::{EVENT_LIMIT, write_trace};
use std::alloc::{AllocError, Global};
use thiserror::Error;

/// Why there is no book to judge by.
#[derive(Clone, Copy, Debug, Drop, PartialEq, Eq, Error)]
pub enum BookCause {
    #[error("book: {0}")]
    Text(BookFault),
    /// It isn't read, or memory ran out.
    #[error("{0}")]
    Reading(ServeFault),
}

impl BookCause {
    /// The program's exit status: 1 for a text that is no book.
    pub fn status(&self) -> u8
        ensures { result ≡ book_status self.now }
    {
        match self {
            BookCause::Text(_) => 1,
            BookCause::Reading(fault) => fault.status(),
        }
    }
}

impl From<BookFault> for BookCause {
    ghost from_gives = { λ x e. e ≡ of_book x };

    fn from(fault: BookFault) -> BookCause {
        match fault {
            BookFault::Memory => BookCause::Reading(ServeFault::Memory),
            _ => BookCause::Text(fault),
        }
    }
}

impl From<TextFault> for BookCause {
    ghost from_gives = { λ x e. e ≡ of_text x };

    fn from(fault: TextFault) -> BookCause {
        match fault {
            TextFault::Read => BookCause::Reading(ServeFault::Read),
            TextFault::TooLong => BookCause::Reading(ServeFault::TooLong),
            TextFault::Memory => BookCause::Reading(ServeFault::Memory),
        }
    }
}

/// The book whose text the device gives. Faults: those of the text, a read that fails, and lack of memory.
pub fn read_book_of<S: Source>(alloc: Global, source: &mut S) -> Result<Book, BookCause>
    requires { S.has_failed source.old ≡ false }
    ensures book { IfOk result (λ book. IfSome (S.left source.old) (λ said. IsBookText said book)) }
    ensures fault { IfErr result (λ fault. IfSome (S.left source.old) (λ said. IsBookCause said fault)) }
    ensures read { IsUnread result ↔ (S.has_failed source.new ≡ true) }
{
    let text = read_text(alloc, source)?;
    Ok(read_book(alloc, &text)?)
}

/// Judges a stored run by a book, writes the text of the verdict, and says how that ends. The text is made whole before its
/// first byte goes out. Faults: the first event that isn't lawful, lack of memory, and then a write that fails.
///
/// ```text
/// let book = read_book_of(alloc, &mut Device::of(file))?;
/// let end = judge_run(alloc, WakeSet::All, graph, &events, &book, &mut out)?;
/// // End::Agrees, and standard output has `the node agrees with the protocol at all 57 events`
/// ```
pub fn judge_run<W: Sink>(
    alloc: Global,
    wake: WakeSet,
    graph: Graph,
    events: &[Event],
    book: &Book,
    out: &mut W,
) -> Result<End, ServeFault>
    requires few { length events.now ≤ EVENT_LIMIT }
    requires out { W.has_failed out.old ≡ false }
    ensures judged { HasJudged wake graph events.now book.now (W.held out.old) (W.held out.new) result }
    ensures write { IsUnwritten result ↔ (W.has_failed out.new ≡ true) }
{
    let judgement = judge_stored(alloc, graph, wake, events, book)?;
    write_out(out, &judgement.text)?;
    Ok(judgement.end)
}

/// Judges all runs of a small network by a book, writes what that comes to, and says how it ends. The text is made whole before
/// its first byte goes out. Faults: a graph that is too large; more states than the limit, more than their parts' numbers, lack
/// of memory; and then a write that fails.
///
/// ```text
/// let end = judge_all(alloc, WakeSet::All, graph, &book, 1_000_000, &mut out)?;
/// // of a right node End::Agrees, and standard output has `the node agrees with the protocol in every run: 50 states`,
/// // and the rows that were met
/// ```
pub fn judge_all<W: Sink>(
    alloc: Global,
    wake: WakeSet,
    graph: Graph,
    book: &Book,
    limit: u32,
    out: &mut W,
) -> Result<End, ServeFault>
    requires some { 1 ≤ limit }
    requires out { W.has_failed out.old ≡ false }
    ensures judged { HasJudgedAll wake graph book.now limit (W.held out.old) (W.held out.new) result }
    ensures write { IsUnwritten result ↔ (W.has_failed out.new ≡ true) }
{
    let outcome = match judge_orders(alloc, &graph, wake, book, limit) {
        Ok(outcome) => outcome,
        Err(fault) => return Err(unjudged(fault, limit)),
    };
    let told = told_of(alloc, graph, book, &outcome)?;
    write_out(out, &told.text)?;
    Ok(told.end)
}

/// Why all runs of a graph aren't judged.
fn unjudged(fault: ExploreFault, limit: u32) -> ServeFault
    ensures { result ≡ unjudged fault limit }
{
    match fault {
        ExploreFault::TooLarge => ServeFault::TooLargeToExplore,
        ExploreFault::TooMany => ServeFault::StateLimit { limit },
        ExploreFault::PartLimit => ServeFault::PartLimit,
        ExploreFault::Memory => ServeFault::Memory,
    }
}

/// What is printed of what a book comes to in all runs of a graph. Refusal: out of memory.
fn told_of(
    alloc: Global,
    graph: Graph,
    book: &Book,
    outcome: &Outcome,
) -> Result<Judgement, AllocError>
    requires run { IsRunTold graph outcome.now }
    ensures { IfOk result (λ j. IsToldOf graph book.now outcome.now j.end j.text.items) }
{
    match outcome {
        Outcome::Agrees(states, rows) => agreed(alloc, *states, rows),
        Outcome::Asks(questions) => asked(alloc, questions),
        Outcome::Tells(events) => told(alloc, graph, book, events),
    }
}

/// The lines of a book that agrees.
fn agreed(alloc: Global, states: usize, rows: &Rows) -> Result<Judgement, AllocError>
    ensures end { IfOk result (λ j. j.end ≡ End.Agrees) }
    ensures text { IfOk result (λ j. j.text.items ≡ agreed_text states rows.now) }
{
    let mut text = Vec::new(alloc);
    text.extend_from_slice(b"the node agrees with the protocol in every run: ")?;
    put_number(&mut text, states as u128)?;
    text.extend_from_slice(b" states\n")?;
    put_rows(&mut text, rows)?;
    Ok(Judgement {
        end: End::Agrees,
        text,
    })
}

/// The lines of questions that are open.
fn asked(alloc: Global, questions: &[Question]) -> Result<Judgement, AllocError>
    ensures end { IfOk result (λ j. j.end ≡ End.Asks) }
    ensures text { IfOk result (λ j. j.text.items ≡ flat_map line questions.now) }
{
    let mut text = Vec::new(alloc);
    for question in questions {
        put_question(&mut text, question)?;
    }
    Ok(Judgement {
        end: End::Asks,
        text,
    })
}

/// The line of a question.
fn put_question(text: &mut Vec<u8>, question: &Question) -> Result<(), AllocError>
    ensures { IfOk result (λ _. text.new.items ≡ text.old.items ++ line question.now) }
{
    text.extend_from_slice(question.bytes())?;
    text.extend_from_slice(b"\n")
}

/// The verdict of a run, and its events.
fn told(alloc: Global, graph: Graph, book: &Book, events: &[Event]) -> Result<Judgement, AllocError>
    requires { IsRun (network_of graph) events.now }
    ensures { IfOk result (λ j. (judged : List ℕ) × IsJudgement book.now graph events.now j.end judged × (j.text.items ≡ judged ++ shortest ++ trace_text events.now)) }
{
    // A search meets far fewer states than that.
    if events.len() as u64 > EVENT_LIMIT {
        return Err(AllocError);
    }
    let mut judgement = judge(alloc, graph, events, book)?;
    let trace = write_trace(alloc, events)?;
    judgement
        .text
        .extend_from_slice(b"the shortest order that leads there:\n")?;
    judgement.text.extend_from_slice(&trace)?;
    Ok(judgement)
}
