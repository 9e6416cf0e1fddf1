//! Stored runs by a user's own protocol: read, played again, and their steps.
ghost use Rattle.ghs_answers.specs.Stepping.{AreSteps};
ghost use Rattle.own_cli.specs.Run.{IsOwnEnd, IsPrintedAs};
ghost use Rattle.ghs_answers.specs.Causes.{IsUnwritten};
ghost use Rattle.own_cli.specs.Again.{HasReplayedOwn, IsAgainText, IsMarkedText, IsMisfitCause, IsOwnCause, IsOwnTrace, IsReadCause, IsUnreadOwn, StopsAgain, cause_status};
ghost use Rattle.ghs_answers.specs.Causes.{IsStoredCause, IsWrite};
ghost use Rattle.ghs_answers.specs.Stepping.{HasTold};
ghost use Rattle.ghs_answers.specs.declared.fault.ServeFault.{ServeFault};
ghost use Rattle.own_book.specs.Entry.{Entry};
ghost use Rattle.own_rules.specs.Rules.{rules_of};
ghost use Rattle.own_rules.specs.Words.{words_of};
ghost use Rattle.own_rules.specs.declared.protocol.TheConstants.{RUNNING};
ghost use Rattle.own_runs.specs.Mark.{Misfits};
ghost use Rattle.peer_runs.specs.Replays.{IsFirstUnlawful};
ghost use Rattle.peer_trace.specs.Reading.{HasOwnFault};
ghost use Rattle.std.specs.Prelude.{◌≡◌, ◌↔◌, false, true, IfErr, IfOk, IfSome, IsErrOf, List};

use crate::run::{OwnEnd, OwnTold, end_of};
use ghs_answers::fault::ServeFault;
use ghs_choices::check::Check;
use ghs_commands::job::StepsOptions;
use ghs_gr::device::{Sink, Source};
use ghs_gr::text::read_text;
use ghs_graph::graph::Graph;
use ghs_report::write_out::write_out;
use own_book::book::Book;
use own_rules::rulebook::Rulebook;
use own_rules::run::BookRun;
use own_runs::again::replay_book;
use own_runs::mark::{Misfit, fits};
use own_runs::steps::write_steps_book;
use peer_network::event::Event;
use peer_network::wake_set::WakeSet;
use peer_trace::mark::OwnMark;
use peer_trace::own::read_own_trace;
use std::alloc::{AllocError, Global};
use thiserror::Error;

/// Why there is no stored run by a book.
#[derive(Debug, Drop, Error)]
pub enum OwnCause {
    /// It is one by another book; which protocol that greets as.
    #[error("the trace is of another book: {0}")]
    Another(String),
    /// It is one by a book with so many entries.
    #[error("the trace is of a book with {0} entries, and this one has fewer")]
    Shorter(u64),
    /// It isn't read, isn't the text of such a run, or memory ran out.
    #[error("{0}")]
    Reading(ServeFault),
}

impl OwnCause {
    /// The program's exit status: 1 for a book that doesn't fit.
    pub fn status(&self) -> u8
        ensures { result ≡ cause_status self.now }
    {
        match self {
            OwnCause::Another(_) => 1,
            OwnCause::Shorter(_) => 1,
            OwnCause::Reading(fault) => fault.status(),
        }
    }
}

/// The events of a run by this book, whose text the device gives; answers may have been added to the book since. Faults: those of
/// the text, a read that fails, and lack of memory; then a book that has fewer entries, and another book.
///
/// ```text
/// let events = stored_by_book(alloc, &book, &mut Device::of(file))?;
/// // of a run that `ghs run --protocol own --print trace` stored by another book, Err(OwnCause::Another(name))
/// ```
pub fn stored_by_book<T: Source>(
    alloc: Global,
    book: &Book,
    trace: &mut T,
) -> Result<Vec<Event>, OwnCause>
    requires { T.has_failed trace.old ≡ false }
    ensures events { IfOk result (λ events. IfSome (T.left trace.old) (λ stored. IsOwnTrace book.now stored events.items)) }
    ensures fault { IfErr result (λ cause. IfSome (T.left trace.old) (λ stored. IsOwnCause book.now stored cause)) }
    ensures read { IsUnreadOwn result ↔ (T.has_failed trace.new ≡ true) }
{
    let (mark, events) = match marked_events(alloc, trace) {
        Ok(marked) => marked,
        Err(fault) => return Err(OwnCause::Reading(fault)),
    };
    match fits(book, &mark) {
        Ok(()) => Ok(events),
        Err(misfit) => Err(cause_of(alloc, misfit, &mark)),
    }
}

/// The mark and the events of a run by a book, whose text the device gives.
fn marked_events<T: Source>(
    alloc: Global,
    trace: &mut T,
) -> Result<(OwnMark, Vec<Event>), ServeFault>
    requires { T.has_failed trace.old ≡ false }
    ensures events { IfOk result (λ r. IfSome (T.left trace.old) (λ stored. IsMarkedText stored r.0 r.1.items)) }
    ensures fault { IfErr result (λ fault. IfSome (T.left trace.old) (λ stored. IsStoredCause (HasOwnFault stored) stored fault)) }
    ensures read { IsErrOf result ServeFault.Read ↔ (T.has_failed trace.new ≡ true) }
{
    let text = read_text(alloc, trace)?;
    Ok(read_own_trace(alloc, &text)?)
}

/// Why a book doesn't fit a run, with what its mark says of the run's book.
fn cause_of(alloc: Global, misfit: Misfit, mark: &OwnMark) -> OwnCause
    ensures cause { (book : List Entry) → Misfits book mark.now misfit → IsMisfitCause book mark.now result }
    ensures read { IsReadCause result → ⊥ }
{
    match misfit {
        Misfit::Shorter => OwnCause::Shorter(mark.entries()),
        Misfit::Another => match shown(alloc, mark.name()) {
            Ok(name) => OwnCause::Another(name),
            Err(_) => OwnCause::Reading(ServeFault::Memory),
        },
    }
}

/// A name as it is shown: `?` stands for each byte that isn't printed.
fn shown(alloc: Global, name: &[u8]) -> Result<String, AllocError> {
    let mut text = String::new(alloc);
    for byte in name {
        let letter = if byte.is_ascii_graphic() {
            char::from(*byte)
        } else {
            '?'
        };
        text.push(letter)?;
    }
    Ok(text)
}

/// Plays the stored run of a graph by a book again, writes what that comes to, and says how it ends: the questions that the book
/// lacks; where it lacks none, what is said of nodes that have stopped by an answer; where none has, what is wrong with the end by the
/// check, or the account of the run. The text is made whole before its first byte goes out. Faults: the first event that isn't lawful; lack of memory; a run that
/// hasn't ended; and then a write that fails.
///
/// ```text
/// let end = replay_by_book(alloc, WakeSet::All, graph, &rules, &events, None, &mut out)?;
/// // OwnEnd::Ended, and standard output has what `ghs run` has printed of that run
/// ```
pub fn replay_by_book<W: Sink>(
    alloc: Global,
    wake: WakeSet,
    graph: Graph,
    rules: &Rulebook,
    events: &[Event],
    check: Option<Check>,
    out: &mut W,
) -> Result<OwnEnd, ServeFault>
    requires { W.has_failed out.old ≡ false }
    ensures replay { HasReplayedOwn wake check graph rules.now events.now (W.held out.old) (W.held out.new) result }
    ensures write { IsUnwritten result ↔ (W.has_failed out.new ≡ true) }
{
    let told = told_again(alloc, wake, graph, rules, events, check)?;
    write_out(out, &told.text)?;
    Ok(told.end)
}

/// The same of these events.
fn told_again(
    alloc: Global,
    wake: WakeSet,
    graph: Graph,
    rules: &Rulebook,
    events: &[Event],
    check: Option<Check>,
) -> Result<OwnTold, ServeFault>
    ensures text { IfOk result (λ told. IsAgainText wake check graph rules.now events.now told.end told.text.items) }
    ensures fault { IfErr result (StopsAgain wake check graph rules.now events.now) }
{
    let ran = replay_book(alloc, rules, graph, wake, events, check)?;
    match end_of(&ran) {
        Some(end) => Ok(OwnTold {
            end,
            text: account_at(end, ran),
        }),
        None => Err(ServeFault::NotEnded),
    }
}

/// What is printed of a run by a book that is played again, and ends so.
fn account_at(end: OwnEnd, ran: BookRun) -> Vec<u8>
    requires { IsOwnEnd ran end }
    ensures { IsPrintedAs (λ text. text ≡ ran.account.items) ran end result.items }
{
    match end {
        OwnEnd::Asks => ran.lacking,
        OwnEnd::Fails => ran.faults,
        OwnEnd::Misses => ran.wrong,
        OwnEnd::Ended => ran.account,
    }
}

/// Writes the lines of the chosen steps of a stored run of a graph by a book, which needn't have ended. Whether each event is lawful
/// is judged before the first byte goes out. Faults: the first event that isn't lawful; lack of memory, and a write that fails,
/// which may come behind a front of the lines.
///
/// ```text
/// steps_by_book(alloc, &options, graph, &rules, &events, &mut out)?;
/// // of node 1 that wakes and sends a ping at its port 0 to node 2, the line begins with `1 1 - - wake`
/// ```
pub fn steps_by_book<W: Sink>(
    alloc: Global,
    options: &StepsOptions,
    graph: Graph,
    rules: &Rulebook,
    events: &[Event],
    out: &mut W,
) -> Result<(), ServeFault>
    requires { W.has_failed out.old ≡ false }
    ensures told { HasTold (AreSteps (rules_of rules.now RUNNING) (words_of rules.now) options.now graph events.now) (IsFirstUnlawful (rules_of rules.now RUNNING) graph options.now.wake events.now) (W.held out.old) (W.held out.new) result }
    ensures write { IsWrite result ↔ (W.has_failed out.new ≡ true) }
{
    write_steps_book(
        alloc,
        rules,
        graph,
        options.wake,
        events,
        &options.choice,
        options.form,
        out,
    )?;
    Ok(())
}
