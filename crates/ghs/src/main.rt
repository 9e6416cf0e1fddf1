//! The program `ghs`: it opens files and prints faults, and leaves the work to `ghs_cli`.
//!
//! Proved: the exit status is that of what the words ask for and of how it went (`run`, by `IsStatusOf`); of the words
//! only the first is left out (`behind_first`); on what was opened the work is that of `serve` (`do_job_on_graph`:
//! `serves`).
//!
//! Only tested, by the cases of `cases/`: which file is opened for what. No contract says what words the system gives,
//! what a file holds and where standard output goes. docs/FORMATS.md has the commands, their output and the statuses.
#![tactic(auto)]

ghost use Rattle.ghs.specs.Status.{IsStatusOf, IsStatusOfJob, status_unread};
ghost use Rattle.ghs_answers.specs.Fault.{status_of};
ghost use Rattle.own_cli.specs.Judging.{book_status};
ghost use Rattle.own_cli.specs.Again.{cause_status};
ghost use Rattle.peer_texts.specs.declared.trace.TheConstants.{EVENT_LIMIT};
ghost use Rattle.ghs_cli.specs.Serving.{IfStored, IsBoundedTask, IsUnread, Serves};
ghost use Rattle.ghs_answers.specs.Causes.{is_write};
ghost use Rattle.ghs_answers.specs.declared.fault.ServeFault.{ServeFault};
ghost use Rattle.ghs_commands.specs.Job.{AreExploreLimits, AreSweepLimits, IsWithinLimits, kinds_of};
ghost use Rattle.std.specs.IoError.{error_kind};
ghost use Rattle.std.specs.Vec.Iter.{into_iter_items, into_iter_len};
ghost use Rattle.std.specs.Prelude.{◌≡◌, ◌≤◌, ◌⊎◌, ◌↔◌, IfErr, IfOk, IfSome, IsErrOf, MatchResult, None, drop, false, length, map, string_bytes, true};

use ghs_answers::fault::ServeFault;
use ghs_cli::networks::{Network, read_network, sweep_networks};
use ghs_cli::reading::{events_of, graph_of};
use ghs_cli::serve::serve;
use ghs_commands::exploring::ExploreOptions;
use ghs_commands::job::{
    Job, JobFault, RunOptions, StepsOptions, StoredViewOptions, SweepOptions, Task, ViewOptions,
    read_job,
};
use ghs_commands::values::is_dash;
use ghs_gr::device::{Device, Source};
use ghs_graph::graph::Graph;
use ghs_report::write_out::write_out;
use own_book::book::Book;
use own_cli::again::{OwnCause, replay_by_book, steps_by_book, stored_by_book};
use own_cli::explore::explore_by_book;
use own_cli::judging::{BookCause, judge_all, judge_run, read_book_of};
use own_cli::run::{OwnEnd, run_by_book};
use own_cli::sweep::sweep_by_book;
use own_cli::view::{stored_view_by_book, view_by_book};
use own_judge::end::End;
use own_rules::rulebook::Rulebook;
use peer_network::event::Event;
use peer_network::wake_set::WakeSet;
use peer_trace::protocol::Protocol;
use std::alloc::{AllocError, Global};
use std::env::Args;
use std::fs::File;
use std::io::Read;
use std::process::ExitCode;
use std::rt::Runtime;
use std::sync::Wait;
use std::thread::Threads;
use std::{env, io};

/// The exit status of a command line that is refused.
const REFUSED: u8 = 2;

/// Why words that can't be read are refused, as `clap` says it.
const NOT_UTF8: &str =
    "error: invalid UTF-8 was detected in one or more arguments\n\nFor more information, try '--help'.\n";

fn main(rt: HostRuntime) -> ExitCode {
    let alloc = rt.alloc();
    ExitCode::from(run(&rt, alloc, words_of(&rt, alloc)))
}

/// Does what the words after the program's name say, or says that they couldn't be read, and gives the exit status.
fn run<R: Runtime + AllocGlobal + Threads + Wait + Sync>(
    rt: &R,
    alloc: Global,
    words: io::Result<Vec<String>>,
) -> u8
    ensures { MatchResult words (λ read. IsStatusOf (kinds_of (map string_bytes read.items)) result) (λ error. result ≡ status_unread (error_kind error)) }
{
    match words {
        Ok(read) => answer(rt, alloc, &read),
        Err(error) => unread(rt, &error),
    }
}

/// The words after the program's name. What the system gives as words no contract says.
fn words_of<R: Runtime + AllocGlobal>(rt: &R, alloc: Global) -> io::Result<Vec<String>> {
    Ok(behind_first(alloc, env::args(rt)?)?)
}

/// All words but the first, empty ones among them, of an iterator that tells how many it has.
fn behind_first(alloc: Global, mut words: Args) -> Result<Vec<String>, AllocError>
    ensures { into_iter_len words ≡ length (into_iter_items words) → IfOk result (λ rest. rest.items ≡ drop 1 (into_iter_items words)) }
{
    let _ = words.next();
    words.collect(alloc)
}

/// Says why the command line couldn't be read, and gives the exit status.
fn unread<R: Runtime>(rt: &R, error: &io::Error) -> u8
    ensures { result ≡ status_unread (error_kind error.now) }
{
    match error.kind() {
        io::ErrorKind::OutOfMemory => tell(rt, &ServeFault::Memory),
        _ => refuse(rt, NOT_UTF8),
    }
}

/// Does what the words after the program's name say, and gives the exit status.
fn answer<R: Runtime + AllocGlobal + Threads + Wait + Sync>(
    rt: &R,
    alloc: Global,
    words: &[String],
) -> u8
    ensures { IsStatusOf (kinds_of (map string_bytes words.now)) result }
{
    match read_job(alloc, words) {
        Ok(job) => fulfil(rt, alloc, &job),
        Err(JobFault::Help(text)) => finish(rt, help(rt, &text)),
        Err(JobFault::Refused(text)) => refuse(rt, &text),
        Err(JobFault::Memory) => tell(rt, &ServeFault::Memory),
    }
}

/// Does the job, and gives the exit status. A sweep whose lines begin with names is one of networks; what is by a user's own
/// protocol goes by its book, and another replay and an exploration that have a book are judged by it.
fn fulfil<R: Runtime + AllocGlobal + Threads + Wait + Sync>(rt: &R, alloc: Global, job: &Job) -> u8
    requires { IsWithinLimits job.now.task }
    ensures { IsStatusOfJob result }
{
    match &job.task {
        Task::Sweep {
            protocols: _,
            options,
        } if job.own => sweep_own(rt, alloc, options, job),
        Task::View {
            protocol: _,
            options,
        } if job.own => view_own(rt, alloc, options, job),
        Task::StoredView {
            protocol: _,
            options,
        } if job.own => stored_view_own(rt, alloc, options, job),
        Task::Explore {
            protocol: _,
            options,
        } if job.own => explore_own(rt, alloc, options, job),
        Task::Sweep { protocols, options } if !job.networks.is_empty() => {
            sweep(rt, alloc, protocols, options, &job.networks)
        }
        Task::Run {
            protocol: _,
            options,
        } if job.own => run_own(rt, alloc, options, job),
        Task::Replay { protocol: _, wake } if job.own => replay_own(rt, alloc, *wake, job),
        Task::Steps {
            protocol: _,
            options,
        } if job.own => steps_own(rt, alloc, options, job),
        Task::Replay { protocol: _, wake } if job.book.is_some() => judge(rt, alloc, *wake, job),
        Task::Explore {
            protocol: _,
            options,
        } if job.book.is_some() => judge_runs(rt, alloc, options, job),
        _ => finish(rt, do_job(rt, alloc, job)),
    }
}

/// Reads the networks, sweeps them, and gives the exit status. The first that is refused is named, and nothing is run.
fn sweep<R: Runtime + AllocGlobal + Threads + Sync>(
    rt: &R,
    alloc: Global,
    protocols: &[Protocol],
    options: &SweepOptions,
    names: &[String],
) -> u8
    requires { AreSweepLimits options.now }
    ensures { IsStatusOfJob result }
{
    let mut networks = Vec::new(alloc);
    for name in names {
        match network_of(rt, alloc, name.as_str(), options.wake) {
            Ok(network) => match networks.push(network) {
                Ok(()) => {}
                Err(_) => return tell(rt, &ServeFault::Memory),
            },
            Err(fault) => return tell_of(rt, alloc, name.as_str(), &fault),
        }
    }
    let mut out = Device::of(io::writer(rt));
    finish(
        rt,
        sweep_networks(rt, alloc, protocols, options, &networks, &mut out),
    )
}

/// Opens a network's file and reads it; `-` is standard input. A file that can't be opened can't be read.
fn network_of<R: Runtime + AllocGlobal>(
    rt: &R,
    alloc: Global,
    name: &str,
    wake: WakeSet,
) -> Result<Network, ServeFault>
    ensures { IfOk result (λ network. string_bytes network.name ≡ name.now) }
{
    if is_dash(name) {
        return read_network(alloc, name, wake, &mut Device::of(rt.reader()));
    }
    match File::open(rt, name) {
        Ok(file) => read_network(alloc, name, wake, &mut Device::of(file)),
        Err(_) => Err(ServeFault::Read),
    }
}

/// Reads the book and the graph, runs this by that, and gives the exit status.
fn run_own<R: Runtime + AllocGlobal>(rt: &R, alloc: Global, options: &RunOptions, job: &Job) -> u8
    ensures { IsStatusOfJob result }
{
    match book_of(rt, alloc, job.book.as_ref()) {
        Ok(book) => finish_own(rt, ran_own(rt, alloc, options, job, book)),
        Err(cause) => tell_cause(rt, &cause),
    }
}

/// Reads the graph, and runs it by the book.
fn ran_own<R: Runtime + AllocGlobal>(
    rt: &R,
    alloc: Global,
    options: &RunOptions,
    job: &Job,
    book: Book,
) -> Result<OwnEnd, ServeFault> {
    let graph = built_of(rt, alloc, options.wake, job.graph.as_ref())?;
    let mut out = Device::of(io::writer(rt));
    run_by_book(alloc, options, graph, book, job.check, &mut out)
}

/// Reads the book, the trace and the graph, plays the run again by the book, and gives the exit status.
fn replay_own<R: Runtime + AllocGlobal>(rt: &R, alloc: Global, wake: WakeSet, job: &Job) -> u8
    ensures { IsStatusOfJob result }
{
    match own_run_of(rt, alloc, job) {
        Ok((rules, events)) => {
            finish_own(rt, replayed_own(rt, alloc, wake, job, &rules, &events))
        }
        Err(status) => status,
    }
}

/// Reads the graph, and plays these events of it again by the book.
fn replayed_own<R: Runtime + AllocGlobal>(
    rt: &R,
    alloc: Global,
    wake: WakeSet,
    job: &Job,
    rules: &Rulebook,
    events: &[Event],
) -> Result<OwnEnd, ServeFault> {
    let graph = built_of(rt, alloc, wake, job.graph.as_ref())?;
    let mut out = Device::of(io::writer(rt));
    replay_by_book(alloc, wake, graph, rules, events, job.check, &mut out)
}

/// Reads the book, the trace and the graph, writes the steps of the run by the book, and gives the exit status.
fn steps_own<R: Runtime + AllocGlobal>(
    rt: &R,
    alloc: Global,
    options: &StepsOptions,
    job: &Job,
) -> u8
    ensures { IsStatusOfJob result }
{
    match own_run_of(rt, alloc, job) {
        Ok((rules, events)) => finish(rt, told_own(rt, alloc, options, job, &rules, &events)),
        Err(status) => status,
    }
}

/// Reads the graph, and writes the steps of these events of it by the book.
fn told_own<R: Runtime + AllocGlobal>(
    rt: &R,
    alloc: Global,
    options: &StepsOptions,
    job: &Job,
    rules: &Rulebook,
    events: &[Event],
) -> Result<(), ServeFault> {
    let graph = built_of(rt, alloc, options.wake, job.graph.as_ref())?;
    let mut out = Device::of(io::writer(rt));
    steps_by_book(alloc, options, graph, rules, events, &mut out)
}

/// Reads the book and the graph, writes the figures of the runs that seeds pick by the book, and gives the exit status.
fn sweep_own<R: Runtime + AllocGlobal>(
    rt: &R,
    alloc: Global,
    options: &SweepOptions,
    job: &Job,
) -> u8
    requires { AreSweepLimits options.now }
    ensures { IsStatusOfJob result }
{
    match own_rules_of(rt, alloc, job) {
        Ok(rules) => finish_own(rt, swept_own(rt, alloc, options, job, &rules)),
        Err(status) => status,
    }
}

/// Reads the graph, and writes the figures of its runs by the book.
fn swept_own<R: Runtime + AllocGlobal>(
    rt: &R,
    alloc: Global,
    options: &SweepOptions,
    job: &Job,
    rules: &Rulebook,
) -> Result<OwnEnd, ServeFault>
    requires { AreSweepLimits options.now }
{
    let graph = built_of(rt, alloc, options.wake, job.graph.as_ref())?;
    let mut out = Device::of(io::writer(rt));
    sweep_by_book(alloc, options, &graph, rules, job.check, &mut out)
}

/// Reads the book and the graph, writes the page of the run that a seed picks by the book, or of those of two, and gives the
/// exit status.
fn view_own<R: Runtime + AllocGlobal>(rt: &R, alloc: Global, options: &ViewOptions, job: &Job) -> u8
    ensures { IsStatusOfJob result }
{
    match own_rules_of(rt, alloc, job) {
        Ok(rules) => finish_own(rt, viewed_own(rt, alloc, options, job, &rules)),
        Err(status) => status,
    }
}

/// Reads the graph, and writes the page of its runs by the book.
fn viewed_own<R: Runtime + AllocGlobal>(
    rt: &R,
    alloc: Global,
    options: &ViewOptions,
    job: &Job,
    rules: &Rulebook,
) -> Result<OwnEnd, ServeFault> {
    let graph = built_of(rt, alloc, options.wake, job.graph.as_ref())?;
    let mut out = Device::of(io::writer(rt));
    view_by_book(alloc, options, graph, rules, &mut out)
}

/// Reads the book, the trace and the graph, writes the page of the run by the book, and gives the exit status.
fn stored_view_own<R: Runtime + AllocGlobal>(
    rt: &R,
    alloc: Global,
    options: &StoredViewOptions,
    job: &Job,
) -> u8
    ensures { IsStatusOfJob result }
{
    match own_run_of(rt, alloc, job) {
        Ok((rules, events)) => finish(
            rt,
            stored_view_of_own(rt, alloc, options, job, &rules, &events),
        ),
        Err(status) => status,
    }
}

/// Reads the graph, and writes the page of these events of it by the book.
fn stored_view_of_own<R: Runtime + AllocGlobal>(
    rt: &R,
    alloc: Global,
    options: &StoredViewOptions,
    job: &Job,
    rules: &Rulebook,
    events: &[Event],
) -> Result<(), ServeFault> {
    let graph = built_of(rt, alloc, options.wake, job.graph.as_ref())?;
    let mut out = Device::of(io::writer(rt));
    stored_view_by_book(alloc, options, graph, rules, events, &mut out)
}

/// Reads the book and the graph, explores all runs of this by that, and gives the exit status.
fn explore_own<R: Runtime + AllocGlobal>(
    rt: &R,
    alloc: Global,
    options: &ExploreOptions,
    job: &Job,
) -> u8
    requires { AreExploreLimits options.now }
    ensures { IsStatusOfJob result }
{
    match book_of(rt, alloc, job.book.as_ref()) {
        Ok(book) => finish_own(rt, explored_own(rt, alloc, options, job, book)),
        Err(cause) => tell_cause(rt, &cause),
    }
}

/// Reads the graph, and explores all its runs by the book.
fn explored_own<R: Runtime + AllocGlobal>(
    rt: &R,
    alloc: Global,
    options: &ExploreOptions,
    job: &Job,
    book: Book,
) -> Result<OwnEnd, ServeFault>
    requires { AreExploreLimits options.now }
{
    let graph = built_of(rt, alloc, options.wake, job.graph.as_ref())?;
    let mut out = Device::of(io::writer(rt));
    explore_by_book(alloc, options, &graph, book, job.check, &mut out)
}

/// The book, ready to run. Where there is none, says why, and gives the exit status.
fn own_rules_of<R: Runtime + AllocGlobal>(rt: &R, alloc: Global, job: &Job) -> Result<Rulebook, u8>
    ensures { IfErr result IsStatusOfJob }
{
    match book_of(rt, alloc, job.book.as_ref()) {
        Ok(book) => match Rulebook::of(alloc, book) {
            Ok(rules) => Ok(rules),
            Err(_) => Err(tell(rt, &ServeFault::Memory)),
        },
        Err(cause) => Err(tell_cause(rt, &cause)),
    }
}

/// The book, ready to run, and the events of the stored run by it. Where there are none, says why, and gives the exit status.
fn own_run_of<R: Runtime + AllocGlobal>(
    rt: &R,
    alloc: Global,
    job: &Job,
) -> Result<(Rulebook, Vec<Event>), u8>
    ensures { IfErr result IsStatusOfJob }
{
    if reads_input_and_a_file(job) && !has_input(rt) {
        return Err(tell(rt, &ServeFault::Read));
    }
    let book = match book_of(rt, alloc, job.book.as_ref()) {
        Ok(book) => book,
        Err(cause) => return Err(tell_cause(rt, &cause)),
    };
    let events = match own_stored_of(rt, alloc, &book, job.trace.as_ref()) {
        Ok(events) => events,
        Err(cause) => return Err(tell_own(rt, &cause)),
    };
    match Rulebook::of(alloc, book) {
        Ok(rules) => Ok((rules, events)),
        Err(_) => Err(tell(rt, &ServeFault::Memory)),
    }
}

/// Opens the trace's file and reads it as a run by the book; `-`, or no name, is standard input.
fn own_stored_of<R: Runtime + AllocGlobal>(
    rt: &R,
    alloc: Global,
    book: &Book,
    path: Option<&String>,
) -> Result<Vec<Event>, OwnCause> {
    match path {
        Some(path) if !is_dash(path) => match File::open(rt, path.as_str()) {
            Ok(file) => stored_by_book(alloc, book, &mut Device::of(file)),
            Err(_) => Err(OwnCause::Reading(ServeFault::Read)),
        },
        _ => stored_by_book(alloc, book, &mut Device::of(rt.reader())),
    }
}

/// Reads the book, the trace and the graph, judges the run, and gives the exit status.
fn judge<R: Runtime + AllocGlobal>(rt: &R, alloc: Global, wake: WakeSet, job: &Job) -> u8
    ensures { IsStatusOfJob result }
{
    if reads_input_and_a_file(job) && !has_input(rt) {
        return tell(rt, &ServeFault::Read);
    }
    let book = match book_of(rt, alloc, job.book.as_ref()) {
        Ok(book) => book,
        Err(cause) => return tell_cause(rt, &cause),
    };
    match judged(rt, alloc, wake, job, &book) {
        Ok(end) => end.status(),
        Err(cause) => tell(rt, &cause),
    }
}

/// Reads the book and the graph, judges all runs, and gives the exit status.
fn judge_runs<R: Runtime + AllocGlobal>(
    rt: &R,
    alloc: Global,
    options: &ExploreOptions,
    job: &Job,
) -> u8
    requires { AreExploreLimits options.now }
    ensures { IsStatusOfJob result }
{
    let book = match book_of(rt, alloc, job.book.as_ref()) {
        Ok(book) => book,
        Err(cause) => return tell_cause(rt, &cause),
    };
    match all_judged(rt, alloc, options, job, &book) {
        Ok(end) => end.status(),
        Err(cause) => tell(rt, &cause),
    }
}

/// Reads the graph, and judges all its runs.
fn all_judged<R: Runtime + AllocGlobal>(
    rt: &R,
    alloc: Global,
    options: &ExploreOptions,
    job: &Job,
    book: &Book,
) -> Result<End, ServeFault>
    requires { AreExploreLimits options.now }
{
    let graph = built_of(rt, alloc, options.wake, job.graph.as_ref())?;
    let mut out = Device::of(io::writer(rt));
    judge_all(alloc, options.wake, graph, book, options.limit, &mut out)
}

/// Opens the book's file and reads it. A file that can't be opened can't be read.
fn book_of<R: Runtime + AllocGlobal>(
    rt: &R,
    alloc: Global,
    path: Option<&String>,
) -> Result<Book, BookCause> {
    let Some(path) = path else {
        return Err(BookCause::Reading(ServeFault::Read));
    };
    match File::open(rt, path.as_str()) {
        Ok(file) => read_book_of(alloc, &mut Device::of(file)),
        Err(_) => Err(BookCause::Reading(ServeFault::Read)),
    }
}

/// Reads the trace and the graph, and judges the run.
fn judged<R: Runtime + AllocGlobal>(
    rt: &R,
    alloc: Global,
    wake: WakeSet,
    job: &Job,
    book: &Book,
) -> Result<End, ServeFault> {
    let events = stored_of(rt, alloc, job.trace.as_ref())?;
    let graph = built_of(rt, alloc, wake, job.graph.as_ref())?;
    let mut out = Device::of(io::writer(rt));
    judge_run(alloc, wake, graph, &events, book, &mut out)
}

/// Opens the trace's file and reads it; `-`, or no name, is standard input.
fn stored_of<R: Runtime + AllocGlobal>(
    rt: &R,
    alloc: Global,
    path: Option<&String>,
) -> Result<Vec<Event>, ServeFault>
    ensures { IfOk result (λ events. length events.items ≤ EVENT_LIMIT) }
{
    match path {
        Some(path) if !is_dash(path) => match File::open(rt, path.as_str()) {
            Ok(file) => events_of(alloc, Protocol::Ghs, &mut Device::of(file)),
            Err(_) => Err(ServeFault::Read),
        },
        _ => events_of(alloc, Protocol::Ghs, &mut Device::of(rt.reader())),
    }
}

/// Opens the graph's file and reads it; `-`, or no name, is standard input.
fn built_of<R: Runtime + AllocGlobal>(
    rt: &R,
    alloc: Global,
    wake: WakeSet,
    path: Option<&String>,
) -> Result<Graph, ServeFault> {
    match path {
        Some(path) if !is_dash(path) => match File::open(rt, path.as_str()) {
            Ok(file) => graph_of(alloc, wake, &mut Device::of(file)),
            Err(_) => Err(ServeFault::Read),
        },
        _ => graph_of(alloc, wake, &mut Device::of(rt.reader())),
    }
}

/// Opens the files and does the job, the trace's before the graph's; `-` is standard input. A file that can't be opened
/// can't be read, nor can standard input that is closed. What a file holds no contract says, and so nothing is said of what
/// comes of it.
fn do_job<R: Runtime + AllocGlobal + Threads + Wait + Sync>(
    rt: &R,
    alloc: Global,
    job: &Job,
) -> Result<(), ServeFault>
    requires { IsWithinLimits job.now.task }
{
    if reads_input_and_a_file(job) && !has_input(rt) {
        return Err(ServeFault::Read);
    }
    match &job.trace {
        Some(path) if is_dash(path) => do_job_with_trace(
            rt,
            alloc,
            job,
            &mut Device::of(rt.reader()),
        ),
        Some(path) => match File::open(rt, path.as_str()) {
            Ok(file) => do_job_with_trace(rt, alloc, job, &mut Device::of(file)),
            Err(_) => Err(ServeFault::Read),
        },
        None => do_job_with_trace(rt, alloc, job, &mut Device::of(b"".as_slice())),
    }
}

/// Whether of trace and graph one is a file and the other one is read from standard input.
fn reads_input_and_a_file(job: &Job) -> bool {
    match (&job.trace, &job.graph) {
        (Some(trace), Some(graph)) => is_dash(trace) != is_dash(graph),
        (Some(trace), None) => !is_dash(trace),
        (None, _) => false,
    }
}

/// Whether standard input is open, by a read of no byte. A file that is opened takes the place of one that isn't, and would
/// be read for it: so this is asked before.
fn has_input<R: Runtime>(rt: &R) -> bool {
    rt.reader().read(&mut []).is_ok()
}

/// Opens the graph's file and does the job with this trace.
fn do_job_with_trace<R: Runtime + AllocGlobal + Threads + Wait + Sync, T: Source>(
    rt: &R,
    alloc: Global,
    job: &Job,
    trace: &mut T,
) -> Result<(), ServeFault>
    requires limits { IsWithinLimits job.now.task }
    requires trace { T.has_failed trace.old ≡ false }
    ensures read { T.has_failed trace.new ≡ true → IsErrOf result ServeFault.Read }
    ensures trace { IsUnread job.now.task trace.old trace.new }
{
    match &job.graph {
        Some(path) if !is_dash(path) => match File::open(rt, path.as_str()) {
            Ok(file) => do_job_on_graph(rt, alloc, job, &mut Device::of(file), trace),
            Err(_) => Err(ServeFault::Read),
        },
        _ => do_job_on_graph(rt, alloc, job, &mut Device::of(rt.reader()), trace),
    }
}

/// Does the job on this graph with this trace, and prints. What standard output holds no contract says, so of what is printed
/// it is said that there is such a text.
fn do_job_on_graph<R: Runtime + AllocGlobal + Threads + Wait + Sync, S: Source, T: Source>(
    rt: &R,
    alloc: Global,
    job: &Job,
    graph: &mut S,
    trace: &mut T,
) -> Result<(), ServeFault>
    requires limits { IsWithinLimits job.now.task }
    requires graph { S.has_failed graph.old ≡ false }
    requires trace { T.has_failed trace.old ≡ false }
    ensures serves { IfStored job.now.task (T.left trace.old) (λ stored. IfSome (S.left graph.old) (λ input. Serves job.now.task stored input None None result)) }
    ensures read { IsErrOf result ServeFault.Read ↔ ((S.has_failed graph.new ≡ true) ⊎ (T.has_failed trace.new ≡ true)) }
    ensures ends { IfSome (S.left graph.old) (λ input. IsBoundedTask job.now.task input → IsErrOf result ServeFault.TurnLimit → ⊥) }
    ensures trace { IsUnread job.now.task trace.old trace.new }
{
    let mut out = Device::of(io::writer(rt));
    serve(rt, alloc, job, graph, trace, &mut out)
}

/// Prints help that was asked for. Only a write that failed is a fault.
fn help<R: Runtime>(rt: &R, text: &str) -> Result<(), ServeFault>
    ensures { IfErr result (λ fault. is_write fault ≡ true) }
{
    write_out(&mut Device::of(io::writer(rt)), text.as_bytes())?;
    Ok(())
}

/// The exit status of work that has come to this.
fn finish<R: Runtime>(rt: &R, result_of_job: Result<(), ServeFault>) -> u8
    ensures { MatchResult result_of_job (λ _. result ≡ 0) (λ fault. result ≡ status_of fault) }
{
    match result_of_job {
        Ok(()) => 0,
        Err(fault) => tell(rt, &fault),
    }
}

/// The exit status of runs by a book, once they have come to this.
fn finish_own<R: Runtime>(rt: &R, end: Result<OwnEnd, ServeFault>) -> u8
    ensures { IsStatusOfJob result }
{
    match end {
        Ok(end) => end.status(),
        Err(cause) => tell(rt, &cause),
    }
}

/// Says what went wrong, and gives the exit status.
fn tell<R: Runtime>(rt: &R, fault: &ServeFault) -> u8
    ensures { result ≡ status_of fault.now }
{
    tell_behind(rt, "", fault)
}

/// Says why there is no book, and gives the exit status.
fn tell_cause<R: Runtime>(rt: &R, cause: &BookCause) -> u8
    ensures { result ≡ book_status cause.now }
{
    let _ = eprintln!(rt; "ghs: {cause}");
    cause.status()
}

/// Says why there is no stored run by a book, and gives the exit status.
fn tell_own<R: Runtime>(rt: &R, cause: &OwnCause) -> u8
    ensures { result ≡ cause_status cause.now }
{
    let _ = eprintln!(rt; "ghs: {cause}");
    cause.status()
}

/// Says what went wrong with a file, which is named, and gives the exit status.
fn tell_of<R: Runtime>(rt: &R, alloc: Global, name: &str, fault: &ServeFault) -> u8
    ensures { result ≡ status_of fault.now }
{
    match named(alloc, name) {
        Ok(front) => tell_behind(rt, front.as_str(), fault),
        Err(_) => tell(rt, fault),
    }
}

/// Says what went wrong behind a front, in one line, and gives the exit status.
fn tell_behind<R: Runtime>(rt: &R, front: &str, fault: &ServeFault) -> u8
    ensures { result ≡ status_of fault.now }
{
    let _ = eprintln!(rt; "ghs: {front}{fault}");
    fault.status()
}

/// A name as the front of a line: `?` stands for each control character.
fn named(alloc: Global, name: &str) -> Result<String, AllocError> {
    let mut text = String::new(alloc);
    for letter in name.chars() {
        let shown = if letter.is_control() { '?' } else { letter };
        text.push(shown)?;
    }
    text.push_str(": ")?;
    Ok(text)
}

/// Says why the command line is refused, and gives the exit status.
fn refuse<R: Runtime>(rt: &R, text: &str) -> u8
    ensures { result ≡ REFUSED }
{
    let _ = eprint!(rt; "{text}");
    REFUSED
}
