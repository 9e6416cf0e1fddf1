//! Command lines.
ghost use Rattle.ghs_commands.specs.declared.job.JobFault.TheVariants.{Memory};
ghost use Rattle.ghs_commands.specs.Grammar.{program};
ghost use Rattle.ghs_commands.specs.Job.{AreNetworks, AreOptions, IsAsked, kind_in, links_in, weights_in, AreStepsOptions, IsChoice, AreSweepLimits, AreSweepOptions, AreWithinLimits, by_in, check_in, command_in, first_seed_in, has_choices, has_course, has_events, has_figures, has_network, has_numbers, has_prints, has_seeds, has_sizes, has_sources, has_values, kinds_of, name_in, node_in, number_at, option_kinds, pair_in, protocol_in, second_seed_in, seeds_at, value_in, is_own, with_name, IsForm, IsOfSeed, IsScheduleKind, IsRefused, PlaysAgain, IsSaid, IsSaidOf, IsSheet, IsShow, IsTask, IsWake, IsWithinLimits, AreStoredViewOptions, AreViewLimits, AreViewOptions};
ghost use Rattle.ghs_commands.specs.Checks.{is_check};
ghost use Rattle.ghs_commands.specs.Values.{AreSeeds, are_apart, are_weights, is_among, is_kind, is_number, is_range};
ghost use Rattle.ghs_commands.specs.Networks.{are_read_once, values_in};
ghost use Rattle.ghs_commands.specs.Parts.{go_together, is_part};
ghost use Rattle.ghs_commands.specs.TwoSeeds.{are_two};
ghost use Rattle.ghs_commands.specs.Wakers.{is_wake};
ghost use Rattle.clap.specs.Words.{kind_of, subcommand_rows_of};
ghost use Rattle.std.specs.Option.{option_map};
ghost use Rattle.std.specs.Prelude.{◌≡◌, ◌≢◌, ◌≤◌, ◌↔◌, ◌∷◌, [], IfErr, IfOk, IfSome, IsTrue, OnErr, OnOk, Some, codes, false, map, string_bytes, true};

use crate::checks::{check_ending, check_of};
use crate::exploring::{ExploreOptions, MOST_STATES, exploration_of};
use crate::fitting::is_own;
use crate::grammar::program;
use crate::networks::{are_read_once, input_twice, named_of, values_of};
use crate::parts::{by_named, go_together, is_part, no_such_sheet};
use crate::protocols::{check_protocol, protocol_of, protocols_of};
use crate::two_seeds::{TwoSeeds, are_two, no_two_seeds, two_seeds_in};
use crate::values::{
    Seeds, are_apart, are_weights, is_among, is_kind, is_number, is_range, is_text, no_kind,
    no_nodes, no_number, no_seeds, number_in, owned, read_twice, seeds_in, unknown_choice,
};
use crate::wakers::{is_wake, no_wake, wake_named};
use clap::error::ErrorKind;
use clap::{ArgMatches, Error};
use ghs_choices::by::By;
use ghs_choices::check::Check;
use ghs_choices::choice::Choice;
use ghs_choices::form::Form;
use ghs_choices::schedule_kind::ScheduleKind;
use ghs_make::kind::Kind;
use ghs_make::plan::Asked;
use ghs_make::weights::Weights;
use peer_network::wake_set::WakeSet;
use peer_texts::trace::EVENT_LIMIT;
use peer_trace::protocol::Protocol;
use std::alloc::{AllocError, Global};

/// How many nodes a network may have that is made.
pub const MOST_NODES: u32 = 1_048_576;

/// How many threads may take part in a run.
pub const MOST_WORKERS: u32 = 64;

/// What of a run is printed.
#[derive(Clone, Copy, Debug, PartialEq, Eq)]
pub enum Show {
    /// What `--print report` prints: where it has ended, the text of the net that it leaves.
    Summary,
    /// Its events.
    Events,
    /// Where it has ended, how long its longest chain of messages is, in how many rounds it went, where it goes by rounds, and
    /// how many bits it sent.
    Time,
}

/// How a network is run.
#[derive(Clone, Copy, Debug, PartialEq, Eq)]
pub struct RunOptions {
    /// Whose schedule picks the events, where no threads take part.
    pub seed: u64,
    /// Among which events it picks them.
    pub schedule_kind: ScheduleKind,
    /// How many threads take part, 0 to 64; with 0 a schedule picks the events.
    pub workers: u32,
    /// Which nodes wake by themselves.
    pub wake: WakeSet,
    /// How many events there may be, 1 to 2^40.
    pub turns: u64,
    /// What is printed.
    pub show: Show,
    /// Whether a report has each component's core, with which the run has ended.
    pub core: bool,
    /// Whether standard error is told how far the run has come.
    pub progress: bool,
    /// Whether it is told at the end what each of the threads has done.
    pub tally: bool,
}

/// What of a sweep is printed.
#[derive(Clone, Copy, Debug, PartialEq, Eq)]
pub enum Sheet {
    /// The figures of each run.
    Runs,
    /// What the figures of all come to.
    Summary,
    /// A picture of them.
    Chart,
}

/// Which runs of a network, or of each of several, are swept.
#[derive(Clone, Copy, Debug, PartialEq, Eq)]
pub struct SweepOptions {
    /// Whose schedules pick the runs, a million at most.
    pub seeds: Seeds,
    /// Among which events they pick them.
    pub schedule_kind: ScheduleKind,
    /// How many threads share the runs, 0 to 64; 0 is one.
    pub workers: u32,
    /// Which nodes wake by themselves.
    pub wake: WakeSet,
    /// How many events each run may have, 1 to 2^40.
    pub turns: u64,
    /// What is printed.
    pub sheet: Sheet,
    /// By which parts the messages of each run are counted, where they are.
    pub by: Option<By>,
    /// As which lines.
    pub form: Form,
    /// Whether standard error is told how many of the seeds have been run.
    pub progress: bool,
}

/// Which steps of a stored run are shown.
#[derive(Clone, Copy, Debug, PartialEq, Eq)]
pub struct StepsOptions {
    /// Which nodes wake by themselves.
    pub wake: WakeSet,
    /// Which events are shown.
    pub choice: Choice,
    /// As which lines.
    pub form: Form,
}

/// Which page is made of the run that a seed picks, or of the runs of two.
#[derive(Clone, Copy, Debug, PartialEq, Eq)]
pub struct ViewOptions {
    /// Whose schedule picks the events.
    pub seed: u64,
    /// Whose run is shown beside that, where two are.
    pub beside: Option<u64>,
    /// Among which events it picks them.
    pub schedule_kind: ScheduleKind,
    /// Which nodes wake by themselves.
    pub wake: WakeSet,
    /// How many events there may be, 1 to 2^40.
    pub turns: u64,
    /// Before which event the page opens, 1 to 2^40.
    pub from: u64,
    /// With which event it ends, 1 to 2^40, or with the last where there are fewer.
    pub to: u64,
}

/// Which page is made of a stored run.
#[derive(Clone, Copy, Debug, PartialEq, Eq)]
pub struct StoredViewOptions {
    /// Which nodes wake by themselves.
    pub wake: WakeSet,
    /// Before which event the page opens, 1 to 2^40.
    pub from: u64,
    /// With which event it ends, 1 to 2^40, or with the last where there are fewer.
    pub to: u64,
}

/// What is to be done, and which protocol the nodes follow; where the job is by a user's own, `protocol` says nothing.
#[derive(Debug, Drop)]
pub enum Task {
    /// Print the minimum spanning forest, and each component's core where that is asked for.
    Tree {
        core: bool,
    },
    /// Run a network.
    Run {
        protocol: Protocol,
        options: RunOptions,
    },
    /// Play a stored run again; beside the node that a book is, where the job has one and isn't by a user's own protocol.
    Replay {
        protocol: Protocol,
        wake: WakeSet,
    },
    /// Print what each event of a stored run does.
    Steps {
        protocol: Protocol,
        options: StepsOptions,
    },
    /// Print the figures of many seeds' runs, by one protocol after another: some, each of them once.
    Sweep {
        protocols: Vec<Protocol>,
        options: SweepOptions,
    },
    /// Print the page of the run that a seed picks.
    View {
        protocol: Protocol,
        options: ViewOptions,
    },
    /// Print the page of a stored run.
    StoredView {
        protocol: Protocol,
        options: StoredViewOptions,
    },
    /// Print with which counts of messages all runs of a network end, or the events of one of them.
    Explore {
        protocol: Protocol,
        options: ExploreOptions,
    },
    /// Make a network, and print it.
    Make(Asked),
}

/// What a command line asks for: the file of the graph (standard input where there is none, or it is `-`), the file of a
/// stored trace (standard input where it is `-`), the files of the networks of a sweep whose lines begin with names (none
/// where one network is swept without its name; one at most is `-`, standard input), the file of the book by which a stored
/// run is judged (none where it's only played again), or the nodes go, or with which all runs are compared (none where they
/// are only explored), what the end of a run is checked for (nothing where that isn't asked for; it is only of a user's own
/// protocol), whether the nodes go by the book, since the protocol is a user's own, and the task.
#[derive(Debug, Drop)]
pub struct Job {
    pub graph: Option<String>,
    pub trace: Option<String>,
    pub networks: Vec<String>,
    pub book: Option<String>,
    pub check: Option<Check>,
    pub own: bool,
    pub task: Task,
}

/// Why a command line gives no job.
#[derive(Debug, Drop)]
pub enum JobFault {
    /// Help or the version was asked for: its text.
    Help(String),
    /// The words aren't a command line of this program: what is to be said of them.
    Refused(String),
    /// Memory ran out.
    Memory,
}

impl From<AllocError> for JobFault {
    ghost from_gives = { λ _ e. e ≡ Memory };

    fn from(_error: AllocError) -> JobFault {
        JobFault::Memory
    }
}

/// The job of a command line: the words after the program's name. The words are taken as `clap` takes them; a choice
/// has to be one that there is, and a number has to be digits of a value in its range.
///
/// ```text
/// let job = read_job(alloc, &words)?;                       // the words run --seed 7 five.gr
/// // job.graph is five.gr; job.task is Task::Run { protocol, options }, with protocol Ghs, options.seed 7, options.workers 0
/// // of the word --help it is Err(JobFault::Help(text))
/// ```
pub fn read_job(alloc: Global, words: &[String]) -> Result<Job, JobFault>
    ensures task { IfOk result (λ job. IsTask (command_in (map string_bytes words.now)) job.task) }
    ensures trace { IfOk result (λ job. option_map string_bytes job.trace ≡ value_in (codes "TRACE") (command_in (map string_bytes words.now))) }
    ensures graph { IfOk result (λ job. option_map string_bytes job.graph ≡ value_in (codes "FILE") (command_in (map string_bytes words.now))) }
    ensures networks { IfOk result (λ job. AreNetworks (command_in (map string_bytes words.now)) (map string_bytes job.networks.items)) }
    ensures book { IfOk result (λ job. option_map string_bytes job.book ≡ value_in (codes "book") (command_in (map string_bytes words.now))) }
    ensures check { IfOk result (λ job. job.check ≡ check_in (command_in (map string_bytes words.now))) }
    ensures own { IfOk result (λ job. job.own ≡ is_own (command_in (map string_bytes words.now))) }
    ensures limits { IfOk result (λ job. IsWithinLimits job.task) }
    ensures taken { OnOk result (kinds_of (map string_bytes words.now) ≡ []) }
    ensures fault { IfErr result (IsSaidOf (kinds_of (map string_bytes words.now))) }
{
    let line = line_of(alloc, words)?;
    match program(alloc)?.try_get_matches_from(&line) {
        Ok(matches) => job_of(alloc, &matches),
        Err(error) => Err(fault_of(alloc, &error)),
    }
}

/// The words with the program's name before them, by which usage lines begin.
fn line_of<'a>(alloc: Global, words: &'a [String]) -> Result<Vec<&'a str>, AllocError>
    ensures { IfOk result (λ line. map (λ t. t.now) line.items ≡ with_name (map string_bytes words.entry.now)) }
{
    let mut line = Vec::new(alloc);
    line.push("ghs")?;
    for word in words {
        line.push(word.as_str())?;
    }
    Ok(line)
}

/// The job of words that `clap` takes.
fn job_of<'a>(alloc: Global, matches: &ArgMatches<'a>) -> Result<Job, JobFault>
    ensures task { IfOk result (λ job. IsTask (subcommand_rows_of matches.now) job.task) }
    ensures trace { IfOk result (λ job. option_map string_bytes job.trace ≡ value_in (codes "TRACE") (subcommand_rows_of matches.now)) }
    ensures graph { IfOk result (λ job. option_map string_bytes job.graph ≡ value_in (codes "FILE") (subcommand_rows_of matches.now)) }
    ensures networks { IfOk result (λ job. AreNetworks (subcommand_rows_of matches.now) (map string_bytes job.networks.items)) }
    ensures book { IfOk result (λ job. option_map string_bytes job.book ≡ value_in (codes "book") (subcommand_rows_of matches.now)) }
    ensures check { IfOk result (λ job. job.check ≡ check_in (subcommand_rows_of matches.now)) }
    ensures own { IfOk result (λ job. job.own ≡ is_own (subcommand_rows_of matches.now)) }
    ensures limits { IfOk result (λ job. IsWithinLimits job.task) }
    ensures taken { OnOk result (option_kinds (subcommand_rows_of matches.now) ≡ []) }
    ensures fault { IfErr result (IsSaidOf (option_kinds (subcommand_rows_of matches.now))) }
{
    match check_options(alloc, matches) {
        Ok(()) => {}
        Err(fault) => return Err(fault),
    }
    Ok(Job {
        graph: owned(alloc, value_of(matches, "FILE"))?,
        trace: owned(alloc, value_of(matches, "TRACE"))?,
        networks: networks_of(alloc, matches)?,
        book: owned(alloc, value_of(matches, "book"))?,
        check: check_of(matches),
        own: is_own(matches),
        task: task_of(alloc, matches)?,
    })
}

/// The networks of a sweep whose lines begin with names.
fn networks_of<'a>(alloc: Global, matches: &ArgMatches<'a>) -> Result<Vec<String>, AllocError>
    ensures { IfOk result (λ names. AreNetworks (subcommand_rows_of matches.now) (map string_bytes names.items)) }
{
    let asked = is_text(value_of(matches, "names"), "true");
    Ok(named_of(alloc, asked, values_of(matches, "FILE"))?)
}

/// Whether each option has a value that it may have, and standard input isn't read twice; what is said of the first that
/// hasn't.
fn check_options<'a>(alloc: Global, matches: &ArgMatches<'a>) -> Result<(), JobFault>
    ensures ok { OnOk result (has_values (subcommand_rows_of matches.now) ≡ true) }
    ensures err { OnErr result (has_values (subcommand_rows_of matches.now) ≡ false) }
    ensures fault { IfErr result IsRefused }
{
    check_choices(alloc, matches)?;
    check_numbers(alloc, matches)?;
    check_network(alloc, matches)?;
    check_runs(alloc, matches)?;
    check_protocol(alloc, matches)?;
    check_figures(alloc, matches)?;
    check_ending(alloc, matches)?;
    check_sources(alloc, matches)
}

/// Whether each choice is one that there is.
fn check_choices<'a>(alloc: Global, matches: &ArgMatches<'a>) -> Result<(), JobFault>
    ensures ok { OnOk result (has_choices (subcommand_rows_of matches.now) ≡ true) }
    ensures err { OnErr result (has_choices (subcommand_rows_of matches.now) ≡ false) }
    ensures fault { IfErr result IsRefused }
{
    check_wake(alloc, matches)?;
    check_prints(alloc, matches)?;
    check_choice(
        alloc,
        matches,
        "schedule",
        "schedule",
        &[
            "seeded",
            "patient",
            "rounds",
            "waits",
            "lifo",
            "round-robin",
        ],
    )
}

/// Whether `--wake` names a wake set.
fn check_wake<'a>(alloc: Global, matches: &ArgMatches<'a>) -> Result<(), JobFault>
    ensures ok { OnOk result (is_wake (value_in (codes "wake") (subcommand_rows_of matches.now)) ≡ true) }
    ensures err { OnErr result (is_wake (value_in (codes "wake") (subcommand_rows_of matches.now)) ≡ false) }
    ensures fault { IfErr result IsRefused }
{
    let value = value_of(matches, "wake");
    if is_wake(value) {
        Ok(())
    } else {
        Err(no_wake(alloc, value))
    }
}

/// Whether what is printed of a run, of a sweep or of an exploration is one of its choices.
fn check_prints<'a>(alloc: Global, matches: &ArgMatches<'a>) -> Result<(), JobFault>
    ensures ok { OnOk result (has_prints (subcommand_rows_of matches.now) ≡ true) }
    ensures err { OnErr result (has_prints (subcommand_rows_of matches.now) ≡ false) }
    ensures fault { IfErr result IsRefused }
{
    check_choice(
        alloc,
        matches,
        "print",
        "print",
        &["report", "trace", "time"],
    )?;
    check_choice(
        alloc,
        matches,
        "sheet",
        "print",
        &["runs", "summary", "chart"],
    )?;
    check_choice(alloc, matches, "found", "print", &["report", "trace"])
}

/// Whether each number is one, and in its range.
fn check_numbers<'a>(alloc: Global, matches: &ArgMatches<'a>) -> Result<(), JobFault>
    ensures ok { OnOk result (has_numbers (subcommand_rows_of matches.now) ≡ true) }
    ensures err { OnErr result (has_numbers (subcommand_rows_of matches.now) ≡ false) }
    ensures fault { IfErr result IsRefused }
{
    check_course(alloc, matches)?;
    check_events(alloc, matches)?;
    check_sizes(alloc, matches)
}

/// The numbers of how a network is run.
fn check_course<'a>(alloc: Global, matches: &ArgMatches<'a>) -> Result<(), JobFault>
    ensures ok { OnOk result (has_course (subcommand_rows_of matches.now) ≡ true) }
    ensures err { OnErr result (has_course (subcommand_rows_of matches.now) ≡ false) }
    ensures fault { IfErr result IsRefused }
{
    check_number(alloc, matches, "seed", 0, u64::MAX)?;
    check_number(alloc, matches, "workers", 0, MOST_WORKERS as u64)?;
    check_number(alloc, matches, "turns", 1, EVENT_LIMIT)
}

/// The numbers of which events are shown.
fn check_events<'a>(alloc: Global, matches: &ArgMatches<'a>) -> Result<(), JobFault>
    ensures ok { OnOk result (has_events (subcommand_rows_of matches.now) ≡ true) }
    ensures err { OnErr result (has_events (subcommand_rows_of matches.now) ≡ false) }
    ensures fault { IfErr result IsRefused }
{
    check_number(alloc, matches, "from", 1, EVENT_LIMIT)?;
    check_number(alloc, matches, "to", 1, EVENT_LIMIT)?;
    check_number(alloc, matches, "node", 1, u32::MAX as u64)
}

/// The numbers of a network that is made, and of an exploration.
fn check_sizes<'a>(alloc: Global, matches: &ArgMatches<'a>) -> Result<(), JobFault>
    ensures ok { OnOk result (has_sizes (subcommand_rows_of matches.now) ≡ true) }
    ensures err { OnErr result (has_sizes (subcommand_rows_of matches.now) ≡ false) }
    ensures fault { IfErr result IsRefused }
{
    check_number(alloc, matches, "links", 0, u32::MAX as u64)?;
    check_number(alloc, matches, "limit", 1, MOST_STATES as u64)?;
    check_number(alloc, matches, "end", 1, u32::MAX as u64)
}

/// Whether a network that is made has a number of nodes, a kind and weights.
fn check_network<'a>(alloc: Global, matches: &ArgMatches<'a>) -> Result<(), JobFault>
    ensures ok { OnOk result (has_network (subcommand_rows_of matches.now) ≡ true) }
    ensures err { OnErr result (has_network (subcommand_rows_of matches.now) ≡ false) }
    ensures fault { IfErr result IsRefused }
{
    check_nodes(alloc, matches)?;
    check_kind(alloc, matches)?;
    check_weights(alloc, matches)
}

/// Whether the seeds of a sweep are some, and those of a view two.
fn check_runs<'a>(alloc: Global, matches: &ArgMatches<'a>) -> Result<(), JobFault>
    ensures ok { OnOk result (has_seeds (subcommand_rows_of matches.now) ≡ true) }
    ensures err { OnErr result (has_seeds (subcommand_rows_of matches.now) ≡ false) }
    ensures fault { IfErr result IsRefused }
{
    check_seeds(alloc, matches)?;
    check_two_seeds(alloc, matches)
}

/// Whether the figures of a sweep can be printed as it is asked for.
fn check_figures<'a>(alloc: Global, matches: &ArgMatches<'a>) -> Result<(), JobFault>
    ensures ok { OnOk result (has_figures (subcommand_rows_of matches.now) ≡ true) }
    ensures err { OnErr result (has_figures (subcommand_rows_of matches.now) ≡ false) }
    ensures fault { IfErr result IsRefused }
{
    check_part(alloc, matches)?;
    check_together(alloc, matches)
}

/// Whether standard input isn't read twice.
fn check_sources<'a>(alloc: Global, matches: &ArgMatches<'a>) -> Result<(), JobFault>
    ensures ok { OnOk result (has_sources (subcommand_rows_of matches.now) ≡ true) }
    ensures err { OnErr result (has_sources (subcommand_rows_of matches.now) ≡ false) }
    ensures fault { IfErr result IsRefused }
{
    check_inputs(alloc, matches)?;
    check_files(alloc, matches)
}

/// Whether an option has one of some values; it goes by its name on the command line where it hasn't.
fn check_choice<'a>(
    alloc: Global,
    matches: &ArgMatches<'a>,
    id: &str,
    name: &str,
    choices: &[&str],
) -> Result<(), JobFault>
    ensures ok { OnOk result (is_among (map (λ t. t.now) choices.now) (value_in id.now (subcommand_rows_of matches.now)) ≡ true) }
    ensures err { OnErr result (is_among (map (λ t. t.now) choices.now) (value_in id.now (subcommand_rows_of matches.now)) ≡ false) }
    ensures fault { IfErr result IsRefused }
{
    let value = value_of(matches, id);
    if is_among(value, choices) {
        Ok(())
    } else {
        Err(unknown_choice(alloc, name, value, choices))
    }
}

/// Whether an option has a number in a range.
fn check_number<'a>(
    alloc: Global,
    matches: &ArgMatches<'a>,
    id: &str,
    low: u64,
    high: u64,
) -> Result<(), JobFault>
    ensures ok { OnOk result (is_number low high (value_in id.now (subcommand_rows_of matches.now)) ≡ true) }
    ensures err { OnErr result (is_number low high (value_in id.now (subcommand_rows_of matches.now)) ≡ false) }
    ensures fault { IfErr result IsRefused }
{
    let value = value_of(matches, id);
    if is_number(value, low, high) {
        Ok(())
    } else {
        Err(no_number(alloc, id, value, low, high))
    }
}

/// Whether a network that is made has a number of nodes.
fn check_nodes<'a>(alloc: Global, matches: &ArgMatches<'a>) -> Result<(), JobFault>
    ensures ok { OnOk result (is_number 1 MOST_NODES (value_in (codes "NODES") (subcommand_rows_of matches.now)) ≡ true) }
    ensures err { OnErr result (is_number 1 MOST_NODES (value_in (codes "NODES") (subcommand_rows_of matches.now)) ≡ false) }
    ensures fault { IfErr result IsRefused }
{
    let value = value_of(matches, "NODES");
    if is_number(value, 1, MOST_NODES as u64) {
        Ok(())
    } else {
        Err(no_nodes(alloc, value))
    }
}

/// Whether a network that is made has a kind.
fn check_kind<'a>(alloc: Global, matches: &ArgMatches<'a>) -> Result<(), JobFault>
    ensures ok { OnOk result (is_kind (value_in (codes "KIND") (subcommand_rows_of matches.now)) ≡ true) }
    ensures err { OnErr result (is_kind (value_in (codes "KIND") (subcommand_rows_of matches.now)) ≡ false) }
    ensures fault { IfErr result IsRefused }
{
    let value = value_of(matches, "KIND");
    if is_kind(value) {
        Ok(())
    } else {
        Err(no_kind(alloc, value))
    }
}

/// Whether the links of a network that is made weigh as there is a name for.
fn check_weights<'a>(alloc: Global, matches: &ArgMatches<'a>) -> Result<(), JobFault>
    ensures ok { OnOk result (are_weights (value_in (codes "weights") (subcommand_rows_of matches.now)) ≡ true) }
    ensures err { OnErr result (are_weights (value_in (codes "weights") (subcommand_rows_of matches.now)) ≡ false) }
    ensures fault { IfErr result IsRefused }
{
    let value = value_of(matches, "weights");
    if are_weights(value) {
        Ok(())
    } else {
        let choices = &["random", "rising", "falling", "equal"];
        Err(unknown_choice(alloc, "weights", value, choices))
    }
}

/// Whether the seeds of a sweep are some.
fn check_seeds<'a>(alloc: Global, matches: &ArgMatches<'a>) -> Result<(), JobFault>
    ensures ok { OnOk result (is_range (value_in (codes "seeds") (subcommand_rows_of matches.now)) ≡ true) }
    ensures err { OnErr result (is_range (value_in (codes "seeds") (subcommand_rows_of matches.now)) ≡ false) }
    ensures fault { IfErr result IsRefused }
{
    let value = value_of(matches, "seeds");
    if is_range(value) {
        Ok(())
    } else {
        Err(no_seeds(alloc, "seeds", value))
    }
}

/// Whether the seeds of a view are two.
fn check_two_seeds<'a>(alloc: Global, matches: &ArgMatches<'a>) -> Result<(), JobFault>
    ensures ok { OnOk result (are_two (value_in (codes "pair") (subcommand_rows_of matches.now)) ≡ true) }
    ensures err { OnErr result (are_two (value_in (codes "pair") (subcommand_rows_of matches.now)) ≡ false) }
    ensures fault { IfErr result IsRefused }
{
    let value = value_of(matches, "pair");
    if are_two(value) {
        Ok(())
    } else {
        Err(no_two_seeds(alloc, "seeds", value))
    }
}

/// Whether the messages of a sweep are counted by parts that there are.
fn check_part<'a>(alloc: Global, matches: &ArgMatches<'a>) -> Result<(), JobFault>
    ensures ok { OnOk result (is_part (value_in (codes "by") (subcommand_rows_of matches.now)) ≡ true) }
    ensures err { OnErr result (is_part (value_in (codes "by") (subcommand_rows_of matches.now)) ≡ false) }
    ensures fault { IfErr result IsRefused }
{
    let value = value_of(matches, "by");
    if is_part(value) {
        Ok(())
    } else {
        Err(unknown_choice(alloc, "by", value, &["node", "level", "rule"]))
    }
}

/// Whether what a sweep prints goes together: parts are counted run by run, and a picture has no lines.
fn check_together<'a>(alloc: Global, matches: &ArgMatches<'a>) -> Result<(), JobFault>
    ensures ok { OnOk result (go_together (value_in (codes "sheet") (subcommand_rows_of matches.now)) (value_in (codes "by") (subcommand_rows_of matches.now)) (value_in (codes "json") (subcommand_rows_of matches.now)) ≡ true) }
    ensures err { OnErr result (go_together (value_in (codes "sheet") (subcommand_rows_of matches.now)) (value_in (codes "by") (subcommand_rows_of matches.now)) (value_in (codes "json") (subcommand_rows_of matches.now)) ≡ false) }
    ensures fault { IfErr result IsRefused }
{
    let sheet = value_of(matches, "sheet");
    if go_together(sheet, value_of(matches, "by"), value_of(matches, "json")) {
        Ok(())
    } else {
        Err(no_such_sheet(alloc, sheet))
    }
}

/// Whether standard input isn't to be both the stored run and the graph.
fn check_inputs<'a>(alloc: Global, matches: &ArgMatches<'a>) -> Result<(), JobFault>
    ensures ok { OnOk result (are_apart (value_in (codes "TRACE") (subcommand_rows_of matches.now)) (value_in (codes "FILE") (subcommand_rows_of matches.now)) ≡ true) }
    ensures err { OnErr result (are_apart (value_in (codes "TRACE") (subcommand_rows_of matches.now)) (value_in (codes "FILE") (subcommand_rows_of matches.now)) ≡ false) }
    ensures fault { IfErr result IsRefused }
{
    if are_apart(value_of(matches, "TRACE"), value_of(matches, "FILE")) {
        Ok(())
    } else {
        Err(read_twice(alloc))
    }
}

/// Whether one of the graphs at most is to be standard input.
fn check_files<'a>(alloc: Global, matches: &ArgMatches<'a>) -> Result<(), JobFault>
    ensures ok { OnOk result (are_read_once (values_in (codes "FILE") (subcommand_rows_of matches.now)) ≡ true) }
    ensures err { OnErr result (are_read_once (values_in (codes "FILE") (subcommand_rows_of matches.now)) ≡ false) }
    ensures fault { IfErr result IsRefused }
{
    if are_read_once(values_of(matches, "FILE")) {
        Ok(())
    } else {
        Err(input_twice(alloc))
    }
}

/// The task of a command.
fn task_of<'a>(alloc: Global, matches: &ArgMatches<'a>) -> Result<Task, AllocError>
    ensures task { IfOk result (λ task. IsTask (subcommand_rows_of matches.now) task) }
    ensures limits { IfOk result IsWithinLimits }
{
    if matches.subcommand_name() == Some("sweep") {
        let protocols = protocols_of(alloc, matches)?;
        let options = sweep_of(matches);
        Ok(Task::Sweep { protocols, options })
    } else {
        Ok(task_by(matches))
    }
}

/// The task of a command that isn't a sweep.
fn task_by<'a>(matches: &ArgMatches<'a>) -> Task
    requires { name_in (subcommand_rows_of matches.now) ≢ Some (codes "sweep") }
    ensures task { IsTask (subcommand_rows_of matches.now) result }
    ensures limits { IsWithinLimits result }
{
    let protocol = protocol_of(matches);
    if matches.subcommand_name() == Some("run") {
        let options = options_of(matches);
        Task::Run { protocol, options }
    } else if plays_again(matches.subcommand_name()) {
        let wake = wake_of(matches);
        Task::Replay { protocol, wake }
    } else if matches.subcommand_name() == Some("steps") {
        let options = steps_of(matches);
        Task::Steps { protocol, options }
    } else if matches.subcommand_name() == Some("view") {
        shown_by(matches, protocol)
    } else if matches.subcommand_name() == Some("make") {
        Task::Make(asked_of(matches))
    } else if matches.subcommand_name() == Some("explore") {
        let options = exploration_of(matches);
        Task::Explore { protocol, options }
    } else {
        Task::Tree {
            core: is_text(value_of(matches, "core"), "true"),
        }
    }
}

/// Whether the command of this name plays a stored run again.
fn plays_again(name: Option<&str>) -> bool
    ensures { IsTrue result ↔ PlaysAgain (option_map (λ t. t.now) name.entry) }
{
    name == Some("replay") || name == Some("judge")
}

/// How a network is to be run.
fn options_of<'a>(matches: &ArgMatches<'a>) -> RunOptions
    ensures options { AreOptions (subcommand_rows_of matches.now) result }
    ensures limits { AreWithinLimits result }
{
    RunOptions {
        seed: number_of(matches, "seed", 0, u64::MAX),
        schedule_kind: schedule_kind_of(matches),
        workers: number_of(matches, "workers", 0, MOST_WORKERS as u64) as u32,
        wake: wake_of(matches),
        turns: number_of(matches, "turns", 1, EVENT_LIMIT),
        show: show_of(matches),
        core: is_text(value_of(matches, "core"), "true"),
        progress: is_text(value_of(matches, "progress"), "true"),
        tally: is_text(value_of(matches, "tally"), "true"),
    }
}

/// Which steps are to be shown.
fn steps_of<'a>(matches: &ArgMatches<'a>) -> StepsOptions
    ensures { AreStepsOptions (subcommand_rows_of matches.now) result }
{
    StepsOptions {
        wake: wake_of(matches),
        choice: choice_of(matches),
        form: form_of(matches),
    }
}

/// Of which events they are.
fn choice_of<'a>(matches: &ArgMatches<'a>) -> Choice
    ensures { IsChoice (subcommand_rows_of matches.now) result }
{
    Choice {
        from: number_of(matches, "from", 1, EVENT_LIMIT),
        to: number_of(matches, "to", 1, EVENT_LIMIT),
        node: node_of(matches),
    }
}

/// The one node whose events are to be shown; none where all nodes' are.
fn node_of<'a>(matches: &ArgMatches<'a>) -> Option<u32>
    ensures { result ≡ node_in (subcommand_rows_of matches.now) }
{
    let Some(value) = value_of(matches, "node") else {
        return None;
    };
    match number_in(value, 1, u32::MAX as u64) {
        Some(node) => Some(node as u32),
        None => None,
    }
}

/// As which lines steps or figures are to be shown.
fn form_of<'a>(matches: &ArgMatches<'a>) -> Form
    ensures { IsForm (subcommand_rows_of matches.now) result }
{
    if is_text(value_of(matches, "json"), "true") {
        Form::Json
    } else {
        Form::Text
    }
}

/// Which runs are to be swept.
fn sweep_of<'a>(matches: &ArgMatches<'a>) -> SweepOptions
    ensures options { AreSweepOptions (subcommand_rows_of matches.now) result }
    ensures limits { AreSweepLimits result }
{
    SweepOptions {
        seeds: seeds_of(matches),
        schedule_kind: schedule_kind_of(matches),
        workers: number_of(matches, "workers", 0, MOST_WORKERS as u64) as u32,
        wake: wake_of(matches),
        turns: number_of(matches, "turns", 1, EVENT_LIMIT),
        sheet: sheet_of(matches),
        by: by_of(matches),
        form: form_of(matches),
        progress: is_text(value_of(matches, "progress"), "true"),
    }
}

/// Which page is to be made: that of a stored run where one is named, and else that of a seed's.
fn shown_by<'a>(matches: &ArgMatches<'a>, protocol: Protocol) -> Task
    requires view { name_in (subcommand_rows_of matches.now) ≡ Some (codes "view") }
    requires by { protocol ≡ protocol_in (subcommand_rows_of matches.now) }
    ensures task { IsTask (subcommand_rows_of matches.now) result }
    ensures limits { IsWithinLimits result }
{
    match value_of(matches, "TRACE") {
        Some(_) => {
            let options = stored_view_of(matches);
            Task::StoredView { protocol, options }
        }
        None => {
            let options = view_of(matches);
            Task::View { protocol, options }
        }
    }
}

/// Which page is to be made of the run that a seed picks, or of the runs of two.
fn view_of<'a>(matches: &ArgMatches<'a>) -> ViewOptions
    ensures options { AreViewOptions (subcommand_rows_of matches.now) result }
    ensures limits { AreViewLimits result }
{
    ViewOptions {
        seed: first_seed_of(matches),
        beside: second_seed_of(matches),
        schedule_kind: schedule_kind_of(matches),
        wake: wake_of(matches),
        turns: number_of(matches, "turns", 1, EVENT_LIMIT),
        from: number_of(matches, "from", 1, EVENT_LIMIT),
        to: number_of(matches, "to", 1, EVENT_LIMIT),
    }
}

/// Which page is to be made of a stored run.
fn stored_view_of<'a>(matches: &ArgMatches<'a>) -> StoredViewOptions
    ensures { AreStoredViewOptions (subcommand_rows_of matches.now) result }
{
    StoredViewOptions {
        wake: wake_of(matches),
        from: number_of(matches, "from", 1, EVENT_LIMIT),
        to: number_of(matches, "to", 1, EVENT_LIMIT),
    }
}

/// Whose run is to be shown, or the first of two.
fn first_seed_of<'a>(matches: &ArgMatches<'a>) -> u64
    ensures { result ≡ first_seed_in (subcommand_rows_of matches.now) }
{
    match two_seeds_of(matches) {
        Some(seeds) => seeds.first,
        None => number_of(matches, "seed", 0, u64::MAX),
    }
}

/// Whose run is to be shown beside it, where two are.
fn second_seed_of<'a>(matches: &ArgMatches<'a>) -> Option<u64>
    ensures { result ≡ second_seed_in (subcommand_rows_of matches.now) }
{
    match two_seeds_of(matches) {
        Some(seeds) => Some(seeds.second),
        None => None,
    }
}

/// The two seeds of a view, where it has them.
fn two_seeds_of<'a>(matches: &ArgMatches<'a>) -> Option<TwoSeeds>
    ensures { result ≡ pair_in (subcommand_rows_of matches.now) }
{
    match value_of(matches, "pair") {
        Some(value) => two_seeds_in(value),
        None => None,
    }
}

/// Which network is to be made.
fn asked_of<'a>(matches: &ArgMatches<'a>) -> Asked
    ensures { IsAsked (subcommand_rows_of matches.now) result }
{
    Asked {
        kind: kind_of(matches),
        nodes: number_of(matches, "NODES", 1, MOST_NODES as u64) as u32,
        seed: number_of(matches, "seed", 0, u64::MAX),
        links: links_of(matches),
        weights: weights_of(matches),
    }
}

/// Of which kind it is to be; each has one.
fn kind_of<'a>(matches: &ArgMatches<'a>) -> Kind
    ensures { result ≡ kind_in (subcommand_rows_of matches.now) }
{
    let Some(value) = value_of(matches, "KIND") else {
        return Kind::Path;
    };
    match Kind::named(value) {
        Some(kind) => kind,
        None => Kind::Path,
    }
}

/// How many links it is to have, where that is said.
fn links_of<'a>(matches: &ArgMatches<'a>) -> Option<u32>
    ensures { result ≡ links_in (subcommand_rows_of matches.now) }
{
    let Some(value) = value_of(matches, "links") else {
        return None;
    };
    match number_in(value, 0, u32::MAX as u64) {
        Some(links) => Some(links as u32),
        None => None,
    }
}

/// How its links are to weigh, where that is said.
fn weights_of<'a>(matches: &ArgMatches<'a>) -> Option<Weights>
    ensures { result ≡ weights_in (subcommand_rows_of matches.now) }
{
    let Some(value) = value_of(matches, "weights") else {
        return None;
    };
    Weights::named(value)
}

/// The seeds of a sweep; each has some.
pub(crate) fn seeds_of<'a>(matches: &ArgMatches<'a>) -> Seeds
    ensures seeds { result ≡ seeds_at (subcommand_rows_of matches.now) }
    ensures limits { AreSeeds result }
{
    let none = Seeds { first: 0, last: 0 };
    let Some(value) = value_of(matches, "seeds") else {
        return none;
    };
    match seeds_in(value) {
        Some(seeds) => seeds,
        None => none,
    }
}

/// Which nodes wake by themselves.
pub(crate) fn wake_of<'a>(matches: &ArgMatches<'a>) -> WakeSet
    ensures { IsWake (subcommand_rows_of matches.now) result }
{
    let Some(value) = value_of(matches, "wake") else {
        return WakeSet::All;
    };
    match wake_named(value) {
        Some(wake) => wake,
        None => WakeSet::All,
    }
}

/// Among which events a schedule picks.
fn schedule_kind_of<'a>(matches: &ArgMatches<'a>) -> ScheduleKind
    ensures { IsScheduleKind (subcommand_rows_of matches.now) result }
{
    if is_text(value_of(matches, "schedule"), "patient") {
        ScheduleKind::Patient
    } else if is_text(value_of(matches, "schedule"), "rounds") {
        ScheduleKind::Rounds
    } else if is_text(value_of(matches, "schedule"), "waits") {
        ScheduleKind::Waits
    } else if is_text(value_of(matches, "schedule"), "lifo") {
        ScheduleKind::Lifo
    } else if is_text(value_of(matches, "schedule"), "round-robin") {
        ScheduleKind::RoundRobin
    } else {
        ScheduleKind::Seeded
    }
}

/// What of a run is printed.
pub(crate) fn show_of<'a>(matches: &ArgMatches<'a>) -> Show
    ensures { IsShow (subcommand_rows_of matches.now) result }
{
    if is_text(value_of(matches, "print"), "trace") {
        Show::Events
    } else if is_text(value_of(matches, "print"), "time") {
        Show::Time
    } else {
        Show::Summary
    }
}

/// What of a sweep is printed.
fn sheet_of<'a>(matches: &ArgMatches<'a>) -> Sheet
    ensures { IsSheet (subcommand_rows_of matches.now) result }
{
    if is_text(value_of(matches, "sheet"), "summary") {
        Sheet::Summary
    } else if is_text(value_of(matches, "sheet"), "chart") {
        Sheet::Chart
    } else {
        Sheet::Runs
    }
}

/// By which parts messages are counted, where they are.
fn by_of<'a>(matches: &ArgMatches<'a>) -> Option<By>
    ensures { result ≡ by_in (subcommand_rows_of matches.now) }
{
    match value_of(matches, "by") {
        Some(value) => by_named(value),
        None => None,
    }
}

/// The number that an option has, and its least where it has none.
pub(crate) fn number_of<'a>(matches: &ArgMatches<'a>, id: &str, low: u64, high: u64) -> u64
    requires { low ≤ high }
    ensures number { result ≡ number_at id.now low high (subcommand_rows_of matches.now) }
    ensures low { low ≤ result }
    ensures high { result ≤ high }
{
    let Some(value) = value_of(matches, id) else {
        return low;
    };
    match number_in(value, low, high) {
        Some(number) => number,
        None => low,
    }
}

/// The value that an argument of the command has.
pub(crate) fn value_of<'a>(matches: &ArgMatches<'a>, id: &str) -> Option<&'a str>
    ensures { option_map (λ t. t.now) result ≡ value_in id.now (subcommand_rows_of matches.now) }
{
    match matches.subcommand() {
        Some((_, command)) => command.get_str(id),
        None => None,
    }
}

/// What is said of words that give no job.
fn fault_of(alloc: Global, error: &Error) -> JobFault
    ensures said { IsSaid (kind_of error.now) result }
    ensures memory { kind_of error.now ≡ ErrorKind.OutOfMemory → result ≡ Memory }
{
    match error.to_string(alloc) {
        Ok(text) => match error.kind() {
            ErrorKind::DisplayHelp | ErrorKind::DisplayVersion => JobFault::Help(text),
            ErrorKind::OutOfMemory => JobFault::Memory,
            _ => JobFault::Refused(text),
        },
        Err(_) => JobFault::Memory,
    }
}
