//! The words that the program takes.
ghost use Rattle.clap.specs.Words.{App, app_of, new_app, rule_of, with_subcommand};
ghost use Rattle.clap.specs.declared.builder.command.Command.TheViews.{out-Command};
ghost use Rattle.ghs_commands.specs.Grammar.{by_rule, check_rule, core_rule, end_rule, explore_command, file_rule, book_rule, judge_command, files_rule, flag_rule, found_rule, from_rule, json_rule, kind_rule, limit_rule, links_rule, make_command, names_rule, node_rule, own_rule, nodes_rule, option_rule, pair_rule, place_rule, print_rule, program, progress_rule, protocol_rule, protocols_rule, replay_command, run_command, schedule_rule, seed_rule, seeds_rule, sheet_rule, steps_command, sweep_command, tally_rule, to_rule, trace_rule, tree_command, turns_rule, valued_rule, view_command, wake_rule, weights_rule, with_rules, workers_rule, stored_rule};
ghost use Rattle.std.specs.List.{All};
ghost use Rattle.std.specs.Prelude.{◌≡◌, IfOk, false, map};

use clap::{Arg, ArgAction, Command};
use std::alloc::{AllocError, Global};

/// The program's version, and by which kit its proofs hold.
pub const VERSION: &str = "2.7.0, proved with rattle-kit-13f logic dac8208d650f15bf";

/// The program's commands, with their help.
#[tactic(auto, unfolding(crate::specs::Grammar::program))]
pub fn program<'a>(alloc: Global) -> Result<Command<'a>, AllocError>
    ensures { IfOk result (λ command. app_of command ≡ program) }
{
    let command = Command::new(alloc, "ghs")
        .about("Minimum spanning trees of networks")
        .version(VERSION)
        .subcommand_required(true);
    let command = with_command(with_runs(alloc, command)?, judge(alloc))?;
    with_shows(alloc, command)
}

/// What runs a network, and plays a run again.
fn with_runs<'a>(alloc: Global, command: Command<'a>) -> Result<Command<'a>, AllocError>
    ensures { IfOk result (λ r. app_of r ≡ with_subcommand (with_subcommand (with_subcommand (with_subcommand (app_of command.entry) tree_command.top) run_command.top) replay_command.top) steps_command.top) }
{
    let command = with_command(command, tree(alloc))?;
    let command = with_command(command, run(alloc))?;
    let command = with_command(command, replay(alloc))?;
    with_command(command, steps(alloc))
}

/// What shows many runs or one, makes networks and explores them.
fn with_shows<'a>(alloc: Global, command: Command<'a>) -> Result<Command<'a>, AllocError>
    ensures { IfOk result (λ r. app_of r ≡ with_subcommand (with_subcommand (with_subcommand (with_subcommand (app_of command.entry) sweep_command.top) view_command.top) make_command.top) explore_command.top) }
{
    let command = with_command(command, sweep(alloc))?;
    let command = with_command(command, view(alloc))?;
    let command = with_command(command, make(alloc))?;
    with_command(command, explore(alloc))
}

/// The command with one more, where there was memory for that. It takes what made it, so that no caller has both in hand
/// where memory runs out: each way out of a function has the drops of all that it holds, and a command's are many.
fn with_command<'a>(
    command: Command<'a>,
    subcommand: Result<Command<'a>, AllocError>,
) -> Result<Command<'a>, AllocError>
    requires { IfOk subcommand (λ s. (out-Command s).has_globals ≡ false) }
    ensures { (app : App) → IfOk subcommand.entry (λ s. app_of s ≡ app) → IfOk result (λ r. app_of r ≡ with_subcommand (app_of command.entry) app.top) }
{
    Ok(command.subcommand(subcommand?)?)
}

/// `ghs tree`.
fn tree<'a>(alloc: Global) -> Result<Command<'a>, AllocError>
    ensures local { IfOk result (λ command. (out-Command command).has_globals ≡ false) }
    ensures app { IfOk result (λ command. app_of command ≡ tree_command) }
{
    let arguments = vec![in alloc; file(alloc), core(alloc)]?;
    Ok(command(
        alloc,
        "tree",
        "Prints the minimum spanning forest of a graph",
        arguments,
    )?)
}

/// `ghs run`.
fn run<'a>(alloc: Global) -> Result<Command<'a>, AllocError>
    ensures local { IfOk result (λ command. (out-Command command).has_globals ≡ false) }
    ensures app { IfOk result (λ command. app_of command ≡ run_command) }
{
    let arguments = vec![in alloc;
        file(alloc),
        protocol(alloc),
        rule_book(alloc),
        check(alloc),
        seed(alloc),
        schedule(alloc),
        workers(alloc),
        wake(alloc),
        turns(alloc),
        print(alloc),
        core(alloc),
        progress(alloc),
        tally(alloc),
    ]?;
    Ok(command(
        alloc,
        "run",
        "Runs the network of a graph, event by event, by the schedule of a seed or by threads",
        arguments,
    )?)
}

/// `ghs replay`.
fn replay<'a>(alloc: Global) -> Result<Command<'a>, AllocError>
    ensures local { IfOk result (λ command. (out-Command command).has_globals ≡ false) }
    ensures app { IfOk result (λ command. app_of command ≡ replay_command) }
{
    let arguments = vec![in alloc;
        trace(alloc),
        file(alloc),
        protocol(alloc),
        rule_book(alloc),
        check(alloc),
        wake(alloc),
    ]?;
    Ok(command(
        alloc,
        "replay",
        "Plays a stored run again, event by event",
        arguments,
    )?)
}

/// `ghs steps`.
fn steps<'a>(alloc: Global) -> Result<Command<'a>, AllocError>
    ensures local { IfOk result (λ command. (out-Command command).has_globals ≡ false) }
    ensures app { IfOk result (λ command. app_of command ≡ steps_command) }
{
    let arguments = vec![in alloc;
        trace(alloc),
        file(alloc),
        protocol(alloc),
        rule_book(alloc),
        wake(alloc),
        from(alloc),
        to(alloc),
        node(alloc),
        json(alloc),
    ]?;
    Ok(command(
        alloc,
        "steps",
        "Prints one line for each event of a stored run: what the event does",
        arguments,
    )?)
}

/// `ghs judge`.
fn judge<'a>(alloc: Global) -> Result<Command<'a>, AllocError>
    ensures local { IfOk result (λ command. (out-Command command).has_globals ≡ false) }
    ensures app { IfOk result (λ command. app_of command ≡ judge_command) }
{
    let arguments = vec![in alloc; trace(alloc), file(alloc), book(alloc), wake(alloc)]?;
    Ok(command(
        alloc,
        "judge",
        "Compares a node of your own with the protocol, event by event of a stored run",
        arguments,
    )?)
}

/// `ghs sweep`.
fn sweep<'a>(alloc: Global) -> Result<Command<'a>, AllocError>
    ensures local { IfOk result (λ command. (out-Command command).has_globals ≡ false) }
    ensures app { IfOk result (λ command. app_of command ≡ sweep_command) }
{
    let arguments = vec![in alloc;
        files(alloc),
        protocols(alloc),
        rule_book(alloc),
        check(alloc),
        seeds(alloc),
        schedule(alloc),
        sharers(alloc),
        wake(alloc),
        turns(alloc),
        sheet(alloc),
        by(alloc),
        names(alloc),
        json(alloc),
        seeds_told(alloc),
    ]?;
    Ok(command(
        alloc,
        "sweep",
        "Runs networks by the schedules of many seeds, and prints a line of figures for each run, or statistics of all runs",
        arguments,
    )?)
}

/// `ghs view`.
fn view<'a>(alloc: Global) -> Result<Command<'a>, AllocError>
    ensures local { IfOk result (λ command. (out-Command command).has_globals ≡ false) }
    ensures app { IfOk result (λ command. app_of command ≡ view_command) }
{
    let arguments = vec![in alloc;
        file(alloc),
        protocol(alloc),
        rule_book(alloc),
        seed(alloc),
        pair(alloc),
        schedule(alloc),
        wake(alloc),
        turns(alloc),
        stored(alloc),
        from(alloc),
        to(alloc),
    ]?;
    Ok(command(
        alloc,
        "view",
        "Prints a run, or two runs side by side, as one page for a browser",
        arguments,
    )?)
}

/// `ghs make`.
fn make<'a>(alloc: Global) -> Result<Command<'a>, AllocError>
    ensures local { IfOk result (λ command. (out-Command command).has_globals ≡ false) }
    ensures app { IfOk result (λ command. app_of command ≡ make_command) }
{
    let arguments = vec![in alloc;
        kind(alloc),
        nodes(alloc),
        maker(alloc),
        links(alloc),
        weights(alloc),
    ]?;
    Ok(command(
        alloc,
        "make",
        "Makes a network of a kind, and prints it in the .gr format",
        arguments,
    )?)
}

/// `ghs explore`.
fn explore<'a>(alloc: Global) -> Result<Command<'a>, AllocError>
    ensures local { IfOk result (λ command. (out-Command command).has_globals ≡ false) }
    ensures app { IfOk result (λ command. app_of command ≡ explore_command) }
{
    let arguments = vec![in alloc;
        file(alloc),
        protocol(alloc),
        own(alloc),
        check(alloc),
        wake(alloc),
        limit(alloc),
        found(alloc),
        end(alloc),
        states_told(alloc),
    ]?;
    Ok(command(
        alloc,
        "explore",
        "Explores all runs of a small network, and prints how many messages they send",
        arguments,
    )?)
}

/// A command of a name, with what it is about and its arguments.
fn command<'a>(
    alloc: Global,
    name: &'a str,
    about: &'a str,
    arguments: Vec<Arg<'a>>,
) -> Result<Command<'a>, AllocError>
    requires { All (λ a. a.global ≡ false) arguments.items }
    ensures local { IfOk result (λ r. (out-Command r).has_globals ≡ false) }
    ensures app { IfOk result (λ r. app_of r ≡ with_rules (map rule_of arguments.entry.items) (new_app name.entry.now)) }
{
    Ok(Command::new(alloc, name).about(about).args(arguments)?)
}

/// How many states there may be.
fn limit<'a>(alloc: Global) -> Arg<'a>
    ensures local { result.global ≡ false }
    ensures rule { rule_of result ≡ limit_rule }
{
    option(alloc, "limit", "1000000").help(
        "How many states the search may meet, 1 to 10000000; if there are more, it gives no answer",
    )
}

/// What of an exploration is printed.
fn found<'a>(alloc: Global) -> Arg<'a>
    ensures local { result.global ≡ false }
    ensures rule { rule_of result ≡ found_rule }
{
    valued(alloc, "found", "print").default_value("report").help(
        "What is printed. report: the counts of messages that runs end with; trace: the events of a run that ends with those of --end",
    )
}

/// Whose run is printed.
fn end<'a>(alloc: Global) -> Arg<'a>
    ensures local { result.global ≡ false }
    ensures rule { rule_of result ≡ end_rule }
{
    option(alloc, "end", "1").help("The number of the report's line whose run is printed")
}

/// The kind of the network.
fn kind<'a>(alloc: Global) -> Arg<'a>
    ensures local { result.global ≡ false }
    ensures rule { rule_of result ≡ kind_rule }
{
    place(alloc, "KIND").help(
        "The kind: path, ring, star, grid, complete, tree, random, road, forest, slow, busy, farcore or chainwake",
    )
}

/// How many nodes it has.
fn nodes<'a>(alloc: Global) -> Arg<'a>
    ensures local { result.global ≡ false }
    ensures rule { rule_of result ≡ nodes_rule }
{
    place(alloc, "NODES").help("How many nodes it has, 1 to 1048576")
}

/// A word that has to stand at its place.
fn place<'a>(alloc: Global, name: &'a str) -> Arg<'a>
    ensures local { result.global ≡ false }
    ensures rule { rule_of result ≡ place_rule name.entry.now }
{
    Arg::new(alloc, name).required(true)
}

/// What picks its links and weights.
fn maker<'a>(alloc: Global) -> Arg<'a>
    ensures local { result.global ≡ false }
    ensures rule { rule_of result ≡ seed_rule }
{
    option(alloc, "seed", "1").help("The number that picks links and weights")
}

/// How many links it has.
fn links<'a>(alloc: Global) -> Arg<'a>
    ensures local { result.global ≡ false }
    ensures rule { rule_of result ≡ links_rule }
{
    valued(alloc, "links", "links").help(
        "How many links a random network or a forest has; by default two per node, and in a forest three per four nodes",
    )
}

/// How they weigh.
fn weights<'a>(alloc: Global) -> Arg<'a>
    ensures local { result.global ≡ false }
    ensures rule { rule_of result ≡ weights_rule }
{
    valued(alloc, "weights", "weights").help(
        "How links weigh: random, rising, falling or equal; by default random. slow, busy, farcore and chainwake have weights of their own",
    )
}

/// The stored run's file.
fn trace<'a>(alloc: Global) -> Arg<'a>
    ensures local { result.global ≡ false }
    ensures rule { rule_of result ≡ trace_rule }
{
    Arg::new(alloc, "TRACE")
        .help("The stored run, as the text of its events; - is standard input")
        .required(true)
}

/// The book's file.
fn book<'a>(alloc: Global) -> Arg<'a>
    ensures local { result.global ≡ false }
    ensures rule { rule_of result ≡ book_rule }
{
    valued(alloc, "book", "book").required(true).help(
        "The file of the book: what your node answers, in lines QUESTION = ANSWER",
    )
}

/// The book's file, where all runs are compared with one.
fn own<'a>(alloc: Global) -> Arg<'a>
    ensures local { result.global ≡ false }
    ensures rule { rule_of result ≡ own_rule }
{
    valued(alloc, "book", "book").help(
        "The book by which the nodes go, with --protocol own; without it the book of ghs judge: compares a node of your own with the protocol in all runs, and prints that alone",
    )
}

/// The book's file, where it has the rules of a protocol of the user's own.
fn rule_book<'a>(alloc: Global) -> Arg<'a>
    ensures local { result.global ≡ false }
    ensures rule { rule_of result ≡ own_rule }
{
    valued(alloc, "book", "book").help("The book by which the nodes go, with --protocol own")
}

/// What the end of a run is checked for.
fn check<'a>(alloc: Global) -> Arg<'a>
    ensures local { result.global ≡ false }
    ensures rule { rule_of result ≡ check_rule }
{
    valued(alloc, "check", "check").help(
        "What the end of a run is checked for, with --protocol own: tree (the links that both ends mark are the minimum spanning forest), spanning (the marked links are a spanning forest), leader (each component has one) or halted (every node has)",
    )
}

/// The number of the first event that is shown.
fn from<'a>(alloc: Global) -> Arg<'a>
    ensures local { result.global ≡ false }
    ensures rule { rule_of result ≡ from_rule }
{
    option(alloc, "from", "1").help("The number of the first event to show, counted from 1")
}

/// The number of the last.
fn to<'a>(alloc: Global) -> Arg<'a>
    ensures local { result.global ≡ false }
    ensures rule { rule_of result ≡ to_rule }
{
    option(alloc, "to", "1099511627776").help("The number of the last event to show")
}

/// Whose events are shown.
fn node<'a>(alloc: Global) -> Arg<'a>
    ensures local { result.global ≡ false }
    ensures rule { rule_of result ≡ node_rule }
{
    valued(alloc, "node", "node").help("Shows the events of this node only")
}

/// Whether the lines are JSON.
fn json<'a>(alloc: Global) -> Arg<'a>
    ensures local { result.global ≡ false }
    ensures rule { rule_of result ≡ json_rule }
{
    flag(alloc, "json", "Prints the lines as JSON")
}

/// The graph's file.
fn file<'a>(alloc: Global) -> Arg<'a>
    ensures local { result.global ≡ false }
    ensures rule { rule_of result ≡ file_rule }
{
    Arg::new(alloc, "FILE").help(
        "The graph, in the .gr format; standard input if it is - or left out",
    )
}

/// The graphs' files.
fn files<'a>(alloc: Global) -> Arg<'a>
    ensures local { result.global ≡ false }
    ensures rule { rule_of result ≡ files_rule }
{
    Arg::new(alloc, "FILE").action(ArgAction::Append).help(
        "The graphs, in the .gr format; standard input for -, or if none is named",
    )
}

/// Whether lines begin with the name of their graph where one is swept.
fn names<'a>(alloc: Global) -> Arg<'a>
    ensures local { result.global ≡ false }
    ensures rule { rule_of result ≡ names_rule }
{
    flag(
        alloc,
        "names",
        "Begins each line with the name of the graph's file, as with several files",
    )
}

/// Which schedule picks the events.
fn seed<'a>(alloc: Global) -> Arg<'a>
    ensures local { result.global ≡ false }
    ensures rule { rule_of result ≡ seed_rule }
{
    option(alloc, "seed", "1").help("The number that picks the order of the events")
}

/// Whose schedules pick the runs of a sweep.
fn seeds<'a>(alloc: Global) -> Arg<'a>
    ensures local { result.global ≡ false }
    ensures rule { rule_of result ≡ seeds_rule }
{
    valued(alloc, "seeds", "seeds").required(true).help(
        "The seeds, FIRST..LAST, both included, 1000000 of them at most",
    )
}

/// Whose schedules pick the two runs of a page.
fn pair<'a>(alloc: Global) -> Arg<'a>
    ensures local { result.global ≡ false }
    ensures rule { rule_of result ≡ pair_rule }
{
    valued(alloc, "pair", "seeds").help(
        "Two seeds, FIRST,SECOND, whose runs are shown side by side, in place of the run of --seed",
    )
}

/// How many threads share the runs of a sweep.
fn sharers<'a>(alloc: Global) -> Arg<'a>
    ensures local { result.global ≡ false }
    ensures rule { rule_of result ≡ workers_rule }
{
    option(alloc, "workers", "0").help(
        "How many threads share the runs, 0 to 64; 0 means 1. The output is the same for each number",
    )
}

/// Among which events it picks them.
fn schedule<'a>(alloc: Global) -> Arg<'a>
    ensures local { result.global ≡ false }
    ensures rule { rule_of result ≡ schedule_rule }
{
    option(alloc, "schedule", "seeded").help(
        "How the seed picks the next event. seeded: among all that may happen; patient: among those that don't only defer a message; rounds: among those of them whose message arrives in the round; waits: among those that only defer a message, while there are any, so such a run may use up its turns; lifo: that of the port to which a message was sent last; round-robin: each port that holds a message in turn, and the seed has no effect",
    )
}

/// Which protocol the nodes follow.
fn protocol<'a>(alloc: Global) -> Arg<'a>
    ensures local { result.global ≡ false }
    ensures rule { rule_of result ≡ protocol_rule }
{
    option(alloc, "protocol", "ghs").help(
        "Which protocol the nodes follow: ghs, boruvka (Borůvka in step), echo (the echo wave), gather (Gather) or own (your own, whose rules are the book of --book); boruvka, echo and gather run without threads and by the schedules seeded, patient, rounds and lifo, own by seeded alone",
    )
}

/// Which protocols those of a sweep follow, one after another.
fn protocols<'a>(alloc: Global) -> Arg<'a>
    ensures local { result.global ≡ false }
    ensures rule { rule_of result ≡ protocols_rule }
{
    valued(alloc, "protocols", "protocol")
        .default_value("ghs")
        .help(
            "Which protocols the nodes follow, one or more between commas: ghs, boruvka (Borůvka in step), echo (the echo wave) and gather (Gather); the last three run by the schedules seeded, patient, rounds and lifo. Or own alone: your own, whose rules are the book of --book",
        )
}

/// How many threads take part.
fn workers<'a>(alloc: Global) -> Arg<'a>
    ensures local { result.global ≡ false }
    ensures rule { rule_of result ≡ workers_rule }
{
    option(alloc, "workers", "0").help(
        "How many threads take part, 0 to 64; with 0 the schedule picks the events",
    )
}

/// How many events there may be.
fn turns<'a>(alloc: Global) -> Arg<'a>
    ensures local { result.global ≡ false }
    ensures rule { rule_of result ≡ turns_rule }
{
    option(alloc, "turns", "1099511627776").help("How many events there may be, 1 to 1099511627776")
}

/// What of a run is printed.
fn print<'a>(alloc: Global) -> Arg<'a>
    ensures local { result.global ≡ false }
    ensures rule { rule_of result ≡ print_rule }
{
    option(alloc, "print", "report").help(
        "What is printed. report: the tree and the counts; trace: the events; time: the longest chain of messages, the rounds or laps with their bound, and the bits",
    )
}

/// What of a sweep is printed.
fn sheet<'a>(alloc: Global) -> Arg<'a>
    ensures local { result.global ≡ false }
    ensures rule { rule_of result ≡ sheet_rule }
{
    valued(alloc, "sheet", "print").default_value("runs").help(
        "What is printed. runs: a line of figures for each run; summary: their range, percentiles and sums; chart: a picture of them as SVG",
    )
}

/// By which parts the messages of each run of a sweep are counted.
fn by<'a>(alloc: Global) -> Arg<'a>
    ensures local { result.global ≡ false }
    ensures rule { rule_of result ≡ by_rule }
{
    valued(alloc, "by", "by").help(
        "Prints a line for each part of a run: the messages of each node or level, or how often each rule applied; only ghs has levels",
    )
}

/// The file of a stored run, where one is shown.
fn stored<'a>(alloc: Global) -> Arg<'a>
    ensures local { result.global ≡ false }
    ensures rule { rule_of result ≡ stored_rule }
{
    valued(alloc, "TRACE", "trace").help(
        "The stored run to show, as the text of its events; - is standard input. Without it the seed's run is shown",
    )
}

/// Whether the core of each component is printed too.
fn core<'a>(alloc: Global) -> Arg<'a>
    ensures local { result.global ≡ false }
    ensures rule { rule_of result ≡ core_rule }
{
    flag(
        alloc,
        "core",
        "Prints each component's core and its level after the tree or the report",
    )
}

/// Whether it is told how far the run has come.
fn progress<'a>(alloc: Global) -> Arg<'a>
    ensures local { result.global ≡ false }
    ensures rule { rule_of result ≡ progress_rule }
{
    flag(
        alloc,
        "progress",
        "Reports on standard error how far the run has come",
    )
}

/// Whether it is told what each of the threads has done.
fn tally<'a>(alloc: Global) -> Arg<'a>
    ensures local { result.global ≡ false }
    ensures rule { rule_of result ≡ tally_rule }
{
    flag(
        alloc,
        "tally",
        "Reports on standard error, at the end, what each thread has done",
    )
}

/// Whether it is told how many of the seeds have been run.
fn seeds_told<'a>(alloc: Global) -> Arg<'a>
    ensures local { result.global ≡ false }
    ensures rule { rule_of result ≡ progress_rule }
{
    flag(
        alloc,
        "progress",
        "Reports on standard error how many seeds it has run",
    )
}

/// Whether it is told how many states have been met.
fn states_told<'a>(alloc: Global) -> Arg<'a>
    ensures local { result.global ≡ false }
    ensures rule { rule_of result ≡ progress_rule }
{
    flag(
        alloc,
        "progress",
        "Reports on standard error how many states it has met",
    )
}

/// Which nodes wake by themselves.
fn wake<'a>(alloc: Global) -> Arg<'a>
    ensures local { result.global ≡ false }
    ensures rule { rule_of result ≡ wake_rule }
{
    option(alloc, "wake", "all").help(
        "Which nodes wake by themselves: all; first, the smallest node of each component; or V,W,..: up to 16 nodes, and the smallest of each other component",
    )
}

/// An option, and its value where it isn't given.
fn option<'a>(alloc: Global, name: &'a str, default: &'a str) -> Arg<'a>
    ensures local { result.global ≡ false }
    ensures rule { rule_of result ≡ option_rule name.entry.now default.entry.now }
{
    valued(alloc, name, name).default_value(default)
}

/// An option that has no value of its own.
fn flag<'a>(alloc: Global, name: &'a str, help: &'a str) -> Arg<'a>
    ensures local { result.global ≡ false }
    ensures rule { rule_of result ≡ flag_rule name.entry.now }
{
    valued(alloc, name, name)
        .action(ArgAction::SetTrue)
        .help(help)
}

/// An option `--NAME` with a value, which the program calls by its id.
fn valued<'a>(alloc: Global, id: &'a str, name: &'a str) -> Arg<'a>
    ensures local { result.global ≡ false }
    ensures rule { rule_of result ≡ valued_rule id.entry.now name.entry.now }
{
    Arg::new(alloc, id).long(name)
}
