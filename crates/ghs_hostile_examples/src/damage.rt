//! Texts and command lines damaged at random, and prefixes of good ones: each answers a text or one named fault.
ghost use Rattle.ghs_commands.specs.Job.{IsWithinLimits};

use ghs_answers::fault::ServeFault;
use ghs_cli::serve::serve;
use ghs_commands::job::{Job, JobFault, read_job};
use ghs_gr::device::Device;
use ghs_test_graphs::graphs::{EQUAL_TRIANGLE, LONE_NODE, PAIR, PATH_OF_FIVE, TWO_PAIRS_AND_NODE};
use ghs_test_graphs::traces::PAIR_TRACE;
use peer_schedule::schedule::Schedule;
use std::alloc::{AllocError, Global};
use std::process::Abort;
use std::sync::Wait;
use std::test::Fail;
use std::thread::Threads;

/// How many texts of each kind are damaged.
const TRIALS: u32 = 100_000;

/// Graphs that are accepted; stored runs are of the first.
const GRAPHS: [&str; 8] = [
    PAIR,
    "c x\r\np sp  2 1\r\n\r\na\t1 2\t5",
    LONE_NODE,
    EQUAL_TRIANGLE,
    PATH_OF_FIVE,
    TWO_PAIRS_AND_NODE,
    "p sp 3 2\na 1 2 0\na 2 3 4294967295\n",
    "p sp 2 3\na 1 2 5\na 1 2 6\na 1 1 6\n",
];

/// Command lines that are taken.
const LINES: [&str; 7] = [
    "tree five.gr",
    "run --seed 7 --wake first --turns 3 --print trace five.gr",
    "run --workers 2 --progress --print report",
    "replay --wake all run.trace five.gr",
    "steps --json --node 3 --from 5 --to 9 run.trace",
    "sweep --seeds 1..9 --schedule patient --workers 4",
    "view five.gr --trace run.trace --from 5",
];

/// Pieces that formats speak of.
const PIECES: [&str; 26] = [
    "",
    " ",
    "\n",
    "\r",
    "\t",
    "\n\n",
    "p",
    "a",
    "c",
    "p sp",
    "wake ",
    "take ",
    "trace ",
    "0",
    "1",
    "9",
    "-1",
    "+1",
    "5 6",
    "--",
    "=",
    "1048577",
    "8388609",
    "4294967296",
    "1099511627777",
    "\0",
];

/// A number below a bound, 0 where it is 0.
fn below(dice: &mut Schedule, bound: usize) -> usize {
    dice.pick(bound.max(1))
}

/// The text with one place damaged: a byte another, a part cut out or said again, a piece put in, or the end cut off.
fn damaged(alloc: Global, dice: &mut Schedule, text: &[u8]) -> Result<Vec<u8>, AllocError> {
    let from = below(dice, text.len());
    let start = below(dice, text.len());
    let byte = [(below(dice, 256) % 256) as u8];
    let (to, put) = match below(dice, 6) {
        0 => (from.saturating_add(1), byte.as_slice()),
        1 => (from.saturating_add(below(dice, 9)), b"".as_slice()),
        2 => (from, text.get(start..).unwrap_or(b"")),
        3 => (text.len(), b"".as_slice()),
        _ => {
            let piece = PIECES[below(dice, PIECES.len()) % PIECES.len()];
            (from.saturating_add(below(dice, 3)), piece.as_bytes())
        }
    };
    let mut whole = Vec::new(alloc);
    whole.extend_from_slice(text.get(..from).unwrap_or(text))?;
    whole.extend_from_slice(put)?;
    whole.extend_from_slice(text.get(to..).unwrap_or(b""))?;
    Ok(whole)
}

/// The text with one place damaged or two.
fn much_damaged(alloc: Global, dice: &mut Schedule, text: &[u8]) -> Result<Vec<u8>, AllocError> {
    let once = damaged(alloc, dice, text)?;
    match below(dice, 3) {
        0 => damaged(alloc, dice, &once),
        _ => Ok(once),
    }
}

/// How many answers were texts, and how many were faults.
#[derive(Clone, Copy, Drop)]
struct Tally {
    texts: u32,
    faults: u32,
}

const NONE: Tally = Tally {
    texts: 0,
    faults: 0,
};

/// What a task answers of two texts, and what it writes.
fn answer_of<R: Threads + Wait + Eprint + Sync>(
    rt: &R,
    alloc: Global,
    job: &Job,
    graph: &[u8],
    stored: &[u8],
) -> (Result<(), ServeFault>, Vec<u8>)
    requires { IsWithinLimits job.now.task }
{
    let mut graph = Device::of(graph);
    let mut trace = Device::of(stored);
    let mut written = Vec::new(alloc);
    let mut out = Device::of(&mut written);
    let answer = serve(rt, alloc, job, &mut graph, &mut trace, &mut out);
    (answer, written)
}

/// Sees that an answer is a text of whole lines, or a fault of the input, which is said in one line, and no text.
fn judge(
    rt: &impl Abort,
    alloc: Global,
    answer: &Result<(), ServeFault>,
    text: &[u8],
    tally: &mut Tally,
) {
    match answer {
        Ok(()) => {
            assert!(rt; text.ends_with(b"\n") || text.is_empty());
            tally.texts = tally.texts.saturating_add(1);
        }
        Err(fault) => {
            let line = fault.to_string(alloc).expect(rt, "memory");
            assert!(rt; text.is_empty() && !line.is_empty() && !line.contains('\n'));
            assert!(rt; fault.status() == 1 || fault.status() == 3);
            tally.faults = tally.faults.saturating_add(1);
        }
    }
}

/// Sees what two tasks answer of a graph. What is wrong with it they say alike, and a run's text begins with the tree's.
fn try_graph<R: Threads + Wait + Eprint + Sync + Abort>(
    rt: &R,
    alloc: Global,
    tree: &Job,
    run: &Job,
    graph: &[u8],
    tally: &mut Tally,
)
    requires tree { IsWithinLimits tree.now.task }
    requires run { IsWithinLimits run.now.task }
{
    let (answer, text) = answer_of(rt, alloc, tree, graph, b"");
    let (ran, report) = answer_of(rt, alloc, run, graph, b"");
    judge(rt, alloc, &answer, &text, tally);
    judge(rt, alloc, &ran, &report, tally);
    if answer.is_err() {
        assert!(rt; ran == answer);
    } else {
        assert!(rt; ran == Err(ServeFault::TurnLimit) || report.starts_with(&text));
    }
}

/// Sees what two tasks answer of a stored run. What is wrong with it they say alike; one that hasn't ended has steps.
fn try_trace<R: Threads + Wait + Eprint + Sync + Abort>(
    rt: &R,
    alloc: Global,
    replay: &Job,
    steps: &Job,
    stored: &[u8],
    tally: &mut Tally,
)
    requires replay { IsWithinLimits replay.now.task }
    requires steps { IsWithinLimits steps.now.task }
{
    let graph = PAIR.as_bytes();
    let (answer, text) = answer_of(rt, alloc, replay, graph, stored);
    let (shown, lines) = answer_of(rt, alloc, steps, graph, stored);
    judge(rt, alloc, &answer, &text, tally);
    judge(rt, alloc, &shown, &lines, tally);
    if answer.is_err() && answer != Err(ServeFault::NotEnded) {
        assert!(rt; shown == answer);
    } else {
        assert!(rt; shown.is_ok());
    }
}

/// The words of a line, if it is text.
fn words_of(alloc: Global, line: &[u8]) -> Result<Vec<String>, AllocError> {
    let mut words = Vec::new(alloc);
    if let Ok(line) = str::from_utf8(line) {
        for word in line.split(' ') {
            words.push(String::from_str(alloc, word)?)?;
        }
    }
    Ok(words)
}

/// The job of a command line that is taken.
fn job_of(rt: &impl Abort, alloc: Global, line: &str) -> Job
    ensures { IsWithinLimits result.task }
{
    let words = words_of(alloc, line.as_bytes()).expect(rt, "memory");
    read_job(alloc, &words).ok().expect(rt, "a job")
}

#[test]
fn damaged_graphs(host: HostRuntime) -> Result<(), Fail> {
    let (rt, alloc) = (&host, host.alloc());
    let tree = job_of(rt, alloc, "tree");
    let run = job_of(rt, alloc, "run --turns 200");
    let mut dice = Schedule::seeded(1);
    let mut tally = NONE;
    for _ in 0..TRIALS {
        let graph = GRAPHS[below(&mut dice, GRAPHS.len()) % GRAPHS.len()].as_bytes();
        let graph = much_damaged(alloc, &mut dice, graph)?;
        try_graph(rt, alloc, &tree, &run, &graph, &mut tally);
    }
    println!(host; "damaged graphs {} {}", tally.texts, tally.faults)?;
    assert!(rt; tally.texts > TRIALS / 20 && tally.faults > TRIALS);
    Ok(())
}

#[test]
fn damaged_traces(host: HostRuntime) -> Result<(), Fail> {
    let (rt, alloc) = (&host, host.alloc());
    let replay = job_of(rt, alloc, "replay x");
    let steps = job_of(rt, alloc, "steps x");
    let mut dice = Schedule::seeded(2);
    let mut tally = NONE;
    for _ in 0..TRIALS {
        let stored = much_damaged(alloc, &mut dice, PAIR_TRACE.as_bytes())?;
        try_trace(rt, alloc, &replay, &steps, &stored, &mut tally);
    }
    println!(host; "damaged traces {} {}", tally.texts, tally.faults)?;
    assert!(rt; tally.texts > TRIALS / 20 && tally.faults > TRIALS);
    Ok(())
}

/// Each prefix of each text.
#[test]
fn prefixes(host: HostRuntime) {
    let (rt, alloc) = (&host, host.alloc());
    let tree = job_of(rt, alloc, "tree");
    let run = job_of(rt, alloc, "run --turns 200");
    let replay = job_of(rt, alloc, "replay x");
    let steps = job_of(rt, alloc, "steps x");
    let mut tally = NONE;
    for graph in GRAPHS {
        for length in 0..graph.len() {
            let front = graph.as_bytes().get(..length).unwrap_or(b"");
            try_graph(rt, alloc, &tree, &run, front, &mut tally);
        }
    }
    for length in 0..PAIR_TRACE.len() {
        let front = PAIR_TRACE.as_bytes().get(..length).unwrap_or(b"");
        try_trace(rt, alloc, &replay, &steps, front, &mut tally);
    }
    assert!(rt; tally.texts > 0 && tally.faults > 400);
}

/// Sees that a damaged command line is a job, or that something is said of it. Whether it is a job.
fn try_line(rt: &impl Abort, alloc: Global, dice: &mut Schedule) -> bool {
    let line = LINES[below(dice, LINES.len()) % LINES.len()].as_bytes();
    let line = damaged(alloc, dice, line).expect(rt, "memory");
    let words = words_of(alloc, &line).expect(rt, "memory");
    match read_job(alloc, &words) {
        Ok(_) => true,
        Err(JobFault::Help(text) | JobFault::Refused(text)) => {
            assert!(rt; !text.is_empty());
            false
        }
        Err(JobFault::Memory) => panic!(rt; "memory"),
    }
}

#[test]
fn damaged_command_lines(host: HostRuntime) -> Result<(), Fail> {
    let (rt, alloc) = (&host, host.alloc());
    let mut dice = Schedule::seeded(9);
    let mut jobs = 0u32;
    for _ in 0..TRIALS {
        if try_line(rt, alloc, &mut dice) {
            jobs = jobs.saturating_add(1);
        }
    }
    assert!(rt; jobs > TRIALS / 20 && jobs < TRIALS);
    println!(host; "damaged command lines {jobs} {}", TRIALS - jobs)?;
    Ok(())
}
