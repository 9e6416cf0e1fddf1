//! Command lines and whole tasks, from bytes to bytes.
ghost use Rattle.ghs_commands.specs.Job.{IsWithinLimits};

use ghs_answers::fault::ServeFault;
use ghs_cli::serve::serve;
use ghs_commands::job::{Job, JobFault, read_job};
use ghs_gr::device::Device;
use ghs_refusing::orders::{Turn, order, refuse, turn_of};
use ghs_refusing::scenes::TEXT;
use ghs_test_graphs::graphs::PATH_OF_FIVE;
use ghs_test_graphs::traces::PATH_OF_FIVE_TRACE;
use std::alloc::{AllocError, Global};
use std::process::Abort;
use std::sync::Wait;
use std::test::Fail;
use std::thread::Threads;

/// The words of a line.
fn words_of(alloc: Global, line: &str) -> Result<Vec<String>, AllocError> {
    let mut words = Vec::new(alloc);
    for word in line.split(' ') {
        words.push(String::from_str(alloc, word)?)?;
    }
    Ok(words)
}

/// A command line is a job or refused, or there was no memory to say so.
fn read(rt: &impl Abort, alloc: Global, line: &str, k: usize) -> Turn {
    let words = words_of(alloc, line).expect(rt, "memory");
    order(alloc, k);
    let answer = match read_job(alloc, &words) {
        Err(JobFault::Memory) => Err(AllocError),
        _ => Ok(()),
    };
    turn_of(alloc, k, &answer)
}

/// What a task of a command line answers, with the k-th allocation refused, and what it writes.
fn do_task<R: Threads + Wait + Eprint + Sync + Abort>(
    rt: &R,
    alloc: Global,
    job: &Job,
    k: usize,
) -> (Turn, Vec<u8>)
    requires { IsWithinLimits job.now.task }
{
    let mut graph = Device::of(PATH_OF_FIVE.as_bytes());
    let mut trace = Device::of(PATH_OF_FIVE_TRACE.as_bytes());
    let mut held = Vec::with_capacity(alloc, 1 << 18).expect(rt, "memory");
    let mut out = Device::of(&mut held);
    order(alloc, k);
    let answer = serve(rt, alloc, job, &mut graph, &mut trace, &mut out);
    let turn = turn_of(alloc, k, &answer);
    if let Err(fault) = answer {
        assert!(rt; fault == ServeFault::Memory || fault == ServeFault::NoThread);
        assert!(rt; fault.status() == 4);
    }
    (turn, held)
}

/// A task of a command line; refused, it has written nothing, and done again it writes what it writes where nothing is
/// refused. That begins as is said.
fn refuse_task<R: Threads + Wait + Eprint + Sync + Abort>(
    rt: &R,
    alloc: Global,
    line: &str,
    front: &str,
    k: usize,
) -> Turn {
    let words = words_of(alloc, line).expect(rt, "memory");
    let job = read_job(alloc, &words).ok().expect(rt, "a job");
    let (turn, text) = do_task(rt, alloc, &job, k);
    let (again, whole) = do_task(rt, alloc, &job, 0);
    assert!(rt; again != Turn::Refused && whole.starts_with(front.as_bytes()));
    match turn {
        Turn::Refused => assert!(rt; text.is_empty()),
        _ => assert!(rt; text == whole),
    }
    turn
}

#[test]
fn command_lines(host: HostRuntime) -> Result<(), Fail> {
    let (rt, alloc) = (&host, host.alloc());
    for line in [
        "tree five.gr",
        "run --seed 7 --wake first --turns 3 --print trace five.gr",
        "replay --wake all run.trace five.gr",
        "run --seed x",
        "forest",
        "--help",
    ] {
        let name = format!(in alloc; "read_job({line})")?;
        refuse(rt, alloc, &name, |k| read(rt, alloc, line, k))?;
    }
    Ok(())
}

/// The tree of the five nodes.
const TREE: &str = "t 1 2 1\nt 2 3 2\nt 4 5 3\nt 3 4 4\nw 10\n";

/// Command lines of tasks that run a network or play a run again, and how their texts begin.
const TASKS: [(&str, &str); 6] = [
    ("tree", TREE),
    ("run --seed 7", TEXT),
    ("run --seed 7 --print trace", "trace "),
    ("run --schedule patient", TEXT),
    ("run --workers 2", TEXT),
    ("replay x", TEXT),
];

/// Command lines of tasks that show runs.
const SHOWS: [(&str, &str); 6] = [
    ("steps x", "1 "),
    ("steps --json --node 3 x", "{\"step\":1,\"node\":3,"),
    (
        "sweep --seeds 1..3 --workers 2",
        "seed,protocol,schedule,wake,nodes,",
    ),
    ("sweep --seeds 1..3 --print summary", "measure,runs,min,"),
    ("view --seed 7", "<!doctype html>"),
    ("view --trace x", "<!doctype html>"),
];

/// Refuses each allocation of each task.
fn refuse_tasks<R: Threads + Wait + Eprint + Sync + Abort + Print>(
    rt: &R,
    alloc: Global,
    tasks: &[(&str, &str)],
) -> Result<(), Fail> {
    for (line, front) in tasks.iter() {
        let name = format!(in alloc; "serve({line})")?;
        refuse(rt, alloc, &name, |k| refuse_task(rt, alloc, line, front, k))?;
    }
    Ok(())
}

#[test]
fn tasks(host: HostRuntime) -> Result<(), Fail> {
    refuse_tasks(&host, host.alloc(), &TASKS)
}

#[test]
fn tasks_that_show(host: HostRuntime) -> Result<(), Fail> {
    refuse_tasks(&host, host.alloc(), &SHOWS)
}
