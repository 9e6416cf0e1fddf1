//! Readers and writers that fail after any number of bytes, or move few bytes at a time.
ghost use Rattle.ghs_commands.specs.Job.{IsWithinLimits};
ghost use Rattle.std.specs.Io.KnownBytes.{ReadConsumes, WriteAppends};
ghost use Rattle.std.specs.Io.{ReadsAtMost, WritesAtMost};

use ghs_answers::fault::ServeFault;
use ghs_cli::serve::serve;
use ghs_commands::job::{Job, read_job};
use ghs_gr::device::Device;
use ghs_test_graphs::graphs::TRIANGLE;
use ghs_test_graphs::traces::TRIANGLE_TRACE;
use std::alloc::{AllocError, Global};
use std::io;
use std::io::{Read, Write};
use std::process::Abort;
use std::sync::Wait;
use std::test::Fail;
use std::thread::Threads;

/// A reader that gives at most so many bytes a call, and fails at the end where it is broken.
#[derive(Drop)]
struct Slow<'a> {
    bytes: &'a [u8],
    pace: usize,
    is_broken: bool,
}

impl Read for Slow<'_> {
    fn read(&mut self, room: &mut [u8]) -> io::Result<usize> {
        if self.bytes.is_empty() && self.is_broken {
            return Err(io::Error::from(io::ErrorKind::Other));
        }
        let pace = self.pace.min(room.len());
        let mut bytes = self.bytes;
        let count = bytes.read(&mut room[..pace])?;
        self.bytes = bytes;
        Ok(count)
    }
}

/// A writer that takes at most so many bytes a call and so many in all; then it fails, or takes none.
#[derive(Drop)]
struct Small {
    held: Vec<u8>,
    pace: usize,
    room: usize,
    fails: bool,
}

impl Write for Small {
    fn write(&mut self, bytes: &[u8]) -> io::Result<usize> {
        let count = self.room.min(self.pace).min(bytes.len());
        if count == 0 && self.fails {
            return Err(io::Error::from(io::ErrorKind::Other));
        }
        self.held.extend_from_slice(&bytes[..count])?;
        self.room -= count;
        Ok(count)
    }

    fn flush(&mut self) -> io::Result<()> {
        Ok(())
    }
}

/// How the devices of a task are: how many bytes they move at a time, after how many bytes of the graph or of the stored
/// run the reader fails, if it does, and how the writer ends.
#[derive(Clone, Copy)]
struct Ways {
    pace: usize,
    graph: Option<usize>,
    trace: Option<usize>,
    room: usize,
    fails: bool,
}

/// More than any text here has.
const AMPLE: usize = 1 << 20;

const WHOLE: Ways = Ways {
    pace: AMPLE,
    graph: None,
    trace: None,
    room: AMPLE,
    fails: true,
};

/// A text by a reader that is whole, or fails after so many bytes.
fn reader(text: &str, pace: usize, fails_after: Option<usize>) -> Slow<'_> {
    let bytes = text.as_bytes();
    Slow {
        bytes: bytes
            .get(..fails_after.unwrap_or(bytes.len()))
            .unwrap_or(bytes),
        pace,
        is_broken: fails_after.is_some(),
    }
}

/// What a task answers over such devices, and what it writes.
fn answer_of<R: Threads + Wait + Eprint + Sync>(
    rt: &R,
    alloc: Global,
    job: &Job,
    ways: Ways,
) -> (Result<(), ServeFault>, Vec<u8>)
    requires { IsWithinLimits job.now.task }
{
    let mut graph = Device::of(reader(TRIANGLE, ways.pace, ways.graph));
    let mut trace = Device::of(reader(TRIANGLE_TRACE, ways.pace, ways.trace));
    let mut small = Small {
        held: Vec::new(alloc),
        pace: ways.pace,
        room: ways.room,
        fails: ways.fails,
    };
    let mut out = Device::of(&mut small);
    let answer = serve(rt, alloc, job, &mut graph, &mut trace, &mut out);
    (answer, small.held)
}

/// Sees that over such readers a task answers that its input can't be read, and writes nothing.
fn assert_unread<R: Threads + Wait + Eprint + Sync + Abort>(
    rt: &R,
    alloc: Global,
    job: &Job,
    ways: Ways,
)
    requires { IsWithinLimits job.now.task }
{
    let (answer, text) = answer_of(rt, alloc, job, ways);
    assert!(rt; answer == Err(ServeFault::Read) && text.is_empty());
}

/// Sees that a task whose input can't be read to its end says so, wherever a reader fails, behind the last byte too.
fn fail_to_read<R: Threads + Wait + Eprint + Sync + Abort>(rt: &R, alloc: Global, job: &Job)
    requires { IsWithinLimits job.now.task }
{
    for length in 0..TRIANGLE.len() + 1 {
        let graph = Some(length);
        assert_unread(rt, alloc, job, Ways { graph, ..WHOLE });
    }
    if job.trace.is_none() {
        return;
    }
    for length in 0..TRIANGLE_TRACE.len() + 1 {
        let trace = Some(length);
        assert_unread(rt, alloc, job, Ways { trace, ..WHOLE });
    }
}

/// Sees that a task whose text can't be written to its end says how much is out, and that just so much is.
fn fail_to_write<R: Threads + Wait + Eprint + Sync + Abort>(
    rt: &R,
    alloc: Global,
    job: &Job,
    text: &[u8],
)
    requires { IsWithinLimits job.now.task }
{
    // Each place of a text of some pages, and some thousand of a longer one.
    for room in (0..text.len()).step_by(text.len() / 4096 + 1) {
        for (fails, pace) in [(true, AMPLE), (false, 7)] {
            let ways = Ways {
                room,
                fails,
                pace,
                ..WHOLE
            };
            let (answer, front) = answer_of(rt, alloc, job, ways);
            let written = room as u128;
            assert!(rt; answer == Err(ServeFault::Write { written }));
            assert!(rt; front.len() == room && text.starts_with(&front));
        }
    }
}

/// Sees that a task prints the same over devices that move few bytes at a time.
fn go_slowly<R: Threads + Wait + Eprint + Sync + Abort>(
    rt: &R,
    alloc: Global,
    job: &Job,
    text: &[u8],
)
    requires { IsWithinLimits job.now.task }
{
    for pace in 1..9 {
        let (answer, same) = answer_of(rt, alloc, job, Ways { pace, ..WHOLE });
        assert!(rt; answer.is_ok() && same.as_slice() == text);
    }
}

/// The words of a line.
fn words_of(alloc: Global, line: &str) -> Result<Vec<String>, AllocError> {
    let mut words = Vec::new(alloc);
    for word in line.split(' ') {
        words.push(String::from_str(alloc, word)?)?;
    }
    Ok(words)
}

/// Command lines of tasks that read a graph, or a graph and a stored run.
const LINES: [&str; 9] = [
    "tree",
    "run",
    "run --print trace",
    "replay x",
    "steps x",
    "steps --json x",
    "sweep --seeds 1..3",
    "sweep --seeds 1..3 --print summary",
    "view --trace x",
];

#[test]
fn failing_devices(host: HostRuntime) -> Result<(), Fail> {
    let (rt, alloc) = (&host, host.alloc());
    for line in LINES {
        let words = words_of(alloc, line)?;
        let job = read_job(alloc, &words).ok().expect(rt, "a job");
        let (answer, text) = answer_of(rt, alloc, &job, WHOLE);
        assert!(rt; answer.is_ok() && !text.is_empty());
        go_slowly(rt, alloc, &job, &text);
        fail_to_read(rt, alloc, &job);
        fail_to_write(rt, alloc, &job, &text);
        println!(host; "failing {line} {}", text.len())?;
    }
    Ok(())
}
