//! Texts of graphs, read from readers of all kinds.
use ghs_gr::device::{Device, Sink, Source};
use ghs_gr::fault::GrFault;
use ghs_gr::judgement::{judge, read_gr};
use ghs_gr::raw_graph::{Key3, RawGraph};
use ghs_gr::text::{TEXT_LIMIT, TextFault, read_text};
use ghs_test_graphs::graphs::TRIANGLE;
use std::alloc::Global;
use std::io;
use std::io::Read;
use std::process::Abort;

static FAULTS: [(&str, GrFault); 19] = [
    ("", GrFault::NoProblem),
    ("a 1 2 5", GrFault::ArcBeforeProblem(1)),
    ("a 1 2", GrFault::BadLine(1)),
    ("p max 2 1", GrFault::BadLine(1)),
    ("p sp 0 0", GrFault::Number(1)),
    ("p sp 1048577 0", GrFault::Number(1)),
    ("p sp 2 8388609", GrFault::Number(1)),
    ("p sp 2 1\np sp 2 1", GrFault::SecondProblem(2)),
    ("p sp 2 1\na 1 3 5", GrFault::NodeRange(2)),
    ("p sp 2 1\na 0 2 5", GrFault::NodeRange(2)),
    ("p sp 2 1\na 9 9 5", GrFault::NodeRange(2)),
    (
        "p sp 2 1\na 1 1 3\na 1 2 5",
        GrFault::ArcCount { said: 1, found: 2 },
    ),
    ("p sp 2 1\na 1 2 -5", GrFault::Number(2)),
    ("p sp 2 1\na +1 2 5", GrFault::Number(2)),
    ("p sp 2 1\na 4294967296 2 5", GrFault::Number(2)),
    ("p sp 2 1\na 1 2 5 6", GrFault::BadLine(2)),
    (
        "p sp 2 1\nca 1 2 5",
        GrFault::ArcCount { said: 1, found: 0 },
    ),
    ("p sp 2 2\na 1 2 5", GrFault::ArcCount { said: 2, found: 1 }),
    ("p sp 3 2\na 1 2 0\na 2 3 4294967296", GrFault::Number(3)),
];

/// So many bytes of the triangle's text, and their fault.
static FRONTS: [(usize, GrFault); 4] = [
    (7, GrFault::BadLine(1)),
    (8, GrFault::ArcCount { said: 3, found: 0 }),
    (23, GrFault::BadLine(3)),
    (31, GrFault::BadLine(4)),
];

fn assert_same_fault(rt: &impl Abort, text: &[u8], found: Option<GrFault>, fault: Option<GrFault>) {
    assert_eq!(rt; found, fault, "{text:?}");
}

/// What is wrong with a text is this, however it comes.
fn assert_fault(rt: &impl Abort, alloc: Global, text: &[u8], fault: GrFault) {
    let read = read_gr(alloc, &mut Device::of(text)).err();
    assert_same_fault(rt, text, read, Some(fault));
    let judged = judge(alloc, text).err();
    assert_same_fault(rt, text, judged, Some(fault));
}

fn assert_faults(rt: &impl Abort, alloc: Global, rows: &[(&str, GrFault)]) {
    for (text, fault) in rows {
        assert_fault(rt, alloc, text.as_bytes(), *fault);
    }
}

/// So many bytes of the triangle's text.
fn front(rt: &impl Abort, length: usize) -> &'static [u8] {
    TRIANGLE.as_bytes().get(..length).expect(rt, "a front")
}

fn assert_faults_of_fronts(rt: &impl Abort, alloc: Global, rows: &[(usize, GrFault)]) {
    for (length, fault) in rows {
        assert_fault(rt, alloc, front(rt, *length), *fault);
    }
}

#[test]
fn names_the_first_fault(rt: HostRuntime) {
    assert_faults(&rt, rt.alloc(), &FAULTS);
    assert_faults_of_fronts(&rt, rt.alloc(), &FRONTS);
}

fn assert_raw(rt: &impl Abort, graph: &RawGraph, nodes: u32, keys: &[Key3]) {
    assert_eq!(rt; graph.nodes(), nodes);
    assert_eq!(rt; graph.keys(), keys);
}

/// The graph of a text, however it comes.
fn assert_graph(rt: &impl Abort, alloc: Global, text: &[u8], nodes: u32, keys: &[Key3]) {
    let read = read_gr(alloc, &mut Device::of(text)).ok();
    assert_raw(rt, &read.expect(rt, "a graph"), nodes, keys);
    let judged = judge(alloc, text).ok();
    assert_raw(rt, &judged.expect(rt, "a graph"), nodes, keys);
}

/// Each text is of two nodes with these links.
fn assert_pairs(rt: &impl Abort, alloc: Global, texts: &[&str], keys: &[Key3]) {
    for text in texts {
        assert_graph(rt, alloc, text.as_bytes(), 2, keys);
    }
}

static OF_ONE_LINK: [&str; 5] = [
    "c x\r\np sp  2 1\r\n\na\t1 2\t5",
    "p sp 2 1\na 1 2 0000000000000000000005",
    "p sp 2 2\na 2 1 5\na 1 2 5",
    "p sp 2 2\na 1 2 5\na 1 2 5",
    "p sp 2 2\na 1 1 3\na 1 2 5",
];

static OF_TWO_LINKS: [&str; 3] = [
    "p sp 2 2\na 1 2 5\na 2 1 6",
    "p sp 2 2\na 1 2 6\na 1 2 5",
    "p sp 2 3\na 1 2 5\na 1 2 6\na 2 1 5",
];

const ONE_LINK: [Key3; 1] = [(5, 1, 2)];

const TWO_LINKS: [Key3; 2] = [(5, 1, 2), (6, 1, 2)];

#[test]
fn gives_two_nodes(rt: HostRuntime) {
    assert_pairs(&rt, rt.alloc(), &OF_ONE_LINK, &ONE_LINK);
    assert_pairs(&rt, rt.alloc(), &OF_TWO_LINKS, &TWO_LINKS);
    assert_pairs(&rt, rt.alloc(), &["p sp 2 1\na 1 1 5"], &[]);
}

#[test]
fn gives_one_node(rt: HostRuntime) {
    assert_graph(&rt, rt.alloc(), b"p sp 1 0", 1, &[]);
    assert_graph(&rt, rt.alloc(), b"p sp 1 1\na 1 1 5", 1, &[]);
}

const FARTHEST_WEIGHTS: [Key3; 2] = [(0, 1, 2), (4294967295, 2, 3)];

const EQUAL_WEIGHTS: [Key3; 3] = [(4, 1, 2), (4, 1, 3), (4, 2, 3)];

const RISING_WEIGHTS: [Key3; 3] = [(1, 1, 2), (2, 2, 3), (3, 1, 3)];

#[test]
fn gives_three_nodes(rt: HostRuntime) {
    let alloc = rt.alloc();
    let text = "p sp 3 2\na 1 2 0\na 3 2 4294967295";
    assert_graph(&rt, alloc, text.as_bytes(), 3, &FARTHEST_WEIGHTS);
    let text = "p sp 3 3\na 2 3 4\na 1 3 4\na 1 2 4";
    assert_graph(&rt, alloc, text.as_bytes(), 3, &EQUAL_WEIGHTS);
    assert_graph(&rt, alloc, front(&rt, 32), 3, &RISING_WEIGHTS);
}

/// Gives some bytes at once, and then fails.
#[derive(Drop)]
struct Failing {
    bytes: &'static [u8],
}

impl Read for Failing {
    fn read(&mut self, room: &mut [u8]) -> io::Result<usize> {
        let count = self.bytes.len().min(room.len());
        if count == 0 {
            return Err(io::ErrorKind::Other.into());
        }
        let (given, rest) = self.bytes.split_at(count);
        room[..count].copy_from_slice(given);
        self.bytes = rest;
        Ok(count)
    }
}

fn p_sp() -> Failing {
    Failing { bytes: b"p sp" }
}

#[test]
fn tells_of_a_failing_reader(rt: HostRuntime) {
    let mut reader = Device::of(p_sp());
    assert!(rt; !Source::failed(&reader));
    let fault = read_gr(rt.alloc(), &mut reader).err();
    assert_same_fault(&rt, b"p sp", fault, Some(GrFault::Read));
    assert!(rt; Source::failed(&reader));
}

/// So many bytes of one kind, and then a text.
#[derive(Drop)]
struct Repeated {
    byte: u8,
    left: usize,
    tail: &'static [u8],
}

impl Read for Repeated {
    fn read(&mut self, room: &mut [u8]) -> io::Result<usize> {
        if self.left == 0 {
            return self.tail.read(room);
        }
        let count = self.left.min(room.len());
        room[..count].fill(self.byte);
        self.left -= count;
        Ok(count)
    }
}

/// So many line feeds.
fn feeds(left: usize) -> Repeated {
    Repeated {
        byte: b'\n',
        left,
        tail: b"",
    }
}

fn assert_fault_of_feeds(rt: &impl Abort, alloc: Global, count: usize, fault: GrFault) {
    let found = read_gr(alloc, &mut Device::of(feeds(count))).err();
    assert_same_fault(rt, b"", found, Some(fault));
}

#[test]
fn takes_texts_up_to_the_limit(rt: HostRuntime) {
    let alloc = rt.alloc();
    assert_fault_of_feeds(&rt, alloc, TEXT_LIMIT, GrFault::NoProblem);
    assert_fault_of_feeds(&rt, alloc, TEXT_LIMIT + 1, GrFault::TooLong);
}

/// A comment of a million letters, and a graph behind it.
fn long_comment() -> Repeated {
    Repeated {
        byte: b'c',
        left: 1_000_000,
        tail: b"\np sp 3 2\na 1 2 5\na 3 2 4",
    }
}

const BEHIND_THE_COMMENT: [Key3; 2] = [(4, 2, 3), (5, 1, 2)];

/// A comment that comes in many chunks, and lines that come together.
#[test]
fn takes_lines_longer_than_a_chunk(rt: HostRuntime) {
    let graph = read_gr(rt.alloc(), &mut Device::of(long_comment())).ok();
    assert_raw(&rt, &graph.expect(&rt, "a graph"), 3, &BEHIND_THE_COMMENT);
}

fn assert_read(rt: &impl Abort, found: Result<Vec<u8>, TextFault>, text: Result<&[u8], TextFault>) {
    match (found, text) {
        (Ok(found), Ok(text)) => assert_eq!(rt; found.as_slice(), text),
        (found, text) => assert_eq!(rt; found.err(), text.err()),
    }
}

#[test]
fn reads_texts_whole(rt: HostRuntime) {
    let text = TRIANGLE.as_bytes();
    let read = read_text(rt.alloc(), &mut Device::of(text));
    assert_read(&rt, read, Ok(text));
    let failed = read_text(rt.alloc(), &mut Device::of(p_sp()));
    assert_read(&rt, failed, Err(TextFault::Read));
}

/// A line that is written to a device is behind it.
fn assert_written(rt: &impl Abort, alloc: Global, line: &[u8]) {
    assert!(rt; !line.is_empty());
    let mut bytes = Vec::new(alloc);
    let mut writer = Device::of(&mut bytes);
    let written = Sink::write(&mut writer, line).ok();
    assert!(rt; written == Some(line.len()));
    assert!(rt; !Sink::failed(&writer));
    assert!(rt; bytes.as_slice() == line);
}

#[test]
fn writes_to_a_device(rt: HostRuntime) {
    assert_written(&rt, rt.alloc(), b"w 0\n");
}
