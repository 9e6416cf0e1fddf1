//! Numbers of graph texts: of few digits and of many, far from the text's end and near it.
use ghs_gr::fault::GrFault;
use ghs_gr::judgement::judge;
use ghs_gr::raw_graph::Key3;
use std::alloc::Global;
use std::process::Abort;

/// Weights as texts give them.
static WEIGHTS: [(&str, u32); 17] = [
    ("7", 7),
    ("42", 42),
    ("907", 907),
    ("1234", 1_234),
    ("56789", 56_789),
    ("987654", 987_654),
    ("1048575", 1_048_575),
    ("87654321", 87_654_321),
    ("123456789", 123_456_789),
    ("4294967295", 4_294_967_295),
    ("0", 0),
    ("00", 0),
    ("007", 7),
    ("00000042", 42),
    ("000000042", 42),
    ("0000000000000907", 907),
    ("0004294967295", 4_294_967_295),
];

/// Nodes as texts give them.
static NODES: [(&str, u32); 8] = [
    ("9", 9),
    ("10", 10),
    ("654", 654),
    ("7890", 7_890),
    ("54321", 54_321),
    ("1048575", 1_048_575),
    ("00000012", 12),
    ("0000000000345", 345),
];

/// What is no number below 2^32.
static OTHERS: [&str; 6] = [
    "4294967296",
    "9999999999",
    "10000000000",
    "00004294967296",
    "-7",
    "1,5",
];

/// What an arc line has before a number and behind it, where that is a node or the weight.
static AROUND_FROM: (&str, &str) = ("", " 1048576 5");

static AROUND_TO: (&str, &str) = ("1048576 ", " 5");

static AROUND_WEIGHT: (&str, &str) = ("1 1048576 ", "");

/// A comment, or at least its front, which a text has behind its line of numbers.
const COMMENT: [u8; 40] = [b'c'; 40];

fn put(rt: &impl Abort, text: &mut Vec<u8>, bytes: &[u8]) {
    text.extend_from_slice(bytes).expect(rt, "memory");
}

/// The text of an arc with this number, and so many bytes of a comment behind it.
fn text_of(
    rt: &impl Abort,
    alloc: Global,
    around: &(&str, &str),
    number: &[u8],
    behind: usize,
) -> Vec<u8> {
    let mut text = Vec::new(alloc);
    put(rt, &mut text, b"p sp 1048576 1\na ");
    put(rt, &mut text, around.0.as_bytes());
    put(rt, &mut text, number);
    put(rt, &mut text, around.1.as_bytes());
    put(rt, &mut text, b"\n");
    put(rt, &mut text, COMMENT.get(..behind).expect(rt, "a comment"));
    text
}

/// Wherever the text ends, its graph is one link.
fn assert_link(rt: &impl Abort, alloc: Global, around: &(&str, &str), number: &str, key: Key3) {
    for behind in 0..COMMENT.len() {
        let text = text_of(rt, alloc, around, number.as_bytes(), behind);
        let graph = judge(alloc, text.as_slice()).ok().expect(rt, "a graph");
        assert_eq!(rt; graph.keys(), [key].as_slice(), "{number:?}");
    }
}

#[test]
fn reads_weights(rt: HostRuntime) {
    for (number, weight) in &WEIGHTS {
        assert_link(
            &rt,
            rt.alloc(),
            &AROUND_WEIGHT,
            number,
            (*weight, 1, 1_048_576),
        );
    }
}

#[test]
fn reads_nodes(rt: HostRuntime) {
    for (number, node) in &NODES {
        assert_link(&rt, rt.alloc(), &AROUND_FROM, number, (5, *node, 1_048_576));
        assert_link(&rt, rt.alloc(), &AROUND_TO, number, (5, *node, 1_048_576));
    }
}

/// Wherever the text ends, these bytes are no number, in none of the three places.
fn assert_other(rt: &impl Abort, alloc: Global, bytes: &[u8]) {
    for around in &[AROUND_FROM, AROUND_TO, AROUND_WEIGHT] {
        for behind in 0..COMMENT.len() {
            let text = text_of(rt, alloc, around, bytes, behind);
            let fault = judge(alloc, text.as_slice()).err();
            assert_eq!(rt; fault, Some(GrFault::Number(2)), "{bytes:?}");
        }
    }
}

#[test]
fn refuses_other_numbers(rt: HostRuntime) {
    for other in &OTHERS {
        assert_other(&rt, rt.alloc(), other.as_bytes());
    }
}

/// These bytes with another in this place are no number.
fn assert_other_with(rt: &impl Abort, alloc: Global, number: &[u8], place: usize, byte: u8) {
    let mut bytes = Vec::new(alloc);
    put(rt, &mut bytes, number);
    *bytes.get_mut(place).expect(rt, "a digit") = byte;
    assert_other(rt, alloc, bytes.as_slice());
}

/// The bytes next to the digits, in the place of each digit.
#[test]
fn refuses_the_neighbours_of_digits(rt: HostRuntime) {
    for (number, _) in &WEIGHTS {
        for place in 0..number.len() {
            assert_other_with(&rt, rt.alloc(), number.as_bytes(), place, b'/');
            assert_other_with(&rt, rt.alloc(), number.as_bytes(), place, b':');
        }
    }
}
