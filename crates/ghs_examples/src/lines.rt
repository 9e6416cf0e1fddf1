//! Worked examples, with ample memory.
ghost use Rattle.std.specs.Prelude.{◌<◌, ◌^◌};

use ghs_lines::fields::{next_field, one_field, two_fields};
use ghs_lines::lines::next_line;
use ghs_lines::numbers::{number, put_number};
use std::alloc::Global;
use std::process::Abort;

fn is_written(rt: &impl Abort, alloc: Global, value: u128, digits: &str) {
    let mut text = Vec::new(alloc);
    put_number(&mut text, value).expect(rt, "memory for a number");
    assert_eq!(rt; text.as_slice(), digits.as_bytes());
}

#[test]
fn numbers_are_written(rt: HostRuntime) {
    is_written(&rt, rt.alloc(), 0, "0");
    is_written(&rt, rt.alloc(), 1_099_511_627_776, "1099511627776");
    is_written(
        &rt,
        rt.alloc(),
        u128::MAX,
        "340282366920938463463374607431768211455",
    );
}

fn is_bytes(rt: &impl Abort, found: &[u8], bytes: &[u8]) {
    assert!(rt; found == bytes);
}

fn starts_with_line(rt: &impl Abort, text: &[u8], line: &[u8], rest: &[u8]) {
    let (found, behind) = next_line(text).expect(rt, "a line");
    is_bytes(rt, found, line);
    is_bytes(rt, behind, rest);
}

fn has_one_field(rt: &impl Abort, line: &[u8], field: &[u8]) {
    is_bytes(rt, one_field(line).expect(rt, "one field"), field);
}

fn has_two_fields(rt: &impl Abort, line: &[u8], first: &[u8], second: &[u8]) {
    assert!(rt; one_field(line).is_none());
    let (found, behind) = two_fields(line).expect(rt, "two fields");
    is_bytes(rt, found, first);
    is_bytes(rt, behind, second);
}

fn reads_as(rt: &impl Abort, field: &[u8], most: u64, want: Option<u64>)
    requires { most < 2 ^ 60 }
{
    assert!(rt; number(field, most) == want);
}

#[test]
fn a_text_in_pieces(rt: HostRuntime) {
    starts_with_line(&rt, b" a\t07\r\n\nb", b" a\t07\r", b"\nb");
    has_two_fields(&rt, b" a\t07\r", b"a", b"07");
    assert!(rt; next_field(b" \t\r").is_none());
    has_one_field(&rt, b" 7 ", b"7");
    reads_as(&rt, b"07", 7, Some(7));
    reads_as(&rt, b"07", 6, None);
    reads_as(&rt, b"+7", 7, None);
    reads_as(&rt, b"", 7, None);
}
