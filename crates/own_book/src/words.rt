//! What fields are made of: words, numbers, states and messages.
ghost use Rattle.own_book.specs.Parts.{closed as closed_of, cut_at, parts_at};
ghost use Rattle.own_book.specs.Words.{are_arguments, are_ends, are_message_parts, has_leading_zero, has_no_blank as has_no_blank_of, is_key as is_key_of, is_message as is_message_of, is_printable, is_state as is_state_of, is_variable as is_variable_of, is_word as is_word_of, is_word_byte as is_word_byte_of, plain_number as plain_number_of};
ghost use Rattle.std.specs.List.{list_all};
ghost use Rattle.std.specs.Prelude.{◌≡◌};

use crate::parts::{closed, cut};
use ghs_lines::numbers::number;

/// Whether all bytes are printable ASCII.
pub(crate) fn is_line(line: &[u8]) -> bool
    ensures { result ≡ list_all is_printable line.now }
{
    let mut rest = line;
    while let Some((byte, after)) = rest.split_first() {
        if *byte < b' ' || *byte > b'~' {
            return false;
        }
        rest = after;
    }
    true
}

/// Whether a field is a word: letters, digits and `_`, one at least.
pub(crate) fn is_word(field: &[u8]) -> bool
    ensures { result ≡ is_word_of field.now }
{
    !field.is_empty() && has_word_bytes(field)
}

fn has_word_bytes(field: &[u8]) -> bool
    ensures { result ≡ list_all is_word_byte_of field.now }
{
    let mut rest = field;
    while let Some((byte, after)) = rest.split_first() {
        if !is_word_byte(*byte) {
            return false;
        }
        rest = after;
    }
    true
}

fn is_word_byte(byte: u8) -> bool
    ensures { result ≡ is_word_byte_of byte }
{
    byte.is_ascii_alphanumeric() || byte == b'_'
}

/// The number that a field is: of 32 bits, and without leading zeros.
pub(crate) fn plain_number(field: &[u8]) -> Option<u32>
    ensures { result ≡ plain_number_of field.now }
{
    if begins_with_zero(field) {
        return None;
    }
    let value = number(field, u32::MAX as u64)?;
    Some(value as u32)
}

fn begins_with_zero(field: &[u8]) -> bool
    ensures { result ≡ has_leading_zero field.now }
{
    match field {
        [first, _, ..] => *first == b'0',
        _ => false,
    }
}

/// Whether a field is `WEIGHT:SMALLER-LARGER`.
pub(crate) fn is_key(field: &[u8]) -> bool
    ensures { result ≡ is_key_of field.now }
{
    match cut(field, b':') {
        Some((weight, ends)) => plain_number(weight).is_some() && has_ends(ends),
        None => false,
    }
}

/// Whether this is `SMALLER-LARGER`.
fn has_ends(ends: &[u8]) -> bool
    ensures { result ≡ are_ends (cut_at 45 ends.now) }
{
    match cut(ends, b'-') {
        Some((smaller, larger)) => {
            plain_number(smaller).is_some() && plain_number(larger).is_some()
        }
        None => false,
    }
}

/// Whether a field is a state: `NAME=VALUE;..`.
pub(crate) fn is_state(field: &[u8]) -> bool
    ensures { result ≡ is_state_of field.now }
{
    has_no_blank(field) && are_variables(field)
}

/// Whether all parts are variables.
fn are_variables(field: &[u8]) -> bool
    ensures { result ≡ list_all is_variable_of (parts_at 59 field.now) }
{
    let mut rest = field;
    while let Some((part, after)) = cut(rest, b';') {
        if !is_variable(part) {
            return false;
        }
        rest = after;
    }
    is_variable(rest)
}

/// Whether a text is one field.
fn has_no_blank(text: &[u8]) -> bool
    ensures { result ≡ has_no_blank_of text.now }
{
    let mut rest = text;
    while let Some((byte, after)) = rest.split_first() {
        if *byte == b' ' {
            return false;
        }
        rest = after;
    }
    true
}

/// Whether a part of a state is `NAME=VALUE`.
fn is_variable(part: &[u8]) -> bool
    ensures { result ≡ is_variable_of part.now }
{
    match cut(part, b'=') {
        Some((name, _)) => is_word(name),
        None => false,
    }
}

/// Whether a field is a message: `KIND`, or `KIND(VALUE,..)`.
pub(crate) fn is_message(field: &[u8]) -> bool
    ensures { result ≡ is_message_of field.now }
{
    has_no_blank(field) && has_message_parts(field)
}

fn has_message_parts(field: &[u8]) -> bool
    ensures { result ≡ are_message_parts (cut_at 40 field.now) field.now }
{
    match cut(field, b'(') {
        Some((kind, arguments)) => is_word(kind) && has_arguments(arguments),
        None => is_word(field),
    }
}

/// Whether this is `VALUE,..)`.
fn has_arguments(arguments: &[u8]) -> bool
    ensures { result ≡ are_arguments (closed_of arguments.now) }
{
    match closed(arguments) {
        Some(values) => !values.is_empty(),
        None => false,
    }
}
