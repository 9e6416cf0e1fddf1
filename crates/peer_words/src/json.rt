//! Values, and messages that carry them, as JSON.
ghost use Rattle.std.specs.Prelude.{◌≡◌, ◌++◌, codes, decimal, IfOk};
ghost use Rattle.std.specs.List.{flat_map};
ghost use Rattle.peer_words.specs.Json.{best_or_null, escape, escaped, key_or_null, keys_json, keys_within, member, message_members, next_key, number_or_null, pair, quoted, said_member, truth, value_json};
ghost use Rattle.peer_words.specs.Text.{key_text};

use crate::text::put_key;
use crate::value::{Said, Saying, Value};
use ghs_graph::key::Key;
use ghs_lines::numbers::put_number;
use std::alloc::AllocError;

/// Appends a value.
pub fn put_json_value(text: &mut Vec<u8>, value: &Value) -> Result<(), AllocError>
    ensures { IfOk result (λ _. text.new.items ≡ text.old.items ++ value_json value.now) }
{
    match value {
        Value::Number(number) => put_number(text, u128::from(*number)),
        Value::Port(port) => put_number_or_null(text, *port),
        Value::Link(key) => put_key_or_null(text, *key),
        Value::Links(links) => put_keys(text, links.keys()),
        Value::Best(best) => put_best(text, *best),
        Value::Word(word) => put_word(text, word.letters()),
        Value::Flag(flag) => put_truth(text, *flag),
    }
}

/// Appends a member that isn't the first: a value behind its name.
#[tactic(auto, unfolding(crate::specs::Json::member))]
pub fn put_said(text: &mut Vec<u8>, said: &Said) -> Result<(), AllocError>
    ensures { IfOk result (λ _. text.new.items ≡ text.old.items ++ said_member said.now) }
{
    put_name(text, b",", said.name.letters())?;
    put_json_value(text, &said.value)
}

/// Appends a word as a string.
///
/// ```text
/// put_word(&mut text, b"a\"b")?;
/// // "a\"b": a quote and a backslash stand behind a backslash
/// ```
#[tactic(auto, unfolding(crate::specs::Json::quoted))]
pub fn put_word(text: &mut Vec<u8>, word: &[u8]) -> Result<(), AllocError>
    ensures { IfOk result (λ _. text.new.items ≡ text.old.items ++ quoted (escaped word.now)) }
{
    text.extend_from_slice(b"\"")?;
    put_escaped(text, word)?;
    text.extend_from_slice(b"\"")
}

#[tactic(auto, unfolding(crate::specs::Json::escaped))]
fn put_escaped(text: &mut Vec<u8>, word: &[u8]) -> Result<(), AllocError>
    ensures { IfOk result (λ _. text.new.items ≡ text.old.items ++ escaped word.now) }
{
    for letter in word {
        put_letter(text, *letter)?;
    }
    Ok(())
}

fn put_letter(text: &mut Vec<u8>, letter: u8) -> Result<(), AllocError>
    ensures { IfOk result (λ _. text.new.items ≡ text.old.items ++ escape letter) }
{
    if letter == b'"' {
        text.extend_from_slice(b"\\\"")
    } else if letter == b'\\' {
        text.extend_from_slice(b"\\\\")
    } else {
        text.push(letter)?;
        Ok(())
    }
}

/// What stands before a member, and its name.
pub fn put_name(text: &mut Vec<u8>, lead: &[u8], name: &[u8]) -> Result<(), AllocError>
    ensures { IfOk result (λ _. text.new.items ≡ text.old.items ++ lead.now ++ codes "\"" ++ name.now ++ codes "\":") }
{
    text.extend_from_slice(lead)?;
    text.extend_from_slice(b"\"")?;
    text.extend_from_slice(name)?;
    text.extend_from_slice(b"\":")
}

/// Appends a member whose value is a word. The word has no quote and no backslash.
#[tactic(auto, unfolding(crate::specs::Json::member))]
pub fn put_word_member(
    text: &mut Vec<u8>,
    lead: &[u8],
    name: &[u8],
    word: &[u8],
) -> Result<(), AllocError>
    ensures { IfOk result (λ _. text.new.items ≡ text.old.items ++ member lead.now name.now (quoted word.now)) }
{
    put_name(text, lead, name)?;
    put_quoted(text, word)
}

#[tactic(auto, unfolding(crate::specs::Json::quoted))]
pub fn put_quoted(text: &mut Vec<u8>, word: &[u8]) -> Result<(), AllocError>
    ensures { IfOk result (λ _. text.new.items ≡ text.old.items ++ quoted word.now) }
{
    text.extend_from_slice(b"\"")?;
    text.extend_from_slice(word)?;
    text.extend_from_slice(b"\"")
}

#[tactic(auto, unfolding(crate::specs::Json::quoted))]
fn put_quoted_key(text: &mut Vec<u8>, key: Key) -> Result<(), AllocError>
    ensures { IfOk result (λ _. text.new.items ≡ text.old.items ++ quoted (key_text key)) }
{
    text.extend_from_slice(b"\"")?;
    put_key(text, key)?;
    text.extend_from_slice(b"\"")
}

pub fn put_key_or_null(text: &mut Vec<u8>, key: Option<Key>) -> Result<(), AllocError>
    ensures { IfOk result (λ _. text.new.items ≡ text.old.items ++ key_or_null key) }
{
    match key {
        Some(key) => put_quoted_key(text, key),
        None => text.extend_from_slice(b"null"),
    }
}

/// The keys of links, as a list.
#[tactic(auto, unfolding(crate::specs::Json::keys_json))]
fn put_keys(text: &mut Vec<u8>, keys: &[Key]) -> Result<(), AllocError>
    ensures { IfOk result (λ _. text.new.items ≡ text.old.items ++ keys_json keys.now) }
{
    text.extend_from_slice(b"[")?;
    put_keys_within(text, keys)?;
    text.extend_from_slice(b"]")
}

fn put_keys_within(text: &mut Vec<u8>, keys: &[Key]) -> Result<(), AllocError>
    ensures { IfOk result (λ _. text.new.items ≡ text.old.items ++ keys_within keys.now) }
{
    match keys.split_first() {
        Some((first, others)) => {
            put_quoted_key(text, *first)?;
            put_other_keys(text, others)
        }
        None => Ok(()),
    }
}

#[tactic(auto, unfolding(crate::specs::Json::next_key))]
fn put_other_keys(text: &mut Vec<u8>, keys: &[Key]) -> Result<(), AllocError>
    ensures { IfOk result (λ _. text.new.items ≡ text.old.items ++ flat_map next_key keys.now) }
{
    for key in keys {
        text.extend_from_slice(b",")?;
        put_quoted_key(text, *key)?;
    }
    Ok(())
}

pub fn put_number_or_null(text: &mut Vec<u8>, number: Option<u32>) -> Result<(), AllocError>
    ensures { IfOk result (λ _. text.new.items ≡ text.old.items ++ number_or_null number) }
{
    match number {
        Some(number) => put_number(text, u128::from(number)),
        None => text.extend_from_slice(b"null"),
    }
}

/// Appends the port of the best link and the key, as a list of two; or null.
#[tactic(auto, unfolding(crate::specs::Json::pair))]
pub fn put_best(text: &mut Vec<u8>, best: Option<(u32, Key)>) -> Result<(), AllocError>
    ensures { IfOk result (λ _. text.new.items ≡ text.old.items ++ best_or_null best) }
{
    match best {
        Some((port, key)) => {
            text.extend_from_slice(b"[")?;
            put_number(text, u128::from(port))?;
            text.extend_from_slice(b",")?;
            put_quoted_key(text, key)?;
            text.extend_from_slice(b"]")
        }
        None => text.extend_from_slice(b"null"),
    }
}

fn put_truth(text: &mut Vec<u8>, flag: bool) -> Result<(), AllocError>
    ensures { IfOk result (λ _. text.new.items ≡ text.old.items ++ truth flag) }
{
    if flag {
        text.extend_from_slice(b"true")
    } else {
        text.extend_from_slice(b"false")
    }
}

/// Appends a member of an object whose value is a number: what stands before it, its name, and the number.
#[tactic(auto, unfolding(crate::specs::Json::member))]
pub fn put_number_member(
    text: &mut Vec<u8>,
    lead: &[u8],
    name: &[u8],
    number: u128,
) -> Result<(), AllocError>
    ensures { IfOk result (λ _. text.new.items ≡ text.old.items ++ member lead.now name.now (decimal number)) }
{
    put_name(text, lead, name)?;
    put_number(text, number)
}

/// Appends a member whose value is a link's key.
#[tactic(auto, unfolding(crate::specs::Json::member))]
pub fn put_key_member(
    text: &mut Vec<u8>,
    lead: &[u8],
    name: &[u8],
    link: Key,
) -> Result<(), AllocError>
    ensures { IfOk result (λ _. text.new.items ≡ text.old.items ++ member lead.now name.now (quoted (key_text link))) }
{
    put_name(text, lead, name)?;
    put_quoted_key(text, link)
}

/// Appends a member whose value is a link's key, or null.
#[tactic(auto, unfolding(crate::specs::Json::member))]
pub fn put_optional_key_member(
    text: &mut Vec<u8>,
    lead: &[u8],
    name: &[u8],
    key: Option<Key>,
) -> Result<(), AllocError>
    ensures { IfOk result (λ _. text.new.items ≡ text.old.items ++ member lead.now name.now (key_or_null key)) }
{
    put_name(text, lead, name)?;
    put_key_or_null(text, key)
}

/// Appends a member whose value is a number, or null.
#[tactic(auto, unfolding(crate::specs::Json::member))]
pub fn put_optional_member(
    text: &mut Vec<u8>,
    lead: &[u8],
    name: &[u8],
    number: Option<u32>,
) -> Result<(), AllocError>
    ensures { IfOk result (λ _. text.new.items ≡ text.old.items ++ member lead.now name.now (number_or_null number)) }
{
    put_name(text, lead, name)?;
    put_number_or_null(text, number)
}

/// Appends a member whose value is spelled out: null, true, or what JSON has else.
#[tactic(auto, unfolding(crate::specs::Json::member))]
pub fn put_literal_member(
    text: &mut Vec<u8>,
    lead: &[u8],
    name: &[u8],
    value: &[u8],
) -> Result<(), AllocError>
    ensures { IfOk result (λ _. text.new.items ≡ text.old.items ++ member lead.now name.now value.now) }
{
    put_name(text, lead, name)?;
    text.extend_from_slice(value)
}

/// Appends a list of two: a port, and its mark as a string. The mark has no quote and no backslash.
#[tactic(auto, unfolding(crate::specs::Json::pair))]
pub fn put_pair(text: &mut Vec<u8>, port: u32, mark: &[u8]) -> Result<(), AllocError>
    ensures { IfOk result (λ _. text.new.items ≡ text.old.items ++ pair port mark.now) }
{
    text.extend_from_slice(b"[")?;
    put_number(text, u128::from(port))?;
    text.extend_from_slice(b",")?;
    put_quoted(text, mark)?;
    text.extend_from_slice(b"]")
}

/// Appends a member of an object: what stands before it, its name and its value.
#[tactic(auto, unfolding(crate::specs::Json::member))]
pub fn put_member(text: &mut Vec<u8>, lead: &[u8], said: &Said) -> Result<(), AllocError>
    ensures { IfOk result (λ _. text.new.items ≡ text.old.items ++ member lead.now said.now.name (value_json said.now.value)) }
{
    put_name(text, lead, said.name.letters())?;
    put_json_value(text, &said.value)
}

/// Appends a message as members of an object: its kind, behind what stands before it, and what it carries.
#[tactic(auto, unfolding(crate::specs::Json::message_members))]
pub fn put_message_members(
    text: &mut Vec<u8>,
    lead: &[u8],
    message: &Saying,
) -> Result<(), AllocError>
    ensures { IfOk result (λ _. text.new.items ≡ text.old.items ++ message_members lead.now message.now) }
{
    put_word_member(text, lead, b"kind", message.kind.letters())?;
    put_each_said(text, message.carried.as_slice())
}

fn put_each_said(text: &mut Vec<u8>, said: &[Said]) -> Result<(), AllocError>
    ensures { IfOk result (λ _. text.new.items ≡ text.old.items ++ flat_map said_member said.now) }
{
    for each in said {
        put_said(text, each)?;
    }
    Ok(())
}
