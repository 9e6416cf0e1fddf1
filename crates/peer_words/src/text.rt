//! Values, and messages that carry them, as text.
ghost use Rattle.std.specs.Prelude.{◌≡◌, ◌++◌, IfOk};
ghost use Rattle.std.specs.List.{flat_map};
ghost use Rattle.peer_words.specs.Text.{behind_comma, best_text, in_brackets, key_or_dash, key_text, keys_text, message_text, next_key, number_or_dash, value_text, yes_or_no};

use crate::value::{Said, Saying, Value};
use ghs_graph::key::Key;
use ghs_lines::numbers::put_number;
use std::alloc::AllocError;

/// Appends a value.
pub fn put_value(text: &mut Vec<u8>, value: &Value) -> Result<(), AllocError>
    ensures { IfOk result (λ _. text.new.items ≡ text.old.items ++ value_text value.now) }
{
    match value {
        Value::Number(number) => put_number(text, u128::from(*number)),
        Value::Port(port) => put_number_or_dash(text, *port),
        Value::Link(key) => put_key_or_dash(text, *key),
        Value::Links(links) => put_keys(text, links.keys()),
        Value::Best(best) => put_best(text, *best),
        Value::Word(word) => text.extend_from_slice(word.letters()),
        Value::Flag(flag) => put_flag(text, *flag),
    }
}

/// Appends a key: its weight, smaller end and larger end.
#[tactic(auto, unfolding(crate::specs::Text::key_text))]
pub fn put_key(text: &mut Vec<u8>, key: Key) -> Result<(), AllocError>
    ensures { IfOk result (λ _. text.new.items ≡ text.old.items ++ key_text key) }
{
    put_number(text, u128::from(key.weight))?;
    text.extend_from_slice(b":")?;
    put_number(text, u128::from(key.a))?;
    text.extend_from_slice(b"-")?;
    put_number(text, u128::from(key.b))
}

pub fn put_key_or_dash(text: &mut Vec<u8>, key: Option<Key>) -> Result<(), AllocError>
    ensures { IfOk result (λ _. text.new.items ≡ text.old.items ++ key_or_dash key) }
{
    match key {
        Some(key) => put_key(text, key),
        None => text.extend_from_slice(b"-"),
    }
}

/// The keys of links, between commas; a dash where there is none.
fn put_keys(text: &mut Vec<u8>, keys: &[Key]) -> Result<(), AllocError>
    ensures { IfOk result (λ _. text.new.items ≡ text.old.items ++ keys_text keys.now) }
{
    match keys.split_first() {
        Some((first, others)) => {
            put_key(text, *first)?;
            put_other_keys(text, others)
        }
        None => text.extend_from_slice(b"-"),
    }
}

#[tactic(auto, unfolding(crate::specs::Text::next_key))]
fn put_other_keys(text: &mut Vec<u8>, keys: &[Key]) -> Result<(), AllocError>
    ensures { IfOk result (λ _. text.new.items ≡ text.old.items ++ flat_map next_key keys.now) }
{
    for key in keys {
        text.extend_from_slice(b",")?;
        put_key(text, *key)?;
    }
    Ok(())
}

pub fn put_number_or_dash(text: &mut Vec<u8>, number: Option<u32>) -> Result<(), AllocError>
    ensures { IfOk result (λ _. text.new.items ≡ text.old.items ++ number_or_dash number) }
{
    match number {
        Some(number) => put_number(text, u128::from(number)),
        None => text.extend_from_slice(b"-"),
    }
}

/// The port of the best link, and its key.
pub fn put_best(text: &mut Vec<u8>, best: Option<(u32, Key)>) -> Result<(), AllocError>
    ensures { IfOk result (λ _. text.new.items ≡ text.old.items ++ best_text best) }
{
    match best {
        Some((port, key)) => {
            put_number(text, u128::from(port))?;
            text.extend_from_slice(b"@")?;
            put_key(text, key)
        }
        None => text.extend_from_slice(b"-"),
    }
}

fn put_flag(text: &mut Vec<u8>, flag: bool) -> Result<(), AllocError>
    ensures { IfOk result (λ _. text.new.items ≡ text.old.items ++ yes_or_no flag) }
{
    if flag {
        text.extend_from_slice(b"yes")
    } else {
        text.extend_from_slice(b"no")
    }
}

/// Appends a message: its kind, and behind it what it carries.
///
/// ```text
/// put_message(&mut text, &Saying::bare(alloc, b"changeroot"))?;
/// // changeroot
/// ```
#[tactic(auto, unfolding(crate::specs::Text::message_text))]
pub fn put_message(text: &mut Vec<u8>, message: &Saying) -> Result<(), AllocError>
    ensures { IfOk result (λ _. text.new.items ≡ text.old.items ++ message_text message.now) }
{
    text.extend_from_slice(message.kind.letters())?;
    put_in_brackets(text, message.carried.as_slice())
}

#[tactic(auto, unfolding(crate::specs::Text::in_brackets))]
fn put_in_brackets(text: &mut Vec<u8>, said: &[Said]) -> Result<(), AllocError>
    ensures { IfOk result (λ _. text.new.items ≡ text.old.items ++ in_brackets said.now) }
{
    match said.split_first() {
        Some((first, others)) => {
            text.extend_from_slice(b"(")?;
            put_value(text, &first.value)?;
            put_others(text, others)?;
            text.extend_from_slice(b")")
        }
        None => Ok(()),
    }
}

/// Each behind a comma.
#[tactic(auto, unfolding(crate::specs::Text::behind_comma))]
fn put_others(text: &mut Vec<u8>, said: &[Said]) -> Result<(), AllocError>
    ensures { IfOk result (λ _. text.new.items ≡ text.old.items ++ flat_map behind_comma said.now) }
{
    for other in said {
        text.extend_from_slice(b",")?;
        put_value(text, &other.value)?;
    }
    Ok(())
}
