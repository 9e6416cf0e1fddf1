//! Whether a value is what it was.
ghost use Rattle.std.specs.Prelude.{◌≡◌, ◌&&◌, not};
ghost use Rattle.ghs_graph.specs.Key.{key_lt};
ghost use Rattle.peer_words.specs.Same.{is_same_best, is_same_flag, is_same_key, is_same_link, is_same_port, is_same_value};
ghost use Rattle.std.specs.Str.{bytes_eq};

use crate::value::Value;
use ghs_graph::key::Key;

/// Whether two values are of one sort and say the same. Lists of links, which messages alone carry, are never called the same.
///
/// ```text
/// is_same(&Value::Number(3), &Value::Number(3));   // true
/// is_same(&Value::Port(None), &Value::Flag(false)); // false: of two sorts
/// ```
pub fn is_same(old: &Value, new: &Value) -> bool
    ensures { result ≡ is_same_value old.now new.now }
{
    match (old, new) {
        (Value::Number(old), Value::Number(new)) => *old == *new,
        (Value::Port(old), Value::Port(new)) => is_same_port(*old, *new),
        (Value::Link(old), Value::Link(new)) => is_same_link(*old, *new),
        (Value::Best(old), Value::Best(new)) => is_same_best(*old, *new),
        (Value::Word(old), Value::Word(new)) => old.letters() == new.letters(),
        (Value::Flag(old), Value::Flag(new)) => is_same_flag(*old, *new),
        _ => false,
    }
}

fn is_same_port(old: Option<u32>, new: Option<u32>) -> bool
    ensures { result ≡ is_same_port old new }
{
    match (old, new) {
        (Some(old), Some(new)) => old == new,
        (None, None) => true,
        _ => false,
    }
}

fn is_same_link(old: Option<Key>, new: Option<Key>) -> bool
    ensures { result ≡ is_same_link old new }
{
    match (old, new) {
        (Some(old), Some(new)) => is_same_key(&old, &new),
        (None, None) => true,
        _ => false,
    }
}

fn is_same_best(old: Option<(u32, Key)>, new: Option<(u32, Key)>) -> bool
    ensures { result ≡ is_same_best old new }
{
    match (old, new) {
        (Some(old), Some(new)) => old.0 == new.0 && is_same_key(&old.1, &new.1),
        (None, None) => true,
        _ => false,
    }
}

fn is_same_key(old: &Key, new: &Key) -> bool
    ensures { result ≡ is_same_key old.now new.now }
{
    !old.is_below(new) && !new.is_below(old)
}

fn is_same_flag(old: bool, new: bool) -> bool
    ensures { result ≡ is_same_flag old new }
{
    if old { new } else { !new }
}
