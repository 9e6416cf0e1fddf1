//! Keys of links, as a set.
ghost use Rattle.ghs_gr.specs.Key.{AreSameKeys, HasSmallEnds, code_of};
ghost use Rattle.ghs_gr.specs.RawGraph.{triple_lt};
ghost use Rattle.std.specs.List.{AllPairs};
ghost use Rattle.std.specs.Prelude.{All, IfOk, [], true, vec_len, ◌++◌, ◌+◌, ◌≡◌, ◌≤◌, ◌∷◌};

use crate::raw_graph::Key3;
use std::alloc::AllocError;

/// Puts a key to the others. One that stands last already isn't put again: in road files the two arcs of a link are
/// often neighbours.
pub fn put_key(keys: &mut Vec<Key3>, key: Key3) -> Result<(), AllocError>
    ensures keys { IfOk result (λ _. AreSameKeys keys.new.items (keys.old.items ++ key ∷ [])) }
    ensures few { IfOk result (λ _. vec_len keys.new ≤ vec_len keys.old + 1) }
{
    if keys.last() != Some(&key) {
        keys.push(key)?;
    }
    Ok(())
}

/// Puts keys in order, each once. It takes no memory. Keys are compared as numbers, which takes no branch.
pub fn put_in_order(keys: &mut Vec<Key3>)
    requires { All HasSmallEnds keys.old.items }
    ensures keys { AreSameKeys keys.new.items keys.old.items }
    ensures rising { AllPairs (λ j k. triple_lt j k ≡ true) keys.new.items }
    ensures few { vec_len keys.new ≤ vec_len keys.old }
{
    keys.sort_unstable_by_key(|key| code(*key));
    keys.dedup();
}

/// A key as one number: the weight in front, then the smaller end, then the larger.
fn code(key: Key3) -> u128
    ensures { result ≡ code_of key }
{
    const SHIFT: u128 = 1 << 32;
    let (weight, low, high) = key;
    (u128::from(weight) * SHIFT + u128::from(low)) * SHIFT + u128::from(high)
}
