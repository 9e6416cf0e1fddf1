//! Fields of lines of comma separated values, and the words that stand in them.
ghost use Rattle.std.specs.Prelude.{◌≡◌, ◌++◌, IfOk};
ghost use Rattle.std.specs.List.{flat_map};
ghost use Rattle.ghs_report.specs.Fields.{end_word, field, wake_word, waker, word_field};

use ghs_lines::numbers::put_number;
use peer_network::wake_set::WakeSet;
use std::alloc::AllocError;

/// A comma and a number.
#[tactic(auto, unfolding(crate::specs::Fields::field))]
pub fn put_field(text: &mut Vec<u8>, number: u128) -> Result<(), AllocError>
    ensures { IfOk result (λ _. text.new.items ≡ text.old.items ++ field number) }
{
    text.extend_from_slice(b",")?;
    put_number(text, number)?;
    Ok(())
}

/// A comma and a word.
#[tactic(auto, unfolding(crate::specs::Fields::word_field))]
pub fn put_word(text: &mut Vec<u8>, word: &[u8]) -> Result<(), AllocError>
    ensures { IfOk result (λ _. text.new.items ≡ text.old.items ++ word_field word.now) }
{
    text.extend_from_slice(b",")?;
    text.extend_from_slice(word)?;
    Ok(())
}

/// Puts the name of a wake set behind a text, as a sweep has it: `all`, `first`, or `nodes+5+7` of the listed nodes 5 and 7.
pub fn put_wake(text: &mut Vec<u8>, wake: WakeSet) -> Result<(), AllocError>
    ensures { IfOk result (λ _. text.new.items ≡ text.old.items ++ wake_word wake) }
{
    match wake {
        WakeSet::All => text.extend_from_slice(b"all"),
        WakeSet::First => text.extend_from_slice(b"first"),
        WakeSet::Listed(wakers) => {
            text.extend_from_slice(b"nodes")?;
            put_wakers(text, &wakers.nodes)
        }
    }
}

/// A comma and the name of a wake set.
#[tactic(auto, unfolding(crate::specs::Fields::word_field))]
pub fn put_wake_field(text: &mut Vec<u8>, wake: WakeSet) -> Result<(), AllocError>
    ensures { IfOk result (λ _. text.new.items ≡ text.old.items ++ word_field (wake_word wake)) }
{
    text.extend_from_slice(b",")?;
    put_wake(text, wake)
}

/// The listed nodes.
fn put_wakers(text: &mut Vec<u8>, nodes: &[u32]) -> Result<(), AllocError>
    ensures { IfOk result (λ _. text.new.items ≡ text.old.items ++ flat_map waker nodes.now) }
{
    for node in nodes {
        put_waker(text, *node)?;
    }
    Ok(())
}

/// A listed node; 0 stands for none.
fn put_waker(text: &mut Vec<u8>, node: u32) -> Result<(), AllocError>
    ensures { IfOk result (λ _. text.new.items ≡ text.old.items ++ waker node) }
{
    if node == 0 {
        return Ok(());
    }
    text.extend_from_slice(b"+")?;
    put_number(text, u128::from(node))?;
    Ok(())
}

/// How a run ended: it halted, or its turns were used.
pub fn end_word(ended: bool) -> &'static [u8]
    ensures { result.now ≡ end_word ended }
{
    if ended { b"halted" } else { b"turns" }
}
