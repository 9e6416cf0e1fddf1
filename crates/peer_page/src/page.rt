//! The pages.
ghost use Rattle.peer_page.specs.Page.{page_text, pair_text};
ghost use Rattle.std.specs.Prelude.{◌≡◌, ◌++◌, IfOk};

use crate::pair::{PAIR_BEFORE, PAIR_BETWEEN, PAIR_HEAD, PAIR_TAIL};
use crate::template::{HEAD, TAIL};
use std::alloc::{AllocError, Global};

/// The page round the steps of a run, as JSON Lines. They hold no `<`, by which the element that they stand in could end.
/// Refusal: out of memory.
///
/// ```text
/// let html = page(alloc, &data_of(alloc, graph, most, &events, count, 1)?)?;
/// // one file, from <!doctype html> on, to be opened in a browser
/// ```
pub fn page(alloc: Global, steps: &[u8]) -> Result<Vec<u8>, AllocError>
    ensures { IfOk result (λ text. text.items ≡ page_text steps.now) }
{
    joined(alloc, HEAD, steps, TAIL)
}

/// The page of two runs, round the steps of each, as JSON Lines without a `<`. It holds the page of one, in which it shows
/// them both. Refusal: out of memory.
pub fn pair_page(alloc: Global, first: &[u8], second: &[u8]) -> Result<Vec<u8>, AllocError>
    ensures { IfOk result (λ text. text.items ≡ pair_text first.now second.now) }
{
    let mut text = joined(alloc, PAIR_HEAD, HEAD, TAIL)?;
    put_both(
        &mut text,
        PAIR_BEFORE,
        first,
        PAIR_BETWEEN,
        second,
        PAIR_TAIL,
    )?;
    Ok(text)
}

/// Apart from `page`, so that its proof is over any texts and never looks into the constant ones.
fn joined(alloc: Global, head: &[u8], middle: &[u8], tail: &[u8]) -> Result<Vec<u8>, AllocError>
    ensures { IfOk result (λ text. text.items ≡ head.now ++ middle.now ++ tail.now) }
{
    let mut text = Vec::new(alloc);
    text.extend_from_slice(head)?;
    text.extend_from_slice(middle)?;
    text.extend_from_slice(tail)?;
    Ok(text)
}

/// Two texts, and what stands before, between and behind them.
fn put_both(
    text: &mut Vec<u8>,
    before: &[u8],
    first: &[u8],
    between: &[u8],
    second: &[u8],
    behind: &[u8],
) -> Result<(), AllocError>
    ensures { IfOk result (λ _. text.new.items ≡ text.old.items ++ before.now ++ first.now ++ between.now ++ second.now ++ behind.now) }
{
    text.extend_from_slice(before)?;
    text.extend_from_slice(first)?;
    text.extend_from_slice(between)?;
    text.extend_from_slice(second)?;
    text.extend_from_slice(behind)
}
