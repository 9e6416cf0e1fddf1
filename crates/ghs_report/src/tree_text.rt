//! The text of a tree.
ghost use Rattle.std.specs.Prelude.{◌≡◌, ◌++◌, IfOk};
ghost use Rattle.ghs_report.specs.TreeText.{tree_text, link_line, total_line};

use crate::weight::total_weight;
use ghs_graph::key::Key;
use ghs_lines::numbers::put_number;
use std::alloc::{AllocError, Global};

/// A line `t A B W` for each link, and a line `w TOTAL` with the sum of their weights.
///
/// ```text
/// let text = tree_text(alloc, &tree_of(alloc, &raw)?)?;
/// // b"t 1 2 5\nw 5\n" of two nodes and a link of weight 5
/// ```
pub fn tree_text(alloc: Global, tree: &[Key]) -> Result<Vec<u8>, AllocError>
    ensures { IfOk result (λ text. text.items ≡ tree_text tree.now) }
{
    let mut text = Vec::new(alloc);
    for key in tree {
        put_link(&mut text, key)?;
    }
    put_total(&mut text, total_weight(tree))?;
    Ok(text)
}

/// The line of one link.
fn put_link(text: &mut Vec<u8>, key: &Key) -> Result<(), AllocError>
    ensures { IfOk result (λ _. text.new.items ≡ text.old.items ++ link_line key.now) }
{
    text.extend_from_slice(b"t ")?;
    put_number(text, u128::from(key.a))?;
    text.extend_from_slice(b" ")?;
    put_number(text, u128::from(key.b))?;
    text.extend_from_slice(b" ")?;
    put_number(text, u128::from(key.weight))?;
    text.extend_from_slice(b"\n")?;
    Ok(())
}

/// The line of the total weight.
fn put_total(text: &mut Vec<u8>, total: u128) -> Result<(), AllocError>
    ensures { IfOk result (λ _. text.new.items ≡ text.old.items ++ total_line total) }
{
    text.extend_from_slice(b"w ")?;
    put_number(text, total)?;
    text.extend_from_slice(b"\n")?;
    Ok(())
}
