//! What stands against an exploration, as lines of JSON.
ghost use Rattle.ghs_outcomes.specs.Words.{no_numbers_json, too_large_json, too_many_json};
ghost use Rattle.std.specs.Prelude.{◌≡◌, IfOk};

use ghs_lines::numbers::put_number;
use std::alloc::{AllocError, Global};

/// The graph is too large. Refusal: out of memory.
#[tactic(auto, unfolding(crate::specs::Words::too_large_json))]
pub(crate) fn too_large(alloc: Global) -> Result<Vec<u8>, AllocError>
    ensures { IfOk result (λ text. text.items ≡ too_large_json) }
{
    Vec::from_slice(
        alloc,
        b"{\"fault\":\"size\",\"words\":\"too large to explore: at most 12 nodes and 20 links\"}\n",
    )
}

/// There are more states than the limit. Refusal: out of memory.
#[tactic(auto, unfolding(crate::specs::Words::too_many_json))]
pub(crate) fn too_many(alloc: Global, limit: u32) -> Result<Vec<u8>, AllocError>
    ensures { IfOk result (λ text. text.items ≡ too_many_json limit) }
{
    let mut text = Vec::from_slice(alloc, b"{\"fault\":\"states\",\"words\":\"more than ")?;
    put_number(&mut text, u128::from(limit))?;
    text.extend_from_slice(b" states\"}\n")?;
    Ok(text)
}

/// No numbers are left. Refusal: out of memory.
#[tactic(auto, unfolding(crate::specs::Words::no_numbers_json))]
pub(crate) fn no_numbers(alloc: Global) -> Result<Vec<u8>, AllocError>
    ensures { IfOk result (λ text. text.items ≡ no_numbers_json) }
{
    Vec::from_slice(
        alloc,
        b"{\"fault\":\"numbers\",\"words\":\"more than 65536 states of nodes, messages or contents of queues\"}\n",
    )
}
