//! Numbers within constant texts.
ghost use Rattle.ghs_chart.specs.Around.{around};
ghost use Rattle.std.specs.Prelude.{◌≡◌, ◌++◌, IfOk};

use ghs_lines::numbers::put_number;
use std::alloc::AllocError;

/// Puts a number behind a text, between two others.
#[tactic(auto, unfolding(crate::specs::Around::around))]
pub(crate) fn put_around(
    text: &mut Vec<u8>,
    before: &[u8],
    number: u128,
    after: &[u8],
) -> Result<(), AllocError>
    ensures { IfOk result (λ _. text.new.items ≡ text.old.items ++ around before.now number after.now) }
{
    text.extend_from_slice(before)?;
    put_number(text, number)?;
    text.extend_from_slice(after)
}
