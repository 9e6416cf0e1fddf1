//! Commas between the parts of a list.
ghost use Rattle.std.specs.Prelude.{◌≡◌, ◌++◌, IfOk};
ghost use Rattle.peer_page.specs.Commas.{comma};

use std::alloc::AllocError;

/// Appends what stands before a part of a list, by its number from 0 on: a comma, unless the part is the first.
///
/// ```text
/// put_comma(&mut text, 0)?;   // nothing
/// put_comma(&mut text, 1)?;   // a comma
/// ```
pub fn put_comma(text: &mut Vec<u8>, part: usize) -> Result<(), AllocError>
    ensures { IfOk result (λ _. text.new.items ≡ text.old.items ++ comma part) }
{
    if part == 0 {
        Ok(())
    } else {
        text.extend_from_slice(b",")
    }
}
