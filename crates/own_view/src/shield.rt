//! What a book says, so that no page reads it as HTML.
ghost use Rattle.own_view.specs.Page.{shield, shielded};
ghost use Rattle.std.specs.Prelude.{IfOk, ◌++◌, ◌≡◌};

use std::alloc::{AllocError, Global};

/// The text in which `<` and `&` stand as HTML writes them. Refusal: out of memory.
#[tactic(auto, unfolding(crate::specs::Page::shielded))]
pub(crate) fn shielded(alloc: Global, text: &[u8]) -> Result<Vec<u8>, AllocError>
    ensures { IfOk result (λ shown. shown.items ≡ shielded text.now) }
{
    let mut shown = Vec::new(alloc);
    for byte in text {
        put_byte(&mut shown, *byte)?;
    }
    Ok(shown)
}

fn put_byte(text: &mut Vec<u8>, byte: u8) -> Result<(), AllocError>
    ensures { IfOk result (λ _. text.new.items ≡ text.old.items ++ shield byte) }
{
    if byte == b'<' {
        text.extend_from_slice(b"&lt;")
    } else if byte == b'&' {
        text.extend_from_slice(b"&amp;")
    } else {
        text.push(byte)?;
        Ok(())
    }
}
