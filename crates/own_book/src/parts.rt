//! A text, cut at a byte.
ghost use Rattle.own_book.specs.Parts.{closed as closed_of, cut_at, parts_at};
ghost use Rattle.std.specs.Prelude.{IfNone, IfSome, None, Some, [], length, ◌<◌, ◌≡◌, ◌∷◌, ◌⊎◌};

use bstr::ByteSlice;

/// What is in front of the first such byte, and what is behind it; none where there is no such byte.
pub fn cut(text: &[u8], byte: u8) -> Option<(&[u8], &[u8])>
    ensures some { IfSome result (λ x. cut_at byte text.now ≡ Some (x.0.now, x.1.now)) }
    ensures parts { IfSome result (λ x. parts_at byte text.now ≡ x.0.now ∷ parts_at byte x.1.now) }
    ensures shorter { IfSome result (λ x. length x.1.now < length text.now) }
    ensures none { IfNone result (cut_at byte text.now ≡ None) }
    ensures whole { IfNone result (parts_at byte text.now ≡ text.now ∷ []) }
{
    match text.find_byte(byte) {
        Some(end) => {
            let (front, _) = text.split_at(end);
            let (_, back) = text.split_at(end + 1);
            Some((front, back))
        }
        None => None,
    }
}

/// The first part, and the others; the others are empty where there is one part.
pub(crate) fn first_part(text: &[u8], byte: u8) -> (&[u8], &[u8])
    ensures parts { (parts_at byte text.now ≡ result.0.now ∷ parts_at byte result.1.now) ⊎ ((parts_at byte text.now ≡ result.0.now ∷ []) × (result.1.now ≡ [])) }
{
    match cut(text, byte) {
        Some(parts) => parts,
        None => (text, b""),
    }
}

/// What is in front of a `)` at the end; none where none is there.
pub(crate) fn closed(text: &[u8]) -> Option<&[u8]>
    ensures some { IfSome result (λ x. closed_of text.now ≡ Some x.now) }
    ensures none { IfNone result (closed_of text.now ≡ None) }
{
    let (last, front) = text.split_last()?;
    if *last == b')' { Some(front) } else { None }
}
