//! The lines of a text.
ghost use Rattle.ghs_lines.specs.Lines.{lines_of};
ghost use Rattle.std.specs.Prelude.{IfNone, IfSome, [], length, ◌<◌, ◌≡◌, ◌∷◌};

use bstr::ByteSlice;

/// The first line, without its line feed, and what is behind it; none where the text is empty.
///
/// ```text
/// let Some((line, rest)) = next_line(b" a\t07\r\n\nb") else { return };
/// // line is b" a\t07\r", and rest is b"\nb"
/// let fields = two_fields(line);          // Some((b"a", b"07"))
/// ```
pub fn next_line(text: &[u8]) -> Option<(&[u8], &[u8])>
    ensures some { IfSome result (λ x. lines_of text.now ≡ x.0.now ∷ lines_of x.1.now) }
    ensures shorter { IfSome result (λ x. length x.1.now < length text.now) }
    ensures none { IfNone result (text.now ≡ []) }
{
    if text.is_empty() {
        return None;
    }
    match text.find_byte(b'\n') {
        Some(end) => {
            let (line, _) = text.split_at(end);
            let (_, rest) = text.split_at(end + 1);
            Some((line, rest))
        }
        None => {
            let (line, rest) = text.split_at(text.len());
            Some((line, rest))
        }
    }
}
