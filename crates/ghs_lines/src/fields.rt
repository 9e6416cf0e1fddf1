//! The fields of a line.
ghost use Rattle.ghs_lines.specs.Fields.{fields_of, is_blank as is_blank_of};
ghost use Rattle.std.specs.Prelude.{IfNone, IfSome, [], false, length, slice_index, true, ◌<◌, ◌≡◌, ◌≢◌, ◌≤◌, ◌∷◌, ℕ};

/// The field, where there is just one.
pub fn one_field(line: &[u8]) -> Option<&[u8]>
    ensures some { IfSome result (λ x. fields_of line.now ≡ x.now ∷ []) }
    ensures none { IfNone result (length (fields_of line.now) ≢ 1) }
{
    let (first, line) = next_field(line)?;
    match next_field(line) {
        Some(_) => None,
        None => Some(first),
    }
}

/// The fields, where there are just two.
pub fn two_fields(line: &[u8]) -> Option<(&[u8], &[u8])>
    ensures some { IfSome result (λ x. fields_of line.now ≡ x.0.now ∷ x.1.now ∷ []) }
    ensures none { IfNone result (length (fields_of line.now) ≢ 2) }
{
    let (first, line) = next_field(line)?;
    let (second, line) = next_field(line)?;
    match next_field(line) {
        Some(_) => None,
        None => Some((first, second)),
    }
}

/// The first field, and what is behind it; none where there are only blanks.
pub fn next_field(line: &[u8]) -> Option<(&[u8], &[u8])>
    ensures some { IfSome result (λ x. fields_of line.now ≡ x.0.now ∷ fields_of x.1.now) }
    ensures nonempty { IfSome result (λ x. 0 < length x.0.now) }
    ensures none { IfNone result (fields_of line.now ≡ []) }
{
    let (_, rest) = line.split_at(field_start(line));
    if rest.is_empty() {
        return None;
    }
    let (field, after) = rest.split_at(field_end(rest));
    Some((field, after))
}

/// Where the first field begins, or the length where there is none.
fn field_start(line: &[u8]) -> usize
    ensures within { result ≤ length line.now }
    ensures before { (k : ℕ) → k < result → is_blank_of (slice_index line.now k) ≡ true }
    ensures found { result < length line.now → is_blank_of (slice_index line.now result) ≡ false }
{
    for (i, byte) in line.iter().enumerate() {
        if !is_blank(*byte) {
            return i;
        }
    }
    line.len()
}

/// Where the first blank is, or the length where there is none.
fn field_end(line: &[u8]) -> usize
    ensures within { result ≤ length line.now }
    ensures before { (k : ℕ) → k < result → is_blank_of (slice_index line.now k) ≡ false }
    ensures found { result < length line.now → is_blank_of (slice_index line.now result) ≡ true }
{
    for (i, byte) in line.iter().enumerate() {
        if is_blank(*byte) {
            return i;
        }
    }
    line.len()
}

fn is_blank(byte: u8) -> bool
    ensures { result ≡ is_blank_of byte }
{
    byte == b' ' || byte == b'\t' || byte == b'\r'
}
