//! Decimal numbers.
ghost use Rattle.ghs_lines.specs.Numbers.{number_of};
ghost use Rattle.std.specs.Prelude.{IfOk, decimal, ◌++◌, ◌<◌, ◌^◌, ◌≡◌};

use itoa::Buffer;
use std::alloc::AllocError;

/// The number that a field is, where it is one of at most `most`. Leading zeros are allowed, a sign is not.
///
/// ```text
/// let value = number(b"07", 7);           // Some(7)
/// let above = number(b"07", 6);           // None: it is above the limit
/// let signed = number(b"+7", 7);          // None: it isn't digits alone
/// ```
pub fn number(field: &[u8], most: u64) -> Option<u64>
    requires { most < 2 ^ 60 }
    ensures { result ≡ number_of most field.now }
{
    if field.is_empty() {
        return None;
    }
    let mut value = 0u64;
    for byte in field {
        if !byte.is_ascii_digit() {
            return None;
        }
        value = value * 10 + (*byte - b'0') as u64;
        if value > most {
            return None;
        }
    }
    Some(value)
}

/// Appends a number's decimal digits, without leading zeros.
pub fn put_number(text: &mut Vec<u8>, number: u128) -> Result<(), AllocError>
    ensures { IfOk result (λ _. text.new.items ≡ text.old.items ++ decimal number) }
{
    let mut buffer = Buffer::new();
    text.extend_from_slice(buffer.format(number).as_bytes())?;
    Ok(())
}
