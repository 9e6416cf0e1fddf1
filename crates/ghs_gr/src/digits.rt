//! Digits, many at a time.
ghost use Rattle.ghs_gr.specs.Stops.{AreStops, is_stop, word_of};
ghost use Rattle.std.specs.Prelude.{length, map, take, true, ◌<◌, ◌^◌, ◌≡◌, ◌≤◌};
ghost use Rattle.std.specs.Simd.Lanes.{mask_l};
ghost use Rattle.std.specs.Str.{all_ascii_digits};
ghost use Rattle.std.specs.Str.Parse.{digits_value};

use std::simd::prelude::*;

/// How many bytes are looked at together for those that are no digits: as many as a plain arc line mostly has at most.
const LANES: usize = 32;

/// Eight digits 0, one a byte.
const ZEROS: u64 = 0x3030_3030_3030_3030;

/// A bit for each of the first `LANES` bytes, from the lowest on, which is 1 where the byte is no digit. Where there are fewer
/// bytes, nothing is said of them: no bit is 1.
pub fn stops_in(text: &[u8]) -> u64
    ensures stops { AreStops result text.now }
    ensures word { LANES ≤ length text.now → result ≡ word_of LANES text.now }
    ensures none { length text.now < LANES → result ≡ 0 }
{
    if text.len() < LANES {
        return 0;
    }
    stops_of(u8x32::from_slice(text))
}

/// A bit for each of these bytes, from the lowest on, which is 1 where the byte is no digit.
fn stops_of(bytes: u8x32) -> u64
    ensures { result ≡ mask_l (map is_stop bytes) }
{
    let others = (bytes - u8x32::splat(b'0')).simd_ge(u8x32::splat(10));
    others.to_bitmask()
}

/// The value of so many digits at the front of eight bytes.
pub fn value_of(bytes: [u8; 8], count: usize) -> u64
    requires some { 1 ≤ count }
    requires few { count ≤ 8 }
    requires digits { all_ascii_digits (take count bytes) ≡ true }
    ensures value { result ≡ digits_value 10 (take count bytes) }
    ensures below { result < 10 ^ 8 }
{
    // Of bytes from the lowest on, the digits become the last, with zeros before them. Then neighbours are joined: digits,
    // pairs, and fours.
    let behind = 8 * (8 - count);
    let digits = (u64::from_le_bytes(bytes) << behind) - (ZEROS << behind);
    let pairs = digits * 10 + digits / 256;
    let first = pairs % 256 * 100 + pairs / 0x1_0000 % 256;
    let second = pairs / 0x1_0000_0000 % 256 * 100 + pairs / 0x1_0000_0000_0000 % 256;
    first * 10_000 + second
}
