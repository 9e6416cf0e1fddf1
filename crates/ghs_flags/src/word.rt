//! The bits of one word. Bit 0 is the lowest.
ghost use Rattle.std.specs.Prelude.{◌≡◌, ◌<◌, count_ones};
ghost use Rattle.ghs_flags.specs.First.{IsFirst};
ghost use Rattle.ghs_flags.specs.Word.{IsNthBit, has_bit, ones_below, turned};

/// Whether a bit is set.
pub fn has_bit(word: u64, bit: u32) -> bool
    requires { bit < 64 }
    ensures { result ≡ has_bit word bit }
{
    word >> bit & 1 == 1
}

/// The word in which one bit is the other way.
pub fn turned(word: u64, bit: u32) -> u64
    requires { bit < 64 }
    ensures { result ≡ turned word bit }
{
    word ^ 1 << bit
}

/// How many of the bits below a bit are set.
pub fn ones_below(word: u64, bit: u32) -> u32
    requires { bit < 64 }
    ensures { result ≡ ones_below word bit }
{
    (word & ((1 << bit) - 1)).count_ones()
}

/// The set bit below which `k` are set.
pub fn nth_bit(mut word: u64, k: u32) -> u32
    requires { k < count_ones word }
    ensures { IsNthBit word k result }
{
    for _ in 0..k {
        // The lowest set bit goes.
        word &= word - 1;
    }
    word.trailing_zeros()
}

/// The first set bit from a bit on.
pub fn first_bit(word: u64, bit: u32) -> Option<u32>
    requires { bit < 64 }
    ensures { IsFirst (has_bit word) bit 64 result }
{
    let rest = word >> bit;
    if rest == 0 {
        None
    } else {
        Some(bit + rest.trailing_zeros())
    }
}
