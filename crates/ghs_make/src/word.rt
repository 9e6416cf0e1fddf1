//! The words of a seed, each found by its number alone.
ghost use Rattle.ghs_make.specs.Word.{word as word_of_stream, word_at as word_of_state};
ghost use Rattle.std.specs.Prelude.{◌<◌, ◌^◌, ◌≡◌};

use rand_core::SeedableRng;
use rand_core::utils::NextWord;
use rand_xoshiro::SplitMix64;

/// By how much a word moves the state of SplitMix64.
pub const STEP: u64 = 0x9e37_79b9_7f4a_7c15;

/// Which links there are.
pub const PICKS: u64 = 0;

/// Which nodes of roads are dead ends.
pub const DEAD_ENDS: u64 = 1;

/// How links weigh.
pub const WEIGHING: u64 = 2;

/// The word of this number, of one of the seed's streams.
pub fn word(seed: u64, stream: u64, number: u64) -> u64
    ensures { result ≡ word_of_stream seed stream number }
{
    word_at(word_at(seed, stream), number)
}

/// The word of this number from a state of SplitMix64 on, counted from 0.
#[tactic(auto, unfolding(crate::specs::Word::word_at))]
fn word_at(state: u64, number: u64) -> u64
    ensures { result ≡ word_of_state state number }
{
    SplitMix64::seed_from_u64(state.wrapping_add(number.wrapping_mul(STEP))).next_word()
}
