//! Schedules: which of the events that may happen comes next.
ghost use Rattle.peer_schedule.specs.Schedule.{next_of, seeded, word_of};
ghost use Rattle.std.specs.Prelude.{IfOk, ◌%◌, ◌<◌, ◌≡◌, ◌≤◌};

use rand_core::SeedableRng;
use rand_core::utils::NextWord;
use rand_xoshiro::Xoshiro256PlusPlus;
use std::alloc::AllocError;
use std::marker::Model;

/// The stream of random words by which a seeded run picks its events: a seed fixes it, by Xoshiro256++. Not for secrets.
/// Among which events a word picks is said elsewhere.
#[derive(Debug, Drop)]
pub struct Schedule {
    words: Xoshiro256PlusPlus,
}

impl Model for Schedule {
    ghost use Rattle.std.specs.Prelude.{List, ℕ};

    ghost Value = { List ℕ };

    ghost view = { λ s. s.words };
}

impl Schedule {
    /// The schedule of a seed, which SplitMix64 makes the generator's first state of.
    pub fn seeded(seed: u64) -> Schedule
        ensures { result ≡ seeded seed }
    {
        Schedule {
            words: Xoshiro256PlusPlus::seed_from_u64(seed),
        }
    }

    /// An equal schedule.
    pub fn copy(&self) -> Result<Schedule, AllocError>
        ensures { IfOk result (λ s. s ≡ self.now) }
    {
        Ok(Schedule {
            words: self.words.clone()?,
        })
    }

    /// A place in a list of this length, which is 1 at least: the next word, modulo the length.
    pub fn pick(&mut self, len: usize) -> usize
        requires { 1 ≤ len }
        ensures pick { result ≡ word_of self.old % len }
        ensures within { result < len }
        ensures next { self.new ≡ next_of self.old }
    {
        (self.words.next_word() % len as u64) as usize
    }
}
