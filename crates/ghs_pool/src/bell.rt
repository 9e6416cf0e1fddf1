//! What wakes workers that sleep: one where there is work for it, all when their run is over.
use std::sync::Wait;
use std::sync::atomic::{AtomicU64, Ordering};
use std::thread;
use std::time::Duration;

/// What the bell's word holds while the run goes on, and what from its end on.
const SILENT: u32 = 0;

const RUNG: u64 = 1;

/// How many turns at most a worker gives away for another to visit the lock.
const PATIENCE: u32 = 64;

/// Workers sleep beside it, holding nothing. It is rung once for all, and from then on nobody sleeps.
#[derive(Drop)]
pub struct Bell {
    /// Whether the bell has rung; who sleeps waits for this word.
    word: AtomicU64,
    /// The worker that visited the lock last; none has the number 0.
    visitor: AtomicU64,
}

impl Bell {
    pub fn new() -> Bell {
        Bell {
            word: AtomicU64::new(SILENT as u64),
            visitor: AtomicU64::new(0),
        }
    }

    /// Wakes all that sleep, since the run is over.
    pub fn ring(&self) {
        self.word.store(RUNG, Ordering::SeqCst);
        self.word.wake_all();
    }

    /// A worker visits the lock.
    pub fn visit(&self, worker: u32) {
        self.visitor.store(worker as u64, Ordering::SeqCst);
    }

    /// Gives turns away until another worker than this one has visited the lock last, but not for long.
    pub fn give_way(&self, worker: u32) {
        for _ in 0..PATIENCE {
            if self.visitor.load(Ordering::SeqCst) != worker as u64 || self.has_rung() {
                return;
            }
            thread::yield_now();
        }
    }

    /// Wakes one that sleeps, the one that has slept the longest.
    pub fn call(&self) {
        self.word.wake_one();
    }

    /// Whether the run is over.
    pub fn has_rung(&self) -> bool {
        self.word.load(Ordering::SeqCst) == RUNG
    }

    /// Sleeps so many microseconds, or until the run is over. It may end before.
    pub fn sleep<R: Wait>(&self, rt: &R, micros: u32) {
        let time = Duration::from_micros(micros as u64);
        self.word.park_timeout(rt, SILENT, time);
    }
}
