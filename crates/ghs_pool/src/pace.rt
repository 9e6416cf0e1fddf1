//! When a worker looks over all nodes, how long it rests, and when and for how long it stays away.

/// A worker that has taken so many numbers since its last look looks again: the queue alone might not come to a node whose
/// number found no room.
const NUMBERS: u32 = 256;

/// A rest up to so long is made of turns given away, a longer one is slept: in microseconds, about.
const YIELDS: u32 = 32;

/// The longest rest, in microseconds.
const LONGEST: u32 = 1024;

/// A worker stays away so long, in microseconds, where nobody calls it.
pub const AWAY: u32 = 4096;

/// How many workers are at work at a time. The lock goes from one to the other while each performs what it has out; more
/// would only wait for it.
pub const PAIR: u32 = 2;

/// A worker that has made so many events since it came makes room for the one that was away the longest: the most, and the
/// least.
const STINT: usize = 1024;

const SHORT_STINT: usize = 64;

/// Between these a stint has one event for each so many nodes. A run makes several events for each node, so that there are
/// stints for all workers.
const STINT_NODES: usize = 32;

/// Where fewer numbers wait one worker is enough: what several write would go from processor to processor at each event.
const CROWD: usize = 32;

/// In a small network a number for each so many nodes is a crowd too.
const CROWD_NODES: usize = 32;

/// A look brings one node for each so many, 64 at most: one in a small network, so that its interleavings stay fine. Where
/// fewer numbers wait looks go on, until they have come to all nodes: so a run begins everywhere, though the queue begins
/// empty.
const LOOK_NODES: usize = 16;

const LOOK: usize = 64;

/// How many tickets a look puts into a hand.
pub fn part_of_look(nodes: usize) -> usize {
    (nodes / LOOK_NODES).clamp(1, LOOK)
}

/// From how many numbers on a second worker is worth it: few in a small network, so that several take part in a short run.
pub fn crowd_of(nodes: usize) -> usize {
    (nodes / CROWD_NODES).clamp(1, CROWD)
}

/// How many events a worker makes before it makes room: few in a small network, so that all take part in a short run, and many
/// in a large one, since whoever comes finds nothing at hand.
pub fn stint_of(nodes: usize) -> usize {
    (nodes / STINT_NODES).clamp(SHORT_STINT, STINT)
}

/// What a worker has done since it last looked, rested and came.
#[derive(Clone, Copy, Debug)]
pub struct Pace {
    /// The numbers taken since the last look.
    taken: u32,
    /// How long the last rest was; none since an event happened.
    pause: u32,
    /// The events made since the worker came.
    stint: u32,
    is_away: bool,
}

impl Pace {
    /// A worker begins at work.
    pub fn new() -> Pace {
        Pace {
            taken: 0,
            pause: 0,
            stint: 0,
            is_away: false,
        }
    }

    /// The worker comes to the lock; whether it was away.
    pub fn come(&mut self) -> bool {
        let was_away = self.is_away;
        self.is_away = false;
        was_away
    }

    /// Whether the worker has enough of it where so many numbers wait at so many nodes, looks have still to come to so many of
    /// them, and others are at work too.
    pub fn has_enough(&self, waiting: usize, unlooked: usize, nodes: usize, workers: u32) -> bool {
        let is_enough_for_one = waiting == 0 || (self.stint > 0 && waiting < crowd_of(nodes));
        (is_enough_for_one && unlooked == 0)
            || (self.stint as usize >= stint_of(nodes) && workers > PAIR)
    }

    /// The worker leaves.
    pub fn leave(&mut self) {
        self.is_away = true;
        self.stint = 0;
    }

    /// A number was taken.
    pub fn take(&mut self) {
        self.taken = self.taken.saturating_add(1);
    }

    /// Whether a look is due though numbers may wait.
    pub fn is_due(&self) -> bool {
        self.taken >= NUMBERS
    }

    /// A look is made.
    pub fn look(&mut self) {
        self.taken = 0;
    }

    /// An event happened: the next rest is a short one.
    pub fn note_event(&mut self) {
        self.pause = 0;
        self.stint = self.stint.saturating_add(1);
    }

    /// A rest begins, twice as long as the one before.
    pub fn rest(&mut self) {
        self.pause = (self.pause.saturating_mul(2)).clamp(1, LONGEST);
    }

    /// How many turns the worker gives away in this rest, where it doesn't sleep.
    pub fn yields(&self) -> u32 {
        if self.pause < YIELDS { self.pause } else { 0 }
    }

    /// For how many microseconds the worker sleeps in this rest, where it sleeps.
    pub fn sleep(&self) -> u32 {
        if self.pause < YIELDS { 0 } else { self.pause }
    }
}
