//! Among which events a schedule picks.

/// Among which events a schedule picks the next one, as `--schedule` names it.
#[derive(Clone, Copy, Debug, PartialEq, Eq)]
pub enum ScheduleKind {
    /// Among all that may happen.
    Seeded,
    /// Among those that move the run on, and so every run ends; where there is none, among those that uncover one.
    Patient,
    /// Patiently among those of a round: each message takes one unit of time, and computing none.
    Rounds,
    /// Among those that only put their message back; where there is none, among all that may happen.
    Waits,
    /// Not among several: of the ports whose first message would be consumed, the one to which a message was sent last. Where
    /// there is none, among the wakes, and else among those that uncover one; and so every run ends.
    Lifo,
    /// Not among several: lap after lap the ports are gone over, and one message is taken from each that holds any when its
    /// place comes; nodes wake in the first lap. So every run ends, and a seed has no effect.
    RoundRobin,
}
