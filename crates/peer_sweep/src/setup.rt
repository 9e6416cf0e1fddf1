//! What runs have in common.
use ghs_choices::schedule_kind::ScheduleKind;
use peer_network::wake_set::WakeSet;

/// What the runs of a sweep have in common.
#[derive(Clone, Copy, Debug, PartialEq, Eq)]
pub struct Setup {
    /// Among which events their schedules pick.
    pub schedule_kind: ScheduleKind,
    /// Which nodes wake by themselves.
    pub wake: WakeSet,
    /// How many events each run may have, 1 to 2^40.
    pub turns: u64,
}
