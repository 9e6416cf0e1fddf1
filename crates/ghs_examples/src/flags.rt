//! Worked examples on a row of four blocks, with ample memory.
use ghs_flags::flags::Flags;
use std::alloc::Global;
use std::process::Abort;

/// The raised flags of the row: at the ends of words and blocks, and its last one.
const RAISED: [usize; 7] = [0, 63, 64, 511, 512, 1500, 1999];

/// A row of 2000 flags.
fn row(rt: &impl Abort, alloc: Global) -> Flags {
    let mut flags = Flags::lowered(alloc, 2000).expect(rt, "memory for a row");
    for place in RAISED {
        set(rt, &mut flags, place, true);
    }
    flags
}

fn set(rt: &impl Abort, flags: &mut Flags, place: usize, raised: bool) {
    assert!(rt; place < flags.len());
    flags.set(place, raised);
    assert_eq!(rt; flags.is_raised(place), raised, "at {place}");
}

fn assert_count(rt: &impl Abort, flags: &Flags, places: usize, raised: u32) {
    assert!(rt; flags.len() == places);
    assert!(rt; flags.count() == raised);
}

/// The flag of a rank, and how many are raised before it.
fn assert_rank(rt: &impl Abort, flags: &Flags, k: u32, place: usize) {
    assert!(rt; k < flags.count() && place <= flags.len());
    assert_eq!(rt; (flags.kth(k), flags.count_before(place)), (place, k));
}

#[test]
fn raised_flags_by_rank(rt: HostRuntime) {
    let flags = row(&rt, rt.alloc());
    assert_count(&rt, &flags, 2000, 7);
    for k in 0..7u32 {
        assert_rank(&rt, &flags, k, RAISED[k as usize]);
    }
}

/// The first raised flag from a place on.
fn assert_first(rt: &impl Abort, flags: &Flags, place: usize, want: Option<usize>) {
    assert!(rt; place <= flags.len());
    assert_eq!(rt; flags.first_from(place), want, "from {place}");
}

/// The first raised flag from a place on and before an end.
fn assert_between(rt: &impl Abort, flags: &Flags, place: usize, end: usize, want: Option<usize>) {
    assert!(rt; place <= end && end <= flags.len());
    assert_eq!(rt;
        flags.first_from_to(place, end),
        want,
        "from {place} to {end}"
    );
}

const FIRST_FROM: [(usize, Option<usize>); 6] = [
    (0, Some(0)),
    (1, Some(63)),
    (64, Some(511)),
    (512, Some(1500)),
    (1501, Some(1999)),
    (2000, None),
];

const FIRST_BETWEEN: [(usize, usize, Option<usize>); 5] = [
    (1, 63, None),
    (1, 64, Some(63)),
    (512, 1500, None),
    (512, 1501, Some(1500)),
    (1999, 1999, None),
];

/// The row without two of its flags.
fn thinned(rt: &impl Abort, alloc: Global) -> Flags {
    let mut flags = row(rt, alloc);
    set(rt, &mut flags, 64, false);
    set(rt, &mut flags, 512, false);
    flags
}

#[test]
fn raised_flags_from_a_place_on(rt: HostRuntime) {
    let flags = thinned(&rt, rt.alloc());
    for (place, want) in &FIRST_FROM {
        assert_first(&rt, &flags, *place, *want);
    }
    for (place, end, want) in &FIRST_BETWEEN {
        assert_between(&rt, &flags, *place, *end, *want);
    }
}

#[test]
fn a_row_of_none(rt: HostRuntime) {
    let flags = Flags::lowered(rt.alloc(), 0).expect(&rt, "memory for a row");
    assert_count(&rt, &flags, 0, 0);
    assert!(rt; flags.count_before(0) == 0);
    assert_first(&rt, &flags, 0, None);
}
