//! Two values that have to be the same. An `assert_eq!` is some thirty locals in the proof of the function around it; here it is
//! proved once, for values of any type.
use std::fmt::Debug;
use std::process::Abort;

/// Two values are the same.
pub fn assert_same<T: PartialEq + Debug>(rt: &impl Abort, found: &T, want: &T) {
    assert_eq!(rt; *found, *want);
}

/// Two values are the same; where they aren't, it is said of what.
pub fn assert_same_of<T: PartialEq + Debug, W: Debug>(
    rt: &impl Abort,
    found: &T,
    want: &T,
    of: &W,
) {
    assert_eq!(rt; *found, *want, "of {of:?}");
}
