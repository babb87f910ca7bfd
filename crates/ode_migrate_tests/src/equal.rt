//! Comparisons.
use std::fmt::Debug;
use std::process::Abort;

/// What is found is what is expected.
pub fn equal<T: PartialEq + Debug>(rt: &impl Abort, found: &T, expected: &T) {
    assert_eq!(rt; *found, *expected);
}
