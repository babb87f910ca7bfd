//! Assertions, which end the test where they fail.
use std::fmt::Debug;
use std::process::Abort;

/// What is found of the thing of this name is what is expected.
pub fn equal<T: Copy + Debug + PartialEq>(rt: &impl Abort, found: T, expected: T, name: &str) {
    assert_eq!(rt; found, expected, "{name}");
}

/// What is said of the thing of this name is true.
pub fn holds(rt: &impl Abort, said: bool, name: &str) {
    assert!(rt; said, "{name}");
}
