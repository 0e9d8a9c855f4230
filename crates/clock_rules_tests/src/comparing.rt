//! Assertions in functions of their own, each of which is proved once. Written out at its use, an
//! assertion takes as much proof as a whole small test.

use clock_device::Items;
use std::fmt::Debug;
use std::process::Abort;

/// Asserts that a value is the one expected.
pub fn assert_is<T: Copy + PartialEq + Debug>(rt: &impl Abort, value: T, expected: T) {
    assert_is_at(rt, (), value, expected);
}

/// Asserts that a value is the one expected. If it is not, the failure shows the label.
pub fn assert_is_at<T: Copy + PartialEq + Debug, L: Copy + Debug>(
    rt: &impl Abort,
    label: L,
    value: T,
    expected: T,
) {
    assert_eq!(rt; value, expected, "at {label:?}");
}

/// Asserts that a list could be made, and has these items.
pub fn assert_has<T: Copy + Drop + PartialEq + Debug, L: Copy + Debug>(
    rt: &impl Abort,
    label: L,
    list: Option<Items<T>>,
    expected: &[T],
) {
    match list {
        Some(list) => assert_is_at(rt, label, list.as_slice(), expected),
        None => assert_is_at(rt, label, None, Some(expected)),
    }
}
