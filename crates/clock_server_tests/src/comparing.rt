//! Assertions in functions of their own, each of which is proved once. Written out at its use, an
//! assertion takes as much proof as a whole small test.

ghost use Rattle.std.specs.Prelude.{◌≡◌, Some};

use std::fmt::Debug;
use std::process::Abort;

/// Asserts that a value is the one expected.
pub fn assert_is<T: Copy + PartialEq + Debug>(rt: &impl Abort, value: T, expected: T) {
    assert_is_at(rt, (), value, expected);
}

/// Asserts that a value is the one that a row of a table expects. If it is not, the failure names
/// the row.
pub fn assert_is_at<T: Copy + PartialEq + Debug, R: Copy + Debug>(
    rt: &impl Abort,
    row: R,
    value: T,
    expected: T,
) {
    assert!(rt;
        value == expected,
        "in row {row:?}: {value:?} is not {expected:?}"
    );
}

/// Like [`assert_is_at`], for bytes that are text, which a failure shows as text.
pub fn assert_reads_at<R: Copy + Debug>(rt: &impl Abort, row: R, bytes: &[u8], expected: &str) {
    assert_is_at(rt, row, std::str::from_utf8(bytes).ok(), Some(expected));
}

/// Returns a value that a row of a table needs. If there is none, the failure names the row. A `?`
/// in its place takes more proof: each value that its function owns is freed there too.
pub fn made_at<T: Drop, R: Copy + Debug>(rt: &impl Abort, row: R, value: Option<T>) -> T
    ensures { value ≡ Some result }
{
    match value {
        Some(value) => value,
        None => panic!(rt; "in row {row:?}: no value"),
    }
}
