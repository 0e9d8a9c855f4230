use crate::comparing::assert_is_at;
use clock_json::{Scan, ScanStop, ShortRows, is_blank};
use std::alloc::Global;

/// A sum to which numbers are added.
fn with_numbers(sum: u64, numbers: &[u16]) -> u64 {
    let mut sum = sum;
    for number in numbers {
        sum = sum.wrapping_add(*number as u64);
    }
    sum
}

/// The sum of the numbers of all rows.
fn sum_of(rows: &ShortRows) -> u64 {
    let mut sum = 0u64;
    for numbers in rows.as_slice() {
        sum = with_numbers(sum, numbers.as_slice());
    }
    sum
}

/// Whether each row has three numbers.
fn have_width(rows: &ShortRows) -> bool {
    for row in rows.as_slice() {
        if row.len() != 3 {
            return false;
        }
    }
    true
}

/// The number of rows, the sum of their numbers, and whether each row has three numbers; or 9 and
/// the reason that reading stopped.
fn short_rows_of(alloc: Global, text: &str) -> (usize, u64, bool) {
    match Scan::new(text).short_rows(alloc) {
        Ok(rows) => { (rows.len(), sum_of(&rows), have_width(&rows)) }
        Err(ScanStop::Unusual) => (9, 0, false),
        Err(ScanStop::NoMemory) => (9, 1, false),
    }
}

/// The lengths of the key and the text of an object with one member, if it comes next.
fn next_member(scan: &mut Scan<'_>) -> Option<(usize, usize)> {
    if scan.opens(b'{').is_err() {
        return None;
    }
    let Ok(key) = scan.key() else {
        return None;
    };
    match scan.text() {
        Ok(value) if scan.closes(b'}') => Some((key.len(), value.len())),
        _ => None,
    }
}

/// The lengths of [`next_member`], if the object is the whole text.
fn member_of(text: &str) -> Option<(usize, usize)> {
    let mut scan = Scan::new(text);
    let member = next_member(&mut scan);
    if scan.ends() { member } else { None }
}

/// Texts, and the results for their rows.
const ROWS: &[(&str, (usize, u64, bool))] = &[
    ("[[1,2],[ 3 ]\n,[]]", (3, 6, false)),
    ("[[1,2,3],[4,5,6]]", (2, 21, true)),
    ("[[1,2,3],[4,5]]", (2, 15, false)),
    ("[[65535,2],[1]]", (2, 65_538, false)),
    (" [ ] ", (0, 0, true)),
    ("[[65535,65536],[1]]", (9, 0, false)),
    ("[[9999999999999999999]]", (9, 0, false)),
    ("[[10000000000000000000]]", (9, 0, false)),
    ("[[01]]", (9, 0, false)),
    ("[[1.0]]", (9, 0, false)),
    ("[[-1]]", (9, 0, false)),
    ("[[1,],[2]]", (9, 0, false)),
    ("[[1][2]]", (9, 0, false)),
    ("[1]", (9, 0, false)),
];

#[test]
fn rows_in_one_list(rt: HostRuntime) {
    for row in ROWS {
        assert_is_at(&rt, row.0, short_rows_of(rt.alloc(), row.0), row.1);
    }
}

/// Texts, and the member of each that is an object with one.
const MEMBERS: &[(&str, Option<(usize, usize)>)] = &[
    ("{\"name\":\"P1\"}", Some((4, 2))),
    (" {\"\" : \"a b\" }\t", Some((0, 3))),
    ("{\"name\":\"P\\n\"}", None),
    ("{\"na\\u006de\":\"P\"}", None),
    ("{\"name\":\"P\"} 1", None),
    ("{\"name\":\"P\":1}", None),
    ("{\"name\" \"P\"}", None),
];

#[test]
fn members_with_texts(rt: HostRuntime) {
    for row in MEMBERS {
        assert_is_at(&rt, row.0, member_of(row.0), row.1);
    }
}

/// Whether a text is a list of one `null`.
fn is_one_null(text: &str) -> bool {
    let mut scan = Scan::new(text);
    scan.opens(b'[').is_ok() && scan.null() && scan.closes(b']') && scan.ends()
}

/// Texts, whether each is blank, and whether it is a list of one `null`.
const WORDS: &[(&str, bool, bool)] = &[
    ("", true, false),
    (" \n\t\r ", true, false),
    ("  0", false, false),
    ("\x0b", false, false),
    ("[null]", false, true),
    (" [ null\n]", false, true),
    ("[null,1]", false, false),
    ("[nul]", false, false),
    ("[nullx]", false, false),
    ("[null", false, false),
];

#[test]
fn blank_texts_and_the_word_null(rt: HostRuntime) {
    for row in WORDS {
        let found = (is_blank(row.0.as_bytes()), is_one_null(row.0));
        assert_is_at(&rt, row.0, found, (row.1, row.2));
    }
}
