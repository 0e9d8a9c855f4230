//! What a start makes of the two files of a journal.
use super::crash_disk::CrashDisk;
use crate::comparing::{assert_is_at, assert_reads_at};
use clock_device::ListSource;
use clock_journal::{LevelFault, level};
use std::alloc::Global;
use std::process::Abort;

/// Two files before a start and after it, how many calls of each disk succeed, and how it ends.
#[derive(Drop)]
struct Start<'a> {
    name: &'a str,
    one: &'a str,
    other: &'a str,
    calls: u64,
    other_calls: u64,
    end: Result<(), LevelFault>,
    left: &'a str,
    other_left: &'a str,
}

/// Asserts how a start ends, and what it leaves.
fn assert_starts(rt: &impl Abort, alloc: Global, start: &Start<'_>) {
    let (one, other) = (start.one.as_bytes(), start.other.as_bytes());
    let mut first = CrashDisk::new(rt, alloc, one, start.calls);
    let mut second = CrashDisk::new(rt, alloc, other, start.other_calls);
    let mut first_source = ListSource::new(one, 2, None);
    let mut second_source = ListSource::new(other, 3, None);
    let end = level(
        &mut first,
        &mut second,
        &mut first_source,
        &mut second_source,
    );
    assert_is_at(rt, start.name, end, start.end);
    assert_reads_at(rt, start.name, first.bytes(), start.left);
    assert_reads_at(rt, start.name, second.bytes(), start.other_left);
    drop(first);
    drop(second);
}

/// A start on disks that fail at no call.
const fn unfailing<'a>(
    name: &'a str,
    one: &'a str,
    other: &'a str,
    end: Result<(), LevelFault>,
    left: &'a str,
    other_left: &'a str,
) -> Start<'a> {
    Start {
        name,
        one,
        other,
        calls: 3,
        other_calls: 3,
        end,
        left,
        other_left,
    }
}

#[test]
fn the_shorter_file_is_brought_up(rt: HostRuntime) {
    let rows = [
        unfailing("both are new", "", "", Ok(()), "", ""),
        unfailing("both are alike", "abc", "abc", Ok(()), "abc", "abc"),
        unfailing("the second is new", "abc", "", Ok(()), "abc", "abc"),
        unfailing("the first is empty", "", "abc", Ok(()), "abc", "abc"),
        unfailing("the second lacks its end", "abc", "a", Ok(()), "abc", "abc"),
        unfailing("the first lacks its end", "a", "abc", Ok(()), "abc", "abc"),
    ];
    for row in rows.iter() {
        assert_starts(&rt, rt.alloc(), row);
    }
}

#[test]
fn two_files_that_differ_are_refused_and_unchanged(rt: HostRuntime) {
    let (first, last) = (Err(LevelFault::Differs(0)), Err(LevelFault::Differs(2)));
    let rows = [
        unfailing("the first byte", "x", "abc", first, "x", "abc"),
        unfailing("the last byte", "abd", "abc", last, "abd", "abc"),
        unfailing(
            "a byte before the end",
            "ab",
            "axyz",
            Err(LevelFault::Differs(1)),
            "ab",
            "axyz",
        ),
    ];
    for row in rows.iter() {
        assert_starts(&rt, rt.alloc(), row);
    }
}

/// A start on disks of which one fails.
const fn failing<'a>(
    name: &'a str,
    one: &'a str,
    other: &'a str,
    calls: u64,
    other_calls: u64,
    left: &'a str,
    other_left: &'a str,
) -> Start<'a> {
    Start {
        name,
        one,
        other,
        calls,
        other_calls,
        end: Err(LevelFault::Failed),
        left,
        other_left,
    }
}

#[test]
fn a_failed_call_of_either_disk_is_reported(rt: HostRuntime) {
    let rows = [
        failing(
            "the first is not appended to",
            "",
            "abcd",
            0,
            3,
            "ab",
            "abcd",
        ),
        failing("the first is not synced", "abcd", "", 2, 3, "abcd", ""),
        failing(
            "the second is not appended to",
            "abcd",
            "",
            3,
            0,
            "abcd",
            "ab",
        ),
        failing(
            "the second is not synced",
            "abcd",
            "a",
            3,
            2,
            "abcd",
            "abcd",
        ),
    ];
    for row in rows.iter() {
        assert_starts(&rt, rt.alloc(), row);
    }
}
