//! The codes of replies, each with its status, its reason, and its text.

use crate::comparing::assert_is_at;
use clock_api::Code;
use std::process::Abort;

/// A status and its reason, and the codes that have these, each with its text in pages.
type Status<'a> = (u16, &'a str, &'a [(Code, &'a str)]);

const STATUSES: &[Status<'static>] = &[
    (200, "OK", &[(Code::Done, "done")]),
    (400, "Bad Request", BAD_REQUESTS),
    (401, "Unauthorized", &[(Code::Token, "token")]),
    (403, "Forbidden", &[(Code::Role, "role")]),
    (404, "Not Found", NOT_FOUND),
    (405, "Method Not Allowed", &[(Code::Method, "method")]),
    (409, "Conflict", CONFLICTS),
    (413, "Payload Too Large", &[(Code::LongBody, "long_body")]),
    (422, "Unprocessable Entity", OF_SHEETS),
    (422, "Unprocessable Entity", OF_CLOSINGS),
    (422, "Unprocessable Entity", OF_TIES),
    (431, "Request Header Fields Too Large", LONG_HEADS),
    (501, "Not Implemented", &[(Code::Coding, "coding")]),
    (503, "Service Unavailable", &[(Code::Memory, "memory")]),
];

const BAD_REQUESTS: &[(Code, &str)] = &[
    (Code::BadHead, "bad_head"),
    (Code::BadLength, "bad_length"),
    (Code::CutShort, "cut_short"),
    (Code::BadJson, "bad_json"),
];

const NOT_FOUND: &[(Code, &str)] = &[(Code::NoPage, "no_page"), (Code::NoRound, "no_round")];

const CONFLICTS: &[(Code, &str)] = &[(Code::Ended, "ended"), (Code::WrongRound, "wrong_round")];

const LONG_HEADS: &[(Code, &str)] = &[(Code::LongHead, "long_head")];

/// Codes for sheets that are read and refused.
const OF_SHEETS: &[(Code, &str)] = &[
    (Code::Shape, "shape"),
    (Code::TooMany, "too_many"),
    (Code::UnknownProduct, "unknown_product"),
    (Code::PriceRange, "price_range"),
    (Code::OverCap, "over_cap"),
    (Code::PriceOrder, "price_order"),
    (Code::MixedDirection, "mixed_direction"),
    (Code::KeepPrice, "keep_price"),
    (Code::OverActivity, "over_activity"),
];

/// Codes for closings, and for their tie-breaking numbers.
const OF_CLOSINGS: &[(Code, &str)] = &[
    (Code::Increment, "increment"),
    (Code::PriceLimit, "price_limit"),
];

const OF_TIES: &[(Code, &str)] = &[
    (Code::TieRange, "tie_range"),
    (Code::TieRepeated, "tie_repeated"),
    (Code::TooManyTies, "too_many_ties"),
];

/// Asserts that codes have a status, its reason, and their texts.
fn have_status(rt: &impl Abort, row: &Status) {
    for (code, text) in row.2 {
        let reported = (code.status(), code.reason(), code.text());
        assert_is_at(rt, *code, reported, (row.0, row.1, *text));
    }
}

#[test]
fn a_code_has_its_status_its_reason_and_its_text(rt: HostRuntime) {
    for row in STATUSES {
        have_status(&rt, row);
    }
}
