//! The page of a path.
use crate::comparing::{assert_is_at, made_at};
use crate::front::example::on_one_product;
use clock_api::Code;
use std::alloc::Global;
use std::process::Abort;

/// Codes of replies, and the paths that are answered so without a token.
const PATHS: &[(Code, &[&str])] = &[
    (Code::Done, &["/v1/status", "/v1/products"]),
    (Code::NoRound, &["/v1/rounds/12", "/v1/rounds/x"]),
    (
        Code::Token,
        &["/v1/me", "/v1/me/bids", "/v1/me/rounds/01", "/v1/results"],
    ),
    (Code::Method, &["/v1/close"]),
    (Code::BadHead, &[""]),
    (Code::NoPage, NO_PAGES),
];

const NO_PAGES: &[&str] = &[
    "*",
    "/",
    "/v1/status/",
    "//v1/status",
    "/v1/%73tatus",
    "/V1/status",
    "/v1/rounds",
    "/v1/rounds/",
    "/v1/rounds/1/2",
    "http://x/v1/status",
];

/// The code of the reply to a request for a path without a token.
fn code_of(rt: &impl Abort, alloc: Global, path: &str) -> Code {
    let text = format!(in alloc; "GET {path} HTTP/1.1\r\n\r\n").ok();
    let text = made_at(rt, path, text);
    on_one_product(rt, alloc, |front| {
        front.answer(text.as_str().as_bytes()).code()
    })
}

/// Asserts the code of the replies to requests for these paths.
fn are_answered(rt: &impl Abort, alloc: Global, paths: &[&str], code: Code) {
    for path in paths {
        assert_is_at(rt, *path, code_of(rt, alloc, path), code);
    }
}

#[test]
fn a_path_names_a_page_or_none(rt: HostRuntime) {
    for &(code, paths) in PATHS {
        are_answered(&rt, rt.alloc(), paths, code);
    }
}
