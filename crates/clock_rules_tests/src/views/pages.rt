//! Pages of a set-up and of single values.

use crate::comparing::assert_has;
use crate::setups::setup_in;
use clock_device::Text;
use clock_fixtures::{GRANULES_AND_INCREMENTS, ONE_PRODUCT};
use clock_views::{accepted_page, closed_page, products_page, status_page};
use std::alloc::Global;

/// Set-up documents of both versions, of which the second has granules, with their products page
/// and their status page in the first round.
const SETUPS: &[(&str, &str, &str)] = &[
    (
        ONE_PRODUCT,
        r#"{"products":[{"cap":2,"name":"A","opening":100,"supply":2,"units":1}],"requirement":95,"version":1}"#,
        r#"{"ended":false,"round":1,"version":1}"#,
    ),
    (
        GRANULES_AND_INCREMENTS,
        r#"{"limit":100,"products":[{"cap":2,"granule":25,"name":"A","opening":100,"supply":2,"units":1},{"cap":2,"granule":1,"name":"B","opening":100,"supply":2,"units":1}],"requirement":100,"version":2}"#,
        r#"{"ended":false,"round":1,"version":2}"#,
    ),
];

/// The products page of a set-up document.
fn products_of(alloc: Global, document: &str) -> Option<Text> {
    let Some(setup) = setup_in(alloc, document) else {
        return None;
    };
    let page = products_page(alloc, &setup);
    drop(setup);
    page.ok()
}

/// The status page of the first round of a set-up document.
fn status_of(alloc: Global, document: &str) -> Option<Text> {
    let Some(setup) = setup_in(alloc, document) else {
        return None;
    };
    let page = status_page(alloc, &setup, 1, false);
    drop(setup);
    page.ok()
}

#[test]
fn pages_of_both_versions(rt: HostRuntime) {
    for row in SETUPS {
        let products = products_of(rt.alloc(), row.0);
        assert_has(&rt, row.0, products, row.1.as_bytes());
        let status = status_of(rt.alloc(), row.0);
        assert_has(&rt, row.0, status, row.2.as_bytes());
    }
}

#[test]
fn answers_to_changes(rt: HostRuntime) {
    let accepted = accepted_page(rt.alloc(), 1, 1).ok();
    let expected = br#"{"accepted":true,"bids":1,"round":1}"#;
    assert_has(&rt, "accepted", accepted, expected);
    let closed = closed_page(rt.alloc(), 1, false).ok();
    assert_has(&rt, "closed", closed, br#"{"closed":1,"ended":false}"#);
}
