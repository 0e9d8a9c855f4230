use crate::comparing::{assert_is, assert_is_at};
use clock_fixtures::{ACTIVITY_LIMIT, GRANULES_AND_INCREMENTS, ONE_PRODUCT, TWO_PRODUCTS};
use clock_setup::OpeningFault::{Activity, Demand};
use clock_setup::Place::{
    BidderName, Cap, Eligibility, Granule, Limit, Name, Opening, Operator, Requirement, Supply,
    Token, Units,
};
use clock_setup::SetupFault::{DuplicateName, DuplicateToken, Range, Shape};
use clock_setup::{
    OpeningFault, Place, Product, Setup, SetupFault, read_opening, read_setup, setup_of,
};
use serde_json::Value;
use std::alloc::Global;
use std::process::Abort;

const NO_PRODUCTS: &str = r#"{
  "version": 1, "requirement": 95, "operator": "OPERATOROPERATOR",
  "products": [],
  "bidders": []
}"#;

const NO_BIDDERS: &str = r#"{
  "version": 1, "requirement": 95, "operator": "OPERATOROPERATOR",
  "products": [{"name": "A", "units": 1, "supply": 2, "cap": 2, "opening": 100}],
  "bidders": []
}"#;

/// Version, activity limit, activity requirement, and the numbers of products and bidders.
type Numbers = [u64; 5];

/// Bidding units, supply, cap, opening price, and granule of a product.
type Limits = [u64; 5];

fn numbers(setup: &Setup) -> Numbers {
    let products = setup.products.as_slice().len() as u64;
    let bidders = setup.bidders.as_slice().len() as u64;
    [
        setup.version,
        setup.limit,
        setup.requirement,
        products,
        bidders,
    ]
}

fn limits(product: &Product) -> Limits {
    [
        product.units,
        product.supply,
        product.cap,
        product.opening.get(),
        product.granule,
    ]
}

/// The result of reading a document: its numbers, and those of its first product.
type Reported = (Numbers, Option<Limits>);

fn reported(setup: &Setup) -> Reported {
    let first = match setup.products.as_slice().first() {
        Some(product) => Some(limits(product)),
        None => None,
    };
    (numbers(setup), first)
}

/// The set-up of a document. `None` if the document is refused.
pub fn setup_in(alloc: Global, document: &str) -> Option<Setup> {
    read_setup(alloc, document.as_bytes()).ok()
}

/// Like [`reported`], and frees the set-up.
fn taken(setup: Setup) -> Reported {
    let reported = reported(&setup);
    drop(setup);
    reported
}

/// Reads a document. The result is that of a copy of the set-up.
fn read(alloc: Global, text: &str) -> Result<Reported, SetupFault> {
    let setup = match read_setup(alloc, text.as_bytes()) {
        Ok(setup) => setup,
        Err(fault) => return Err(fault),
    };
    let copy = setup.copy(alloc);
    drop(setup);
    match copy {
        Ok(copy) => Ok(taken(copy)),
        Err(_) => Err(SetupFault::NoMemory),
    }
}

/// Reads the JSON value of a text.
fn read_value(alloc: Global, text: &str) -> Result<Reported, SetupFault> {
    let Ok(value) = Value::from_str(alloc, text) else {
        return Err(SetupFault::NotJson);
    };
    let setup = setup_of(alloc, &value);
    drop(value);
    match setup {
        Ok(setup) => Ok(taken(setup)),
        Err(fault) => Err(fault),
    }
}

/// Whether the last bidder has this name, token, and eligibility.
fn is_last_bidder(setup: &Setup, name: &[u8], token: &[u8], eligibility: u64) -> bool {
    let Some(bidder) = setup.bidders.as_slice().last() else {
        return false;
    };
    bidder.name.as_slice() == name
        && bidder.token.as_slice() == token
        && bidder.eligibility == eligibility
}

fn has_z_last(alloc: Global, text: &str) -> Option<bool> {
    let Some(setup) = setup_in(alloc, text) else {
        return None;
    };
    let has_z = is_last_bidder(&setup, b"Z", b"ZZZZZZZZZZZZZZZZ", 1);
    drop(setup);
    Some(has_z)
}

fn setup_fault(alloc: Global, text: &str) -> Option<SetupFault> {
    read_setup(alloc, text.as_bytes()).err()
}

/// The fault of a document in which `from` is replaced, if it has `from`.
fn changed_fault(alloc: Global, text: &str, from: &str, to: &str) -> Option<Option<SetupFault>> {
    let Some((before, after)) = text.split_once(from) else {
        return None;
    };
    let Ok(text) = format!(in alloc; "{before}{to}{after}") else {
        return None;
    };
    Some(setup_fault(alloc, text.as_str()))
}

/// Documents of both versions, with their numbers and those of their first products.
const SETUPS: &[(&str, Numbers, Limits)] = &[
    (ONE_PRODUCT, [1, 100, 95, 1, 2], [1, 2, 2, 100, 1]),
    (TWO_PRODUCTS, [1, 100, 100, 2, 3], [1, 2, 2, 100, 1]),
    (
        GRANULES_AND_INCREMENTS,
        [2, 100, 100, 2, 3],
        [1, 2, 2, 100, 25],
    ),
    (ACTIVITY_LIMIT, [2, 125, 100, 2, 2], [2, 4, 4, 100, 1]),
];

/// Asserts the result of reading a document by bytes, and by its JSON value.
fn is_read(rt: &impl Abort, alloc: Global, text: &str, expected: Reported) {
    assert_is_at(rt, text, read(alloc, text), Ok(expected));
    assert_is_at(rt, text, read_value(alloc, text), Ok(expected));
}

#[test]
fn reads_both_versions(rt: HostRuntime) {
    for row in SETUPS {
        is_read(&rt, rt.alloc(), row.0, (row.1, Some(row.2)));
    }
    assert_is(&rt, has_z_last(rt.alloc(), TWO_PRODUCTS), Some(true));
}

/// Texts that are no set-up, and their faults.
const NO_SETUPS: &[(&str, SetupFault)] = &[
    ("{", SetupFault::NotJson),
    ("", SetupFault::NotJson),
    ("\u{feff}{}", SetupFault::NotJson),
    ("{\"version\":1e400}", SetupFault::NotJson),
    ("\"\\ud800\"", SetupFault::NotJson),
    ("[]", Shape),
    ("{}", Shape),
    ("{\"version\":1.0}", Shape),
    ("{\"version\":-1}", Shape),
    ("{\"version\":18446744073709551616}", Shape),
    ("{\"version\":1}", Shape),
    ("{\"version\":2}", Shape),
    ("{\"version\":0}", SetupFault::Version),
    ("{\"version\":3}", SetupFault::Version),
    (NO_PRODUCTS, Range(Place::Products)),
    (NO_BIDDERS, Range(Place::Bidders)),
];

#[test]
fn refuses_what_is_no_setup(rt: HostRuntime) {
    for row in NO_SETUPS {
        assert_is_at(&rt, row.0, setup_fault(rt.alloc(), row.0), Some(row.1));
    }
}

/// A change of a document: the text, its replacement, and the fault then.
type Changed<'a> = (&'a str, &'a str, Option<SetupFault>);

/// Asserts that a document with one change has the fault of the row.
fn has_faults(rt: &impl Abort, alloc: Global, document: &str, rows: &[Changed]) {
    for row in rows {
        let found = changed_fault(alloc, document, row.0, row.1);
        assert_is_at(rt, row.1, found, Some(row.2));
    }
}

/// The faults of a document of one product, one after the other.
const FAULTS: &[Changed<'static>] = &[
    ("\"cap\": 2", "\"cap\": 2.0", Some(Shape)),
    ("\"cap\": 2", "\"cap\": 2, \"granule\": 1", Some(Shape)),
    ("\"units\": 1", "\"unit\": 1", Some(Shape)),
    ("\"X\"", "1", Some(Shape)),
    (
        "\"bidders\": [",
        "\"bidders\": {}, \"more\": [",
        Some(Shape),
    ),
    ("1,", "1, \"limit\": 100,", Some(Shape)),
    ("95", "49", Some(Range(Requirement))),
    ("95", "101", Some(Range(Requirement))),
    ("TOR\"", "TO\"", Some(Range(Operator))),
    ("\"A\"", "\"A b\"", Some(Range(Name(0)))),
    ("\"A\"", "\"\"", Some(Range(Name(0)))),
    ("\"units\": 1", "\"units\": 0", Some(Range(Units(0)))),
    ("\"supply\": 2", "\"supply\": 1001", Some(Range(Supply(0)))),
    ("\"cap\": 2", "\"cap\": 3", Some(Range(Cap(0)))),
    (": 100", ": 0", Some(Range(Opening(0)))),
    (": 100", ": 1000000000001", Some(Range(Opening(0)))),
    ("\"Y\"", "\"Y!\"", Some(Range(BidderName(1)))),
    ("YYYY\"", "YYY_\"", Some(Range(Token(1)))),
    (": 10}", ": 1000000000001}", Some(Range(Eligibility(0)))),
    ("\"Y\"", "\"X\"", Some(DuplicateName)),
    ("YYYYYYYYYYYYYYYY", "OPERATOROPERATOR", Some(DuplicateToken)),
    ("\"A\"", "\"X\"", None),
];

/// The faults of a document of version 2, some with a later fault in addition.
const FAULTS_OF_VERSION_2: &[Changed<'static>] = &[
    ("\"limit\": 100,", "", Some(Shape)),
    (", \"granule\": 1}", "}", Some(Shape)),
    ("100,", "99,", Some(Range(Limit))),
    ("100,", "101,", None),
    ("100,", "140,", None),
    ("100,", "141,", Some(Range(Limit))),
    ("25", "0", Some(Range(Granule(0)))),
    ("25", "1", None),
    ("25", "1000000", None),
    ("25", "1000001", Some(Range(Granule(0)))),
    (
        "100,\n  \"requirement\": 100",
        "99,\n  \"requirement\": 101",
        Some(Range(Requirement)),
    ),
    (
        "100,\n  \"requirement\": 100,\n  \"operator\": \"OPERATOR",
        "99,\n  \"requirement\": 100,\n  \"operator\": \"_",
        Some(Range(Limit)),
    ),
    (
        "100, \"granule\": 25",
        "0, \"granule\": 0",
        Some(Range(Opening(0))),
    ),
    (
        "25},\n    {\"name\": \"B\"",
        "0},\n    {\"name\": \"\"",
        Some(Range(Granule(0))),
    ),
];

#[test]
fn refuses_each_fault_of_a_setup(rt: HostRuntime) {
    let alloc = rt.alloc();
    has_faults(&rt, alloc, ONE_PRODUCT, FAULTS);
    has_faults(&rt, alloc, GRANULES_AND_INCREMENTS, FAULTS_OF_VERSION_2);
}

/// The total demand for an opening's first product and the increment, or the fault.
type Opened = Result<(u64, u64), OpeningFault>;

fn opened(alloc: Global, text: &str) -> Opened {
    match read_opening(alloc, text.as_bytes()) {
        Ok(opening) => {
            let shown = (opening.grid.total(0), opening.increment);
            drop(opening);
            Ok(shown)
        }
        Err(fault) => Err(fault),
    }
}

/// Reads an opening document with this set-up.
fn opened_of(alloc: Global, demands: &str, increment: &str, setup: &str) -> Opened {
    let Ok(text) = format!(in alloc;
        "{{\"demands\":{demands},\"increment\":{increment},\"setup\":{setup}}}"
    ) else {
        return Err(OpeningFault::NoMemory);
    };
    opened(alloc, text.as_str())
}

/// A set-up document of one product, in which X's eligibility pays for one block only.
const WEAK: &str = r#"{"version":1,"requirement":95,"operator":"OPERATOROPERATOR",
"products":[{"name":"A","units":1,"supply":2,"cap":2,"opening":100}],
"bidders":[{"name":"X","token":"XXXXXXXXXXXXXXXX","eligibility":1},
{"name":"Y","token":"YYYYYYYYYYYYYYYY","eligibility":10}]}"#;

/// A set-up document of a version that does not exist.
const NO_VERSION: &str = r#"{"version":3}"#;

const BAD_VERSION: OpeningFault = OpeningFault::Setup(SetupFault::Version);

/// The demands, the increment, and the set-up of an opening, and the result of reading it.
const OPENINGS: &[(&str, &str, &str, Opened)] = &[
    ("[[2],[1]]", "10", ONE_PRODUCT, Ok((3, 10))),
    (
        "[[0,2],[2,0],[0,1]]",
        "10",
        GRANULES_AND_INCREMENTS,
        Ok((2, 10)),
    ),
    ("[", "10", ONE_PRODUCT, Err(OpeningFault::NotJson)),
    ("[[1],[1]]", "1.0", ONE_PRODUCT, Err(OpeningFault::Shape)),
    ("[[1],\"1\"]", "10", ONE_PRODUCT, Err(OpeningFault::Shape)),
    ("[[1]]", "51", ONE_PRODUCT, Err(OpeningFault::Shape)),
    ("[[3],[1,1]]", "10", ONE_PRODUCT, Err(OpeningFault::Shape)),
    ("[[3],[1]]", "10", ONE_PRODUCT, Err(Demand(0, 0))),
    ("[[2],[3]]", "51", ONE_PRODUCT, Err(Demand(1, 0))),
    ("[[70000],[1]]", "10", ONE_PRODUCT, Err(Demand(0, 0))),
    ("[[2],[65537]]", "51", ONE_PRODUCT, Err(Demand(1, 0))),
    ("[[1],[1]]", "0", ONE_PRODUCT, Err(OpeningFault::Increment)),
    ("[[1],[1]]", "51", ONE_PRODUCT, Err(OpeningFault::Increment)),
    ("[[1],[1]]", "[10]", ONE_PRODUCT, Err(OpeningFault::Shape)),
    ("[]", "0", NO_VERSION, Err(BAD_VERSION)),
    ("[7]", "0", NO_VERSION, Err(OpeningFault::Shape)),
    ("[[3],[1]]", "10", WEAK, Err(Demand(0, 0))),
    ("[[2],[3]]", "10", WEAK, Err(Activity(0))),
    ("[[2],[70000]]", "10", WEAK, Err(Activity(0))),
    ("[[2],[1]]", "51", WEAK, Err(Activity(0))),
];

#[test]
fn reads_an_opening_or_refuses_it(rt: HostRuntime) {
    for row in OPENINGS {
        let found = opened_of(rt.alloc(), row.0, row.1, row.2);
        assert_is_at(&rt, (row.0, row.1), found, row.3);
    }
    let bare = opened(rt.alloc(), "{\"demands\":[],\"increment\":10}");
    assert_is(&rt, bare, Err(OpeningFault::Shape));
}
