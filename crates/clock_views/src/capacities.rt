//! The most bytes of each page: a sum over the shape of the page, for any values.

/// A number: 20 digits at most. The word `null` counts the same.
const NUMBER: u128 = 20;

/// A truth value: the longer word is `false`.
const TRUTH: u128 = 5;

/// A name: 32 characters at most, in quotes.
const NAME: u128 = 34;

/// The code of a refusal: 32 letters at most, in quotes.
const CODE: u128 = 34;

/// The brackets of an array. Its items are counted separately.
const ARRAY: u128 = 2;

/// An object: two braces, and for each member its key in quotes, a colon, its value, and a comma.
macro_rules! object {
    ($($key:literal: $value:expr),*) => { 2 $(+ 4 + $key.len() as u128 + $value)* };
}

/// An object that is an element of an array: a comma, and the object.
macro_rules! element {
    ($($key:literal: $value:expr),*) => { 1 + object!($($key: $value),*) };
}

/// A demand as an item: a comma, and the number.
pub(crate) const DEMAND: u128 = 1 + NUMBER;

/// The status.
pub(crate) const STATUS: u128 = object!("ended": TRUTH, "round": NUMBER, "version": NUMBER);

/// The products, without the items.
pub(crate) const PRODUCTS: u128 =
    object!("limit": NUMBER, "products": ARRAY, "requirement": NUMBER, "version": NUMBER);

/// A product.
pub(crate) const PRODUCT: u128 = element!(
    "cap": NUMBER, "granule": NUMBER, "name": NAME, "opening": NUMBER, "supply": NUMBER,
    "units": NUMBER
);

/// A closed round, without its lines.
pub(crate) const SHEET: u128 = object!("ended": TRUTH, "products": ARRAY, "round": NUMBER);

/// A product's line of a closed round.
pub(crate) const LINE: u128 = element!(
    "clock": NUMBER, "demand": NUMBER, "name": NAME, "next": NUMBER, "posted": NUMBER,
    "start": NUMBER
);

/// A bidder's account, without its demands.
pub(crate) const ACCOUNT: u128 = object!(
    "activity": NUMBER, "demands": ARRAY, "eligibility": NUMBER, "ended": TRUTH, "name": NAME,
    "round": NUMBER
);

/// A bidder's sheet that is null.
pub(crate) const NO_BIDS: u128 = object!("bids": NUMBER, "round": NUMBER);

/// A bidder's sheet, without its bids.
pub(crate) const BIDS: u128 = object!("bids": ARRAY, "round": NUMBER);

/// A bid.
pub(crate) const BID: u128 = element!("price": NUMBER, "product": NUMBER, "quantity": NUMBER);

/// The page that accepts a sheet.
pub(crate) const ACCEPTED: u128 = object!("accepted": TRUTH, "bids": NUMBER, "round": NUMBER);

/// A bidder's slip, without its demands.
pub(crate) const SLIP: u128 =
    object!("activity": NUMBER, "demands": ARRAY, "eligibility": NUMBER, "round": NUMBER);

/// The page that accepts a closing.
pub(crate) const CLOSED: u128 = object!("closed": NUMBER, "ended": TRUTH);

/// The results, without the bidders.
pub(crate) const RESULTS: u128 = object!("bidders": ARRAY, "ended": TRUTH, "round": NUMBER);

/// A bidder of the results, without its demands.
pub(crate) const RESULT: u128 = element!("demands": ARRAY, "eligibility": NUMBER, "name": NAME);

/// A refusal.
pub(crate) const REFUSAL: u128 =
    object!("code": CODE, "place": NUMBER, "round": NUMBER, "status": NUMBER);
