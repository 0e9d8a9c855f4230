//! Prices, and how a clock price is raised.

use crate::comparing::assert_is_at;
use clock_money::{LEAST_INCREMENT, MOST_GRANULE, MOST_INCREMENT, Price, clock_price};

/// The dollars of a price, if there is one.
fn dollars_of(price: Option<Price>) -> Option<u64> {
    match price {
        Some(price) => Some(price.get()),
        None => None,
    }
}

/// The clock price over a start-of-round price, if that price, the increment, and the granule are
/// within their limits.
fn raised(start: u64, percent: u64, granule: u64) -> Option<Option<u64>> {
    let Some(start) = Price::new(start) else {
        return None;
    };
    if !(LEAST_INCREMENT..=MOST_INCREMENT).contains(&percent)
        || !(1..=MOST_GRANULE).contains(&granule)
    {
        return None;
    }
    Some(dollars_of(clock_price(start, percent, granule)))
}

/// Amounts in dollars, and those that are a price.
const DOLLARS: &[(u64, Option<u64>)] = &[
    (0, None),
    (1, Some(1)),
    (Price::HIGHEST, Some(Price::HIGHEST)),
    (Price::HIGHEST + 1, None),
];

#[test]
fn a_price_is_from_one_dollar_to_the_highest(rt: HostRuntime) {
    for row in DOLLARS {
        assert_is_at(&rt, row.0, dollars_of(Price::new(row.0)), row.1);
    }
}

/// Start-of-round prices, increments, granules, and the clock prices.
const RAISED: &[(u64, u64, u64, Option<u64>)] = &[
    (101, 10, 1, Some(112)),
    (110, 10, 1, Some(121)),
    (1, 1, 1, Some(2)),
    (990_099_009_900, 1, 1, Some(999_999_999_999)),
    (101, 10, 25, Some(125)),
    (990_099_009_900, 1, 999_999, Some(999_999_999_999)),
    (990_099_009_900, 1, MOST_GRANULE, Some(Price::HIGHEST)),
    (990_099_009_900, 1, 17, None),
    (990_099_009_901, 1, 1, None),
    (Price::HIGHEST, 1, 1, None),
];

#[test]
fn clock_prices_round_up_to_whole_granules(rt: HostRuntime) {
    for row in RAISED {
        assert_is_at(&rt, row.0, raised(row.0, row.1, row.2), Some(row.3));
    }
}
