//! Price points, and how they compare.

use crate::comparing::assert_is_at;
use clock_money::Point;
use std::cmp::Ordering;

/// The point of a price, of a start-of-round price, the price, and a clock price.
fn point_of(prices: &[u64; 3]) -> Option<Point> {
    Point::of(prices[0], prices[1], prices[2])
}

/// Prices outside the round, and a round without a span.
const OUTSIDE: &[[u64; 3]] = &[[100, 100, 100], [100, 99, 110], [100, 111, 110]];

#[test]
fn a_price_outside_has_no_point(rt: HostRuntime) {
    for prices in OUTSIDE {
        assert_is_at(&rt, *prices, point_of(prices), None);
    }
}

/// How two price points compare, each given by start-of-round price, price, and clock price.
fn compared(one: &[u64; 3], other: &[u64; 3]) -> Option<Ordering> {
    let (Some(one), Some(other)) = (point_of(one), point_of(other)) else {
        return None;
    };
    Some(one.compare(&other))
}

/// Two price points, and how they compare.
const COMPARED: &[([u64; 3], [u64; 3], Ordering)] = &[
    ([100, 105, 110], [1000, 1050, 1100], Ordering::Equal),
    ([10, 11, 13], [100, 133, 200], Ordering::Greater),
    ([100, 133, 200], [10, 11, 13], Ordering::Less),
];

#[test]
fn points_compare_as_values(rt: HostRuntime) {
    for row in COMPARED {
        assert_is_at(&rt, row.0, compared(&row.0, &row.1), Some(row.2));
    }
}
