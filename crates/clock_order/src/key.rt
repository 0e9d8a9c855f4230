ghost use Rattle.std.specs.Prelude.{◌≡◌, ◌≤◌};
ghost use Rattle.clock_money.specs.Point.{fraction_cmp};

use clock_money::Point;
use std::cmp::Ordering;

/// The key of a request in the order of bid processing: its price point, the tie-breaking number of
/// its bidder and product, and then bidder, product, and place in the chain.
///
/// Price points are compared by value, so that 5/10 and 50/100 are equal. The two numbers of a
/// point come last, so that keys compare as equal only if they are equal. The order by price point
/// is the FCC's for Auction 105; the rest is our own.
#[derive(Clone, Copy, Debug, PartialEq, Eq)]
pub struct OrderKey {
    /// How far the price is from the start-of-round price to the clock price.
    pub point: Point,
    /// The tie-breaking number of the bidder and product, or 0 if none is listed.
    pub tie: u64,
    /// The bidder's number in the set-up, from 0.
    pub bidder: u32,
    /// The product's number in the set-up, from 0.
    pub product: u32,
    /// The index of the bid in the sheet's chain for the product, from 0.
    pub place: u32,
    // Without it, 0/0 would equal every point, and the order would not be total.
    pub ghost denominator: { 1 ≤ point.span },
}

impl OrderKey {
    /// Compares the price points of two keys by value.
    fn by_point(&self, other: &OrderKey) -> Ordering
        ensures { result ≡ fraction_cmp self.now.point other.now.point }
    {
        self.point.compare(&other.point)
    }
}

impl Ord for OrderKey {
    ghost use Rattle.std.proofs.Common.{rules};
    ghost use Rattle.std.specs.Cmp.Rules.{comparing};
    ghost use Rattle.clock_order.specs.OrderKeys.{order_key_cmp};
    ghost use Rattle.clock_order.specs.inside.OrderKeyLaws.{order_key_total, order_key_equal};

    ghost cmp = { order_key_cmp };

    ghost total = { order_key_total };

    ghost matches_partial_cmp = { Prim.search (comparing, rules) };

    ghost matches_eq = { order_key_equal };

    fn cmp(&self, other: &OrderKey) -> Ordering {
        let by_point = self.by_point(other);
        if by_point != Ordering::Equal {
            return by_point;
        }
        self.tie
            .cmp(&other.tie)
            .then(self.bidder.cmp(&other.bidder))
            .then(self.product.cmp(&other.product))
            .then(self.place.cmp(&other.place))
            .then(self.point.above.cmp(&other.point.above))
            .then(self.point.span.cmp(&other.point.span))
    }
}

impl PartialOrd for OrderKey {
    ghost use Rattle.std.specs.{Prelude.{refl}, Ordering.{as_partial_cmp}};
    ghost use Rattle.std.specs.Cmp.{partial_order_from_agreeing_total};
    ghost use Rattle.clock_order.specs.OrderKeys.{order_key_cmp};
    ghost use Rattle.clock_order.specs.inside.OrderKeyLaws.{order_key_total, order_key_equal};

    ghost partial_cmp = { as_partial_cmp order_key_cmp };

    ghost laws = { partial_order_from_agreeing_total order_key_cmp order_key_total
        (λ x y. refl) order_key_equal };

    fn partial_cmp(&self, other: &OrderKey) -> Option<Ordering> {
        Some(self.cmp(other))
    }
}
