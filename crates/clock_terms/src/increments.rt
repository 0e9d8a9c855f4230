ghost use Rattle.std.specs.Prelude.{◌≡◌};
ghost use Rattle.clock_terms.specs.Increments.{HasIncrement, are_increments, increment_at};

use crate::grid::Amounts;
use crate::limits::is_within;
use clock_money::{LEAST_INCREMENT, MOST_INCREMENT};

/// The increments of a closing, in percent. A closing may use either form, whatever the version of
/// the set-up.
#[derive(Drop)]
pub enum Increments {
    /// One increment for all products.
    Single(u64),
    /// An increment for each product, in the order of the products' numbers.
    PerProduct(Amounts),
}

impl Increments {
    /// Returns the increment of a product, in percent. In a list for each product, requires one of
    /// its products. Allocates nothing.
    pub fn at(&self, product: usize) -> u64
        requires { HasIncrement self.now product }
        ensures { result ≡ increment_at self.now product }
    {
        match self {
            Increments::Single(increment) => *increment,
            Increments::PerProduct(increments) => increments[product],
        }
    }

    /// Whether these increments fit a set-up with `products` products: each is 1 to 50 percent, and
    /// a list has one for each product.
    pub fn are_within(&self, products: usize) -> bool
        ensures { result ≡ are_increments products self.now }
    {
        match self {
            Increments::Single(increment) => is_within(LEAST_INCREMENT, MOST_INCREMENT, *increment),
            Increments::PerProduct(increments) => {
                increments.len() == products
                    && increments
                        .iter()
                        .all(|i| is_within(LEAST_INCREMENT, MOST_INCREMENT, *i))
            }
        }
    }
}
