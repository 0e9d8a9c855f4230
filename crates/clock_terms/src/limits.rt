//! The limits of a set-up by name. Each has the value of its definition in `specs/Limits`.
ghost use Rattle.std.specs.Prelude.{◌≡◌};
ghost use Rattle.clock_terms.specs.Limits as limits;

/// The latest version of a set-up document. The first is 1.
pub const LATEST_VERSION: u64 = 2;

/// The most products of a set-up.
pub const MOST_PRODUCTS: u64 = 4096;

/// The most bidders of a set-up.
pub const MOST_BIDDERS: u64 = 512;

/// The most bidding units of a block.
pub const MOST_UNITS: u64 = 1_000_000;

/// The most blocks of a product.
pub const MOST_SUPPLY: u64 = 1000;

/// The highest eligibility, in bidding units.
pub const MOST_ELIGIBILITY: u64 = 1_000_000_000_000;

/// The least activity requirement, in percent of eligibility.
pub const LEAST_REQUIREMENT: u64 = 50;

/// The highest activity requirement, in percent of eligibility.
pub const MOST_REQUIREMENT: u64 = 100;

/// The least activity limit, in percent of eligibility.
pub const LEAST_LIMIT: u64 = 100;

/// The highest activity limit, in percent of eligibility.
pub const MOST_LIMIT: u64 = 140;

/// The activity limit of a set-up of version 1, in percent.
pub const FIRST_LIMIT: u64 = 100;

/// The granule of each product in a set-up of version 1, in dollars.
pub const FIRST_GRANULE: u64 = 1;

/// The most characters of a name.
pub const LONGEST_NAME: u64 = 32;

/// The fewest characters of a token.
pub const SHORTEST_TOKEN: u64 = 16;

/// The most characters of a token.
pub const LONGEST_TOKEN: u64 = 64;

/// Whether `number` is from `low` to `high`, both included.
pub fn is_within(low: u64, high: u64, number: u64) -> bool
    ensures { result ≡ limits.is_within low high number }
{
    low <= number && number <= high
}
