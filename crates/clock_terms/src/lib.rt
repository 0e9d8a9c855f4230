//! The values of an auction: a set-up with its limits, products, and bidders; prices, increments,
//! demands, and eligibility; and requests to change demand.
#![tactic(auto)]

mod change;
mod eligibility;
mod grid;
mod held_list;
mod increments;
mod limits;
mod open_grid;
mod prices;
mod row;
mod setup;

pub use change::{Change, Changes, Kind};
pub use eligibility::{activity, law_of_eligibility, next_eligibility, units_held};
pub use grid::{Amounts, Grid};
pub use increments::Increments;
pub use limits::{
    FIRST_GRANULE, FIRST_LIMIT, LATEST_VERSION, LEAST_LIMIT, LEAST_REQUIREMENT, LONGEST_NAME,
    LONGEST_TOKEN, MOST_BIDDERS, MOST_ELIGIBILITY, MOST_LIMIT, MOST_PRODUCTS, MOST_REQUIREMENT,
    MOST_SUPPLY, MOST_UNITS, SHORTEST_TOKEN, is_within,
};
pub use open_grid::OpenGrid;
pub use prices::{OpeningPrices, PricePair, Prices};
pub use row::{PackedRow, PositiveDemands, ProductDemand, Row};
pub use setup::{Bidder, Bidders, Product, Products, Setup};
