//! What the tests of several crates share: documents of small set-ups, requests with their replies,
//! and, for journals, a disk in memory and a machine.
#![tactic(auto)]

mod count;
mod documents;
mod memory_disk;
mod texts;

pub use count::Count;
pub use documents::{
    ACTIVITY_LIMIT, AT_THE_HIGHEST, BELOW_THE_HIGHEST, GRANULES_AND_INCREMENTS, NO_HIGHER_LIMIT,
    ONE_PRODUCT, PRICE_EDGES, SEVEN_BLOCKS, TWO_PRODUCTS,
};
pub use memory_disk::MemoryDisk;
pub use texts::{
    ACCEPTED, BIDS_OF_X, BIDS_OF_Y, CUT_SHORT, FIRST_ROUND, LONG_HEAD, NO_BIDS, NO_SHEET, PUT,
    SHEET, STATUS,
};
