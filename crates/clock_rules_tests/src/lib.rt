//! Tests of the crates that clock_front uses, with expected values from the rules and formats:
//! numbers and documents, sheets, whole rounds by steps, bid processing with both processors, and
//! pages. They are in a crate of their own since a crate with tests is proved twice.
#![tactic(auto)]

#[cfg(test)]
mod auction;
#[cfg(test)]
mod bids;
#[cfg(test)]
mod comparing;
#[cfg(test)]
mod example;
#[cfg(test)]
mod journals;
#[cfg(test)]
mod lists;
#[cfg(test)]
mod orders;
#[cfg(test)]
mod points;
#[cfg(test)]
mod prices;
#[cfg(test)]
mod refusals;
#[cfg(test)]
mod rounds;
#[cfg(test)]
mod scanning;
#[cfg(test)]
mod settle;
#[cfg(test)]
mod settling;
#[cfg(test)]
mod setups;
#[cfg(test)]
mod sheets;
#[cfg(test)]
mod terms;
#[cfg(test)]
mod views;
