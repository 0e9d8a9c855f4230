//! Tests of rehearsals: commands, from their arguments to their output, and replays, from their
//! documents to their reports and faults. The crate depends on all that plays a replay, and on no
//! tests of the front.
#![tactic(auto)]

#[cfg(test)]
mod commands;
#[cfg(test)]
mod comparing;
#[cfg(test)]
mod documents;
#[cfg(test)]
mod played;
