//! Tests of runs: workers at a book, and calls over devices that give and take in pieces and fail.
//!
//! They stand apart from the crates that they test, and use what these have public, since a crate with tests is proved
//! twice.
#![tactic(auto)]

#[cfg(test)]
mod ceilings;
#[cfg(test)]
mod gates;
#[cfg(test)]
mod played;
#[cfg(test)]
mod workers;
