//! Checks whether a search record is right for a project, line by line. If it is, its claim is true.
//!
//! A [`Record`] is a claim and the tree of a search. [`verify`] checks each line with a matrix and a bound of its own,
//! and does not trust the search that made the record. [`of_trail`] makes the record of a search from what its book
//! kept of each node.
#![tactic(auto)]

mod due;
mod from_trail;
mod judge;
mod lines;
mod node;
mod verification;
mod walk;

pub use from_trail::of_trail;
pub use record_text::{Record, RecordFault, RecordFaultKind};
pub use verification::{right_law, verify};
