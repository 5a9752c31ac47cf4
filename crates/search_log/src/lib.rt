//! The trail of a search: what became of each node that was opened.
//!
//! A [`SearchLog`] has an entry for each node: where it came from, which pairs were forced, and how it ended. A search notes
//! its reports in it. Once each entry has ended and is right, the trail is a whole tree, of which a record can be made.
#![tactic(auto)]

mod log;

pub use log::{NodeEnding, NodeEntry, Origin, SearchLog};
