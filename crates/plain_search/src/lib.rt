//! The plain search for a shortest schedule: one thread, depth first, over the nodes of `branching`.
#![tactic(auto)]

mod search;

pub use search::{MAX_EXPANDED, search_alone};
