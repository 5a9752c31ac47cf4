//! Minimal forbidden sets: activities that together need more of a resource than there is, but not without any one of
//! them (Bartusch, Möhring and Radermacher 1988).
#![tactic(auto)]

mod incompatible;
mod set;
mod shrinking;

pub use incompatible::{Incompatible, are_incompatible, incompatible_activities};
pub use set::ForbiddenSet;
pub use shrinking::shrink_activities;
