//! Tests of what a node is made of: matrices, heads and tails, overloads, bounds and lists of children.
//!
//! They stand apart from the crates that they test, and use what these have public, since a crate with tests is proved
//! twice.
#![tactic(auto)]

#[cfg(test)]
mod expansions;
#[cfg(test)]
mod least_starts;
#[cfg(test)]
mod matrices;
#[cfg(test)]
mod overloads;
mod projects;
#[cfg(test)]
mod values;

pub use projects::{
    are_starts, backward_lag, both_orders_dead, lag, one_machine, pair, project, three_on_two,
    two_between, with_one_resource,
};
