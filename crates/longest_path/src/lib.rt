//! Greatest weights of walks between the activities of a project.
//!
//! [`longest`] makes the [`Matrix`] of a project and pairs by the recurrence of Floyd (1962) and Warshall (1962).
//! [`MarkedMatrix::insert`] adds one arc to it. It goes back to its marks.
#![tactic(auto)]

mod columns;
mod earliest;
mod fault;
mod grid;
mod insert;
mod marked;
mod matrix;
mod recurrence;
mod saves;

pub use earliest::{heads, least_starts, least_starts_in, tails};
pub use fault::PathFault;
pub use grid::MAX_FIRST_WEIGHT;
pub use insert::{MAX_WAY_WITH, or_way, then_arc};
pub use marked::MarkedMatrix;
pub use matrix::Matrix;
pub use recurrence::longest;
