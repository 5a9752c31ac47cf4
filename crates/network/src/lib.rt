//! Projects with resources and time lags, pairs of activities, and schedules.
//!
//! The problem is that of Bartusch, Möhring and Radermacher (1988), named PS|temp|Cmax by Brucker,
//! Drexl, Möhring, Neumann and Pesch (1999). All times are whole periods.
#![tactic(auto)]

mod arcs;
mod faults;
mod horizon;
mod limits;
mod outcome;
mod parts;
mod project;
mod schedule;
mod verdict;

pub use horizon::{MAX_HORIZON, horizon_law, horizon_of};
pub use limits::{
    MAX_ACTIVITIES, MAX_AMOUNT, MAX_LAG_WEIGHT, MAX_LAGS, MAX_RESOURCES, MAX_START, MAX_WALK_WEIGHT,
};
pub use outcome::Outcome;
pub use parts::{Lag, Pair, Parts, ProjectFault, Quantity};
pub use project::Project;
pub use schedule::Schedule;
pub use verdict::Verdict;
