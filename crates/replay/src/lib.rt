//! Logs of searches that are over, as a book takes their events again: [`next_event`] reads one after another, and a
//! [`Joint`] makes the logs of cubes one.
#![tactic(auto)]

mod events;
mod joint;

pub use events::{LogFault, next_event};
pub use joint::Joint;

/// What code gives that may run out of memory.
pub(crate) type Result<T, E = std::alloc::AllocError> = std::result::Result<T, E>;
