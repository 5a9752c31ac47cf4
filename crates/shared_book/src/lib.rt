//! A search book that workers share, under one lock.
//!
//! [`Shared`] has a desk for each worker. At its desk a worker takes nodes and checks in its reports on them, both under
//! the lock, and learns from the shared ceiling of shorter schedules that others found meanwhile. Whatever the threads
//! do, the book is sound whenever its lock is free.
#![tactic(auto)]

mod blanks;
mod ceiling_rule;
mod ceiling_seat;
mod fault;
mod key;
mod locked;
mod shared;
mod shared_ceiling;
mod state;

pub use blanks::Blanks;
pub use ceiling_seat::BestSeat;
pub use fault::WorkFault;
pub use key::Key;
pub use shared::Shared;
pub use shared_ceiling::SharedCeiling;
pub use state::{Tally, WorkerState};
