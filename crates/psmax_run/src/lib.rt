//! Runs of psmax over devices: what a job reads, answers and writes.
//!
//! [`run`] does a job in one thread, and [`run_parallel`] has workers search, with a record of the search where that is
//! asked for.
#![tactic(auto)]

mod job;
mod jobs;
mod one_thread;
mod parallel;
mod recorded;
mod workers;

pub use job::{Job, ONE_WORKER, SearchOptions};
pub use one_thread::run;
pub use parallel::run_parallel;
