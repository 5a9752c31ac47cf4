//! Workers that search one project over one locked book.
//!
//! [`search`] does the whole. It opens a book, starts a thread for each worker, joins the threads and tells what is
//! known then. It can keep what became of each node, from which a record of the search is made. [`work`] is the loop of one
//! worker, for callers with threads of their own. The book is sound whenever its lock is free, so its verdict is true
//! of its project.
//!
//! A worker takes a node under the lock, expands it without the lock, and checks its report in under the lock. The
//! shared ceiling tells it of shorter schedules that others found meanwhile.
#![tactic(auto)]

mod fault;
mod gate;
mod serving;
mod solution;
mod threads;

pub use fault::SolveFault;
pub use gate::{Gate, Moment, OpenGate};
pub use serving::work;
pub use solution::{Solved, search};
