//! The book of a branch and bound search: the best schedule, the nodes that are open or in hand, and counts.
//!
//! A [`Book`] is a machine: a worker takes a node, expands it, and checks its report in. The book is sound whatever is
//! called, in whatever order. Its best is a feasible schedule. Some node that is open or in hand stands for each
//! shorter feasible schedule. The nodes opened are those checked in, cut, open and in hand. So a book with no node open
//! or in hand proves that its best is a shortest schedule, or that there is none.
#![tactic(auto)]

mod answers;
mod book;
mod counts;
mod events;
mod hands;
mod nodes_left;
mod open_nodes;
mod recording;

pub use answers::{BookFault, CheckFault, CheckedIn, MAX_WORKERS, OtherProject, Take, Ticket};
pub use book::{Book, are_allowed};
pub use counts::Counts;
pub use events::{Request, Response, run_events};
pub use nodes_left::NodesLeft;
