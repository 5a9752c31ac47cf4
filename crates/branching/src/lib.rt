//! Nodes of a branch and bound search over ordered pairs of activities, and what the expansion of a
//! node gives (Bartusch, Möhring and Radermacher 1988).
//!
//! A node stands for the feasible schedules of a project that keep its pairs. It waits as a [`OpenNode`], without a matrix;
//! a [`Node`] has its own, and a [`Searcher`] moves one matrix from node to node. [`expand`] finds a node's least
//! schedule. If that overloads a resource, the members of a minimal forbidden set can't all run together. So every
//! feasible schedule keeps an ordered pair of two of them. Each such pair gives a child, with the pairs that it forces.
#![tactic(auto)]

mod base;
mod branch;
mod branches;
mod ceiling;
mod expansion;
mod fate;
mod forcing;
mod node;
mod open_node;
mod pair_list;
mod pair_matrix;
mod pairs;
mod report;
mod searcher;
mod workspace;

pub use branches::Branches;
pub use ceiling::{is_below, is_in_time, lesser, makespan_of};
pub use expansion::expand;
pub use fate::Fate;
pub use node::Node;
pub use open_node::{OpenNode, open_root};
pub use pair_list::PairList;
pub use pair_matrix::PairMatrix;
pub use pairs::ordered_pairs;
pub use report::{MAX_CHILDREN, Report};
pub use searcher::{Searcher, rebuild, root};
