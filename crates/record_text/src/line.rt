//! The claim and the lines of a record of a search.

use crate::listed::{Members, Starts};
use network::Pair;

/// What a record says of a project.
#[derive(Drop, Debug)]
pub enum Claim {
    /// The project has a feasible schedule of these starts, its makespan is this many periods, and none
    /// is shorter.
    Optimal { makespan: i64, starts: Starts },
    /// The project has no feasible schedule.
    NoSchedule,
}

/// A line of a record's tree. A node is any number of forced pairs, and then one line of another kind.
#[derive(Drop, Debug)]
pub enum Line {
    /// The pair is added to those of the node.
    Force(Pair),
    /// The node's least schedule is feasible, and no shorter than what is claimed.
    Solved,
    /// The node's bound is no less than what is claimed.
    Cut,
    /// No schedule keeps the node's pairs.
    Dead,
    /// The members need more of the resource than there is. A node follows for each ordered pair of two of them, by
    /// their places in the list. With q members these are q * (q - 1) nodes.
    Split { resource: usize, members: Members },
}
