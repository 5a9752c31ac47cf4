//! Lower bounds of the makespans of the schedules that a node stands for.
//!
//! [`critical`] is the greatest weight from the start to the end. [`energy`] looks at the work of one resource between
//! a head and a tail, by the activities that lie there whole (in the manner of Carlier's bound by heads, work and tails
//! of subsets: The one-machine sequencing problem, 1982). [`bound`] is the greater of both. [`bound_with`] is the bound
//! with one pair more, and [`Workspace::bound_under`] stops at a ceiling.
#![tactic(auto)]

ghost use Rattle.std.specs.Prelude.{◌≡◌, IfOk};
ghost use Rattle.network.specs.Problem.{Problem};
ghost use Rattle.bounds.specs.Bound.{critical_weight, IsMatrixFor, IsTrueBoundFor, IsBoundOf};

mod envelope_buffers;
mod limits;
mod load;
mod resource_buffers;
mod slots;
mod task;
mod task_buffers;
mod with_pair;
mod workspace;

use longest_path::Matrix;
use network::Project;
pub use resource_buffers::energy;
use std::alloc::{AllocError, Global};
pub use workspace::{Workspace, bound_with};

/// The greatest weight from the start to the end in periods: the least makespan without regard to resources. Takes no
/// memory.
pub fn critical(matrix: &Matrix) -> i64
    ensures value { result ≡ critical_weight matrix.now }
    ensures holds { (p : Problem) → IsTrueBoundFor p matrix.now result }
{
    match matrix.activity_count().checked_sub(1) {
        Some(end) => matrix.get(0, end).unwrap_or(0),
        None => 0,
    }
}

/// The bound of a matrix in periods: the greater of [`critical`] and [`energy`].
pub fn bound(alloc: Global, project: &Project, matrix: &Matrix) -> Result<i64, AllocError>
    requires { IsMatrixFor project.now matrix.now }
    ensures value { IfOk result (λ bound. IsBoundOf project.now matrix.now bound) }
    ensures holds { IfOk result (λ bound. IsTrueBoundFor project.now matrix.now bound) }
{
    let energy = energy(alloc, project, matrix)?;
    Ok(critical(matrix).max(energy))
}
