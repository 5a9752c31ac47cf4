//! Earliest starts of activities, and what bounds take from a matrix: heads and tails.

ghost use Rattle.std.specs.Prelude.{◌≡◌, length, IfOk};
ghost use Rattle.network.specs.Problem.{activity_count};
ghost use Rattle.network.specs.Walk.{weights_from};
ghost use Rattle.longest_path.specs.Ends.{AreEarliestFor, AreTailsFor, tail_weights};

use crate::Matrix;
use network::Project;
use std::alloc::{AllocError, Global};

/// The earliest start of each activity in periods: the greatest weights from the start, which are
/// the least schedule (Bartusch, Möhring and Radermacher 1988).
pub fn least_starts(alloc: Global, matrix: &Matrix) -> Result<Vec<i64>, AllocError>
    ensures weights { IfOk result (λ starts. starts.items ≡ weights_from 0 matrix.now) }
    ensures earliest { IfOk result (λ starts. AreEarliestFor matrix.now starts.items) }
{
    let starts = Vec::with_capacity(alloc, matrix.activity_count())?;
    least_starts_in(starts, matrix)
}

/// The same in the memory of a list, whatever that held.
pub fn least_starts_in(list: Vec<i64>, matrix: &Matrix) -> Result<Vec<i64>, AllocError>
    ensures weights { IfOk result (λ starts. starts.items ≡ weights_from 0 matrix.now) }
    ensures earliest { IfOk result (λ starts. AreEarliestFor matrix.now starts.items) }
{
    let mut starts = list;
    starts.clear();
    for i in 0..matrix.activity_count() {
        starts.push(matrix.get(0, i).unwrap_or(0))?;
    }
    Ok(starts)
}

/// The head of each activity, before which it can't start, in periods: its earliest start.
pub fn heads(alloc: Global, matrix: &Matrix) -> Result<Vec<i64>, AllocError>
    ensures weights { IfOk result (λ heads. heads.items ≡ weights_from 0 matrix.now) }
    ensures earliest { IfOk result (λ heads. AreEarliestFor matrix.now heads.items) }
{
    least_starts(alloc, matrix)
}

/// The tail of each activity in periods: how long a schedule that keeps the matrix's pairs lasts at least after the
/// activity's end. It is the greatest weight from the activity to the end, less its duration.
pub fn tails(alloc: Global, project: &Project, matrix: &Matrix) -> Result<Vec<i64>, AllocError>
    requires { length matrix.now ≡ activity_count project.now }
    ensures weights { IfOk result (λ tails. tails.items ≡ tail_weights project.now matrix.now) }
    ensures tails { IfOk result (λ tails. AreTailsFor project.now matrix.now tails.items) }
{
    let end = project.activity_count() - 1;
    let mut tails = Vec::with_capacity(alloc, project.activity_count())?;
    for i in 0..project.activity_count() {
        let to_end = matrix.get(i, end).unwrap_or(0);
        tails.push(to_end - project.duration(i))?;
    }
    Ok(tails)
}
