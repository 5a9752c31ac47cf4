//! Computes the matrix of a project and pairs, as Floyd and Warshall do.

ghost use Rattle.std.specs.Prelude.{◌≡◌, ◌<◌, ◌≤◌, length, Some, IfSome, IfOk, IfErr};
ghost use Rattle.network.specs.Problem.{activity_count, arcs_of, NameActivities, IsWithin};
ghost use Rattle.network.specs.Walk.{IsMatrixOf, HaveOneMatrix, AreInside, AreLight};
ghost use Rattle.longest_path.specs.Matrix.{IsSquare, IsRow, HasSmallSums, IsSpanned, IsRowOver, IsThrough, HasEntriesWithin};
ghost use Rattle.longest_path.specs.Insert.{Explains};
ghost use Rattle.network.specs.declared.limits.TheConstants.{MAX_ACTIVITIES, MAX_WALK_WEIGHT};
ghost use Rattle.longest_path.specs.declared.grid.TheConstants.{MAX_FIRST_WEIGHT};

use crate::fault::PathFault;
use crate::grid::Grid;
use crate::insert::is_positive;
use crate::matrix::Matrix;
use network::{Lag, Pair, Project};
use std::alloc::{AllocError, Global};

/// The greatest weights of the walks of at most one arc.
fn spanned(alloc: Global, n: usize, arcs: &[Lag]) -> Result<Grid, AllocError>
    requires inside { AreInside n arcs.now }
    requires light { AreLight arcs.now }
    requires few { n ≤ MAX_ACTIVITIES }
    ensures { IfOk result (λ grid. IsSpanned n arcs.now grid) }
{
    let mut grid = Grid::without_arcs(alloc, n)?;
    for arc in arcs {
        grid.raise(*arc);
    }
    Ok(grid)
}

/// Row `a` takes the way that begins with a walk of weight `first`, if there is one, and goes on by
/// `via`.
fn take_way(grid: &mut Grid, a: usize, first: Option<i64>, via: &[i32])
    requires row { a < length grid.old }
    requires wide { length via.now ≡ length grid.old }
    requires small { IfSome first (λ x. IsWithin MAX_FIRST_WEIGHT x) }
    requires fits { IfSome first (λ x. HasSmallSums x via.now) }
    ensures square { IsSquare (length grid.old) grid.new }
    ensures over { IsRowOver a first via.now grid.old grid.new }
{
    prove!(a < grid.size());
    let Some(first) = first else {
        return;
    };
    grid.relax_row(a, 0, first, via);
}

/// One pass of the recurrence: each row takes the way through the vertex `m`, whose row `via` is.
fn pass(grid: &mut Grid, m: usize, via: &[i32])
    requires vertex { m < length grid.old }
    requires copy { IsRow m grid.old via.now }
    requires within { HasEntriesWithin MAX_WALK_WEIGHT grid.old }
    ensures square { IsSquare (length grid.old) grid.new }
    ensures through { IsThrough m grid.old grid.new }
{
    for a in 0..grid.size() {
        let first = grid.get(a, m);
        take_way(grid, a, first, via);
    }
}

/// The matrix of the arcs between `n` vertices, or the least top of a closed walk of positive
/// weight.
fn greatest_weights(
    alloc: Global,
    n: usize,
    arcs: &[Lag],
    via: &mut [i32],
) -> Result<Grid, PathFault>
    requires inside { AreInside n arcs.now }
    requires light { AreLight arcs.now }
    requires few { n ≤ MAX_ACTIVITIES }
    requires wide { length via.old ≡ n }
    ensures matrix { IfOk result (λ rows. IsMatrixOf n arcs.now rows) }
    ensures fits { IfOk result (λ rows. HasEntriesWithin MAX_WALK_WEIGHT rows) }
    ensures fault { IfErr result (λ fault. Explains arcs.now fault) }
{
    let mut grid = spanned(alloc, n, arcs)?;
    for m in 0..n {
        if is_positive(grid.get(m, m)) {
            return Err(PathFault::PositiveCycle { at: m });
        }
        grid.copy_row(m, via);
        pass(&mut grid, m, via);
    }
    Ok(grid)
}

/// The greatest weights of walks over the rules of a project and an arc for each pair, by the
/// recurrence of Floyd (1962) and Warshall (1962).
///
/// [`PathFault::PositiveCycle`] comes if a closed walk has positive weight. It names the least activity such that one
/// visits only the activities up to it.
pub fn longest(alloc: Global, project: &Project, pairs: &[Pair]) -> Result<Matrix, PathFault>
    requires { NameActivities project.now pairs.now }
    ensures matrix { IfOk result (λ m. IsMatrixOf (activity_count project.now) (arcs_of project.now pairs.now) m) }
    ensures fault { IfErr result (λ fault. Explains (arcs_of project.now pairs.now) fault) }

    // A law: the arcs have no matrix but this one.
    ensures one { HaveOneMatrix (activity_count project.now) (arcs_of project.now pairs.now) }
{
    let arcs = project.arcs(alloc, pairs)?;
    let size = project.activity_count();
    let mut via = vec![in alloc; 0; size]?;
    let grid = greatest_weights(alloc, size, arcs.as_slice(), via.as_mut_slice())?;
    Ok(Matrix { grid, via })
}
