//! The bound of a node with one pair more, without its matrix.

ghost use Rattle.std.specs.Prelude.{◌≡◌, [], ◌<◌, ◌∷◌, length};
ghost use Rattle.network.specs.Problem.{activity_count, NameActivities, pair_arc, IsWithin};
ghost use Rattle.network.specs.declared.limits.TheConstants.{MAX_LAG_WEIGHT};
ghost use Rattle.network.specs.Walk.{weights_from};
ghost use Rattle.longest_path.specs.Ends.{tail_weights};
ghost use Rattle.longest_path.specs.Insert.{rows_over, ClosesNone};
ghost use Rattle.bounds.specs.Bound.{IsMatrixFor, IsBoundUnder};
ghost use Rattle.bounds.specs.Energy.{all_tasks};

use crate::resource_buffers::ResourceBuffers;
use longest_path::{Matrix, or_way, then_arc};
use network::{Lag, Pair, Project};

/// Puts the heads that the matrix would give with the arc in place of others.
fn list_heads_with(matrix: &Matrix, arc: Lag, heads: &mut [i64])
    requires from_activity { arc.from < length matrix.now }
    requires to_activity { arc.to < length matrix.now }
    requires light { IsWithin MAX_LAG_WEIGHT arc.weight }
    requires long { length heads.old ≡ length matrix.now }
    ensures { heads.new ≡ weights_from 0 (rows_over arc matrix.now) }
{
    let first = then_arc(matrix.get(0, arc.from), arc.weight);
    for i in 0..heads.len() {
        heads[i] = or_way(matrix.get(0, i), first, matrix.get(arc.to, i)).unwrap_or(0);
    }
}

/// Puts the tails that the matrix would give with the arc in place of others.
fn list_tails_with(project: &Project, matrix: &Matrix, arc: Lag, tails: &mut [i64])
    requires project { length matrix.now ≡ activity_count project.now }
    requires from_activity { arc.from < length matrix.now }
    requires to_activity { arc.to < length matrix.now }
    requires light { IsWithin MAX_LAG_WEIGHT arc.weight }
    requires long { length tails.old ≡ length matrix.now }
    ensures { tails.new ≡ tail_weights project.now (rows_over arc matrix.now) }
{
    let end = project.activity_count() - 1;
    let last = then_arc(matrix.get(arc.to, end), arc.weight);
    for i in 0..tails.len() {
        let to_end = or_way(matrix.get(i, end), matrix.get(i, arc.from), last).unwrap_or(0);
        tails[i] = to_end - project.duration(i);
    }
}

/// The bound of the matrix with the pair's arc in periods, by entries of the matrix without it. Or a lower number that
/// is at least the ceiling. It works in the memory of these buffers.
pub(crate) fn bound_over(
    project: &Project,
    matrix: &Matrix,
    pair: Pair,
    ceiling: Option<i64>,
    heads: &mut [i64],
    tails: &mut [i64],
    buffers: &mut ResourceBuffers,
) -> i64
    requires heads { length heads.old ≡ activity_count project.now }
    requires tails { length tails.old ≡ activity_count project.now }
    requires buffers { buffers.old ≡ all_tasks project.now }
    requires matrix { IsMatrixFor project.now matrix.now }
    requires named { NameActivities project.now (pair ∷ []) }
    requires lives { ClosesNone (pair_arc project.now pair) matrix.now }
    ensures buffers { buffers.new ≡ buffers.old }
    ensures value { IsBoundUnder project.now matrix.now pair ceiling result }
{
    prove!(matrix.activity_count() == project.activity_count());
    let ceiling = ceiling.unwrap_or(i64::MAX);
    let arc = project.pair_arc(pair);
    list_heads_with(matrix, arc, heads);
    let critical = heads[project.activity_count() - 1];
    list_tails_with(project, matrix, arc, tails);
    let energy = buffers.energy_under(project, heads, tails, ceiling.unsigned_abs());
    critical.max(energy as i64)
}
