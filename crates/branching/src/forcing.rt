//! Pairs that a matrix forces, since the other order is impossible.

ghost use Rattle.std.specs.Prelude.{◌≡◌, ◌↔◌, ◌<◌, ◌+ℤ◌, Some, [], ◌∷◌, ◌++◌, length, IsTrue, IfOk, IfSome};
ghost use Rattle.std.specs.List.{Any};
ghost use Rattle.network.specs.Problem.{IsWithin, activity_count, duration, pair_arc, NameActivities};
ghost use Rattle.network.specs.Walk.{IsProjectMatrix, entry};
ghost use Rattle.network.specs.declared.limits.TheConstants.{MAX_LAG_WEIGHT, MAX_WALK_WEIGHT};
ghost use Rattle.longest_path.specs.Matrix.{joined};
ghost use Rattle.longest_path.specs.declared.insert.TheConstants.{MAX_WAY_WITH};
ghost use Rattle.forbidden_sets.specs.Incompatible.{pairs_of_row, pairs_of, IsRowOf, AreRowsOf};
ghost use Rattle.branching.specs.Forcing.{IsForcedAt, IsForcedWith, IsNextForced, IsForcingOf};

use crate::open_node::OpenNode;
use forbidden_sets::Incompatible;
use longest_path::{MarkedMatrix, Matrix, PathFault, or_way, then_arc};
use network::{Pair, Project};
use std::alloc::{AllocError, Global};

/// What the pairs that a child's first one forces make of the child.
#[derive(Drop)]
pub(crate) enum Forcing {
    /// These pairs were forced, and no other one is.
    Live(Vec<Pair>),
    /// The last of these pairs closed a walk of positive weight.
    Infeasible(Vec<Pair>),
}

/// Whether this greatest weight from a pair's first activity to its second forces the pair. It does if the second can't
/// end before the first starts, and doesn't wait yet until the first has ended.
fn is_forced_at(project: &Project, pair: Pair, greatest: Option<i64>) -> bool
    requires named { NameActivities project.now (pair ∷ []) }
    requires small { IfSome greatest (λ w. IsWithin MAX_WAY_WITH w) }
    ensures { IsTrue result ↔ IsForcedAt project.now pair greatest }
{
    let Some(weight) = greatest else {
        return false;
    };
    let late = weight + project.duration(pair.after);
    if late <= 0 {
        return false;
    }
    weight < project.duration(pair.before)
}

/// The first of the pairs of one activity with others that is forced in the matrix.
fn next_in_row(project: &Project, matrix: &Matrix, row: &Incompatible) -> Option<Pair>
    requires size { length matrix.now ≡ activity_count project.now }
    requires row { IsRowOf project.now row.now }
    ensures { IsNextForced project.now matrix.now (pairs_of_row row.now) result }
{
    let before = row.activity;
    for after in row.others.as_slice() {
        let pair = Pair {
            before,
            after: *after,
        };
        if is_forced_at(project, pair, matrix.get(before, *after)) {
            return Some(pair);
        }
    }
    None
}

/// The first pair of incompatible activities that is forced in the matrix.
fn next_forced(project: &Project, matrix: &Matrix, incompatible: &[Incompatible]) -> Option<Pair>
    requires size { length matrix.now ≡ activity_count project.now }
    requires rows { AreRowsOf project.now incompatible.now }
    ensures { IsNextForced project.now matrix.now (pairs_of incompatible.now) result }
{
    for row in incompatible {
        if let Some(pair) = next_in_row(project, matrix, row) {
            return Some(pair);
        }
    }
    None
}

/// Whether a way over the arc of the pair that is added forces a pair: a way that takes `first` up to the end of the
/// arc. It looks at entries of the matrix without that arc.
fn is_forced_over(project: &Project, matrix: &Matrix, added: Pair, first: i64, pair: Pair) -> bool
    requires size { length matrix.now ≡ activity_count project.now }
    requires added { NameActivities project.now (added ∷ []) }
    requires pair { NameActivities project.now (pair ∷ []) }
    requires first { joined (entry matrix.now pair.before added.before) (Some (duration project.now added.before)) ≡ Some first }
    requires small { IsWithin (MAX_WALK_WEIGHT +ℤ MAX_LAG_WEIGHT) first }
    ensures { IsTrue result ↔ IsForcedWith project.now matrix.now added pair }
{
    let Some(last) = matrix.get(added.after, pair.after) else {
        return false;
    };
    let way = matrix.get(pair.before, pair.after);
    is_forced_at(project, pair, or_way(way, Some(first), Some(last)))
}

/// Whether a way over the arc of one pair more forces some pair of one activity with others.
fn forces_in_row(project: &Project, matrix: &Matrix, row: &Incompatible, added: Pair) -> bool
    requires size { length matrix.now ≡ activity_count project.now }
    requires row { IsRowOf project.now row.now }
    requires named { NameActivities project.now (added ∷ []) }
    ensures { IsTrue result ↔ Any (IsForcedWith project.now matrix.now added) (pairs_of_row row.now) }
{
    let before = row.activity;
    let arc = project.pair_arc(added);
    let Some(first) = then_arc(matrix.get(before, arc.from), arc.weight) else {
        return false;
    };
    for after in row.others.as_slice() {
        let pair = Pair {
            before,
            after: *after,
        };
        if is_forced_over(project, matrix, added, first, pair) {
            return true;
        }
    }
    false
}

/// Whether some pair of incompatible activities is forced by a way over the arc of one pair more.
pub(crate) fn forces_some(
    project: &Project,
    matrix: &Matrix,
    incompatible: &[Incompatible],
    added: Pair,
) -> bool
    requires size { length matrix.now ≡ activity_count project.now }
    requires rows { AreRowsOf project.now incompatible.now }
    requires named { NameActivities project.now (added ∷ []) }
    ensures { IsTrue result ↔ Any (IsForcedWith project.now matrix.now added) (pairs_of incompatible.now) }
{
    for row in incompatible {
        if forces_in_row(project, matrix, row, added) {
            return true;
        }
    }
    false
}

/// Adds the first forced pair, again and again, until there is none or one closes a walk of positive weight. A pair
/// that was added isn't forced again.
pub(crate) fn force(
    alloc: Global,
    node: &OpenNode,
    first: Pair,
    matrix: &mut MarkedMatrix,
) -> Result<Forcing, AllocError>
    requires { IsProjectMatrix node.now.project (node.now.pairs ++ first ∷ []) matrix.old.rows }
    ensures marks { matrix.new.marks ≡ matrix.old.marks }
    ensures forcing { IfOk result (IsForcingOf node.now first matrix.new.rows) }
{
    let incompatible = node.base().incompatible();
    let mut forced = Vec::new(alloc);
    while let Some(pair) = next_forced(node.project(), matrix.matrix(), incompatible) {
        forced.push(pair)?;
        let arc = node.project().pair_arc(pair);
        match matrix.insert(arc.from, arc.to, arc.weight) {
            Ok(()) => {}
            Err(PathFault::PositiveCycle { .. }) => return Ok(Forcing::Infeasible(forced)),
            Err(PathFault::Memory) => return Err(AllocError),
        }
    }
    Ok(Forcing::Live(forced))
}
