//! When a line of a record is right at its node.

ghost use Rattle.std.specs.Prelude.{◌∷◌, [], ◌↔◌, IfOk, IsTrue};
ghost use Rattle.network.specs.Problem.{NameActivities};
ghost use Rattle.bounds.specs.Bound.{IsMatrixFor};
ghost use Rattle.branching.specs.Right.{IsTooLateFor, IsForced, IsCut, IsSolved, IsRightSet};
ghost use Rattle.search_record.specs.Right.{IsRightLine, Tells};

use bounds::bound;
use forbidden_sets::are_incompatible;
use longest_path::{Matrix, least_starts};
use network::{Pair, Project};
use profile::first_overload;
use record_text::Line;
use schedule_check::{are_members, is_forbidden};
use std::alloc::{AllocError, Global};

/// Whether the pair's second activity can't end before its first starts.
fn is_too_late(project: &Project, matrix: &Matrix, pair: Pair) -> bool
    requires matrix { IsMatrixFor project.now matrix.now }
    requires named { NameActivities project.now (pair ∷ []) }
    ensures { Tells project.now matrix.now (λ pairs. IsTooLateFor project.now pairs pair) result }
{
    match matrix.get(pair.before, pair.after) {
        Some(weight) => weight + project.duration(pair.after) > 0,
        None => false,
    }
}

/// Whether the pair is forced, by the matrix of its node.
fn is_forced(project: &Project, matrix: &Matrix, pair: Pair) -> bool
    requires { IsMatrixFor project.now matrix.now }
    ensures { Tells project.now matrix.now (λ pairs. IsForced project.now pairs pair) result }
{
    if !are_incompatible(project, pair) {
        return false;
    }
    is_too_late(project, matrix, pair)
}

/// Whether the bound of a node's matrix is at least the limit.
fn is_cut(alloc: Global, project: &Project, matrix: &Matrix, limit: i64) -> Result<bool, AllocError>
    requires { IsMatrixFor project.now matrix.now }
    ensures { IfOk result (Tells project.now matrix.now (λ pairs. IsCut project.now pairs limit)) }
{
    let bound = bound(alloc, project, matrix)?;
    Ok(bound >= limit)
}

/// Whether the least schedule of a node, by its matrix, is feasible and lasts at least the limit.
fn is_solved(
    alloc: Global,
    project: &Project,
    matrix: &Matrix,
    limit: i64,
) -> Result<bool, AllocError>
    requires { IsMatrixFor project.now matrix.now }
    ensures { IfOk result (Tells project.now matrix.now (λ pairs. IsSolved project.now pairs limit)) }
{
    let end = project.activity_count() - 1;
    let starts = least_starts(alloc, matrix)?;
    let found = first_overload(alloc, project, starts.as_slice())?;
    match found {
        Some(_) => Ok(false),
        None => Ok(starts[end] >= limit),
    }
}

/// Whether the members of a resource may be split.
fn is_right_set(project: &Project, resource: usize, members: &[usize]) -> bool
    ensures { IsTrue result ↔ IsRightSet project.now resource members.now }
{
    if resource >= project.resource_count() {
        return false;
    }
    if !are_members(project, members) {
        return false;
    }
    is_forbidden(project, resource, members)
}

/// Whether a line is right in a node that isn't dead, by the node's matrix. No limit stands for a claim
/// that there is no schedule.
pub(crate) fn is_right_by(
    alloc: Global,
    project: &Project,
    matrix: &Matrix,
    limit: Option<i64>,
    line: &Line,
) -> Result<bool, AllocError>
    requires { IsMatrixFor project.now matrix.now }
    ensures { IfOk result (Tells project.now matrix.now (λ pairs. IsRightLine project.now limit pairs line.now)) }
{
    let right = match line {
        Line::Force(pair) => is_forced(project, matrix, *pair),
        Line::Solved => match limit {
            Some(limit) => is_solved(alloc, project, matrix, limit)?,
            None => false,
        },
        Line::Cut => match limit {
            Some(limit) => is_cut(alloc, project, matrix, limit)?,
            None => false,
        },
        Line::Dead => false,
        Line::Split { resource, members } => is_right_set(project, *resource, members.as_slice()),
    };
    Ok(right)
}
