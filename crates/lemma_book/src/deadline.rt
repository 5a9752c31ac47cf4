//! The root at first: the project's rules and a deadline.

ghost use Rattle.network.specs.Horizon.{horizon};
ghost use Rattle.std.specs.Prelude.{◌≡◌, ◌+◌, ◌++◌, ◌∷◌, [], ℤ, pos, length, IfOk, MatchOption};
ghost use Rattle.std.specs.List.{All};
ghost use Rattle.lemma_proof.specs.Heads.{IsLight};
ghost use Rattle.network.specs.Problem.{IsBetween, IsProject, activity_count, rules};
ghost use Rattle.network.specs.Walk.{HasPositiveCycle, IsMatrixOf};
ghost use Rattle.lemma_proof.specs.Lines.{IsArc};
ghost use Rattle.lemma_book.specs.Ledger.{IsRootMatrixOf, deadline, first_roots};

use crate::too_much::asks_too_much;
use lemma_proof::{Bench, IMPOSSIBLE, take};
use longest_path::{MarkedMatrix, PathFault, longest};
use network::{Lag, MAX_HORIZON, Project, horizon_of};
use std::alloc::{AllocError, Global};

/// The greatest number that a makespan in question is below.
pub(crate) const MAX_CEILING: i64 = MAX_HORIZON + 1;

/// The arc that makes the makespan less than a bound.
pub(crate) fn deadline(project: &Project, bound: i64) -> Lag
    requires { IsBetween (pos 0) MAX_CEILING bound }
    ensures arc { result ≡ deadline project.now bound }
    ensures inside { IsArc project.now result }
    ensures limits { IsProject project.now }
{
    prove!(project.activity_count() >= 2);
    Lag {
        from: project.activity_count() - 1,
        to: 0,
        weight: 1 - bound,
    }
}

/// The bench of the project's rules and the deadline. None if they close a walk of positive weight.
pub(crate) fn first_bench(
    alloc: Global,
    project: &Project,
    bound: i64,
) -> Result<Option<Bench>, AllocError>
    requires { IsBetween (pos 0) MAX_CEILING bound }
    ensures { IfOk result (λ found. MatchOption found (HasPositiveCycle (rules project.now ++ deadline project.now bound ∷ []))
        (λ b. IsMatrixOf (activity_count project.now) (rules project.now ++ deadline project.now bound ∷ []) b.rows)) }
{
    let matrix = match longest(alloc, project, &[]) {
        Ok(matrix) => matrix,
        Err(PathFault::PositiveCycle { .. }) => return Ok(None),
        Err(PathFault::Memory) => return Err(AllocError),
    };
    let mut matrix = MarkedMatrix::new(alloc, matrix);
    if take(&mut matrix, deadline(project, bound))? {
        return Ok(None);
    }
    Ok(Some(Bench::new(alloc, matrix)?))
}

/// The root's arcs at first beside the project's rules, and the bench of all.
pub(crate) fn first_root(
    alloc: Global,
    project: &Project,
) -> Result<(Vec<Lag>, Option<Bench>), AllocError>
    ensures roots { IfOk result (λ r. r.0.items ≡ first_roots project.now) }
    ensures light { IfOk result (λ r. All (IsLight (activity_count project.now)) r.0.items) }
    ensures bench { IfOk result (λ r. IsRootMatrixOf project.now (rules project.now ++ first_roots project.now) r.1) }
    ensures within { IsBetween (pos 0) MAX_CEILING (pos (horizon project.now + 1)) }
{
    prove!(project.activity_count() >= 2);
    let bound = horizon_of(project) + 1;
    let mut roots = Vec::new(alloc);
    roots.push(deadline(project, bound))?;
    if asks_too_much(project) {
        roots.push(IMPOSSIBLE)?;
        return Ok((roots, None));
    }
    let bench = first_bench(alloc, project, bound)?;
    Ok((roots, bench))
}
