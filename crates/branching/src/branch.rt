//! What becomes of a node with one pair more.

ghost use Rattle.std.specs.Prelude.{◌≡◌, [], ◌∷◌, ◌++◌, ◌≤ℤ◌, IfOk};
ghost use Rattle.std.specs.Bool.{OnTrue, OnFalse};
ghost use Rattle.network.specs.Problem.{NameActivities, pair_arc};
ghost use Rattle.network.specs.Walk.{IsProjectMatrix};
ghost use Rattle.longest_path.specs.Insert.{ClosesNone, rows_over};
ghost use Rattle.bounds.specs.Bound.{critical_weight, IsWorkspaceFor};
ghost use Rattle.branching.specs.Subproblem.{IsTiedTo};
ghost use Rattle.branching.specs.Right.{IsInfeasible};
ghost use Rattle.branching.specs.Forcing.{IsForcedMatrix};
ghost use Rattle.branching.specs.Fates.{IsBranchOf};

use crate::ceiling::is_below;
use crate::fate::Fate;
use crate::forcing::{Forcing, force, forces_some};
use crate::open_node::OpenNode;
use bounds::Workspace;
use longest_path::{MarkedMatrix, Matrix, PathFault};
use network::Pair;
use std::alloc::{AllocError, Global};

/// A child that was found: the pairs that its own pair forced, and its bound.
#[derive(Drop)]
pub(crate) struct FoundChild {
    pub(crate) forced: Vec<Pair>,
    pub(crate) bound: i64,
}

/// Whether the pair closes a walk of positive weight, by one entry of the node's matrix.
fn is_infeasible_with(node: &OpenNode, matrix: &Matrix, pair: Pair) -> bool
    requires tied { IsTiedTo node.now matrix.now }
    requires named { NameActivities node.now.project (pair ∷ []) }
    ensures infeasible { OnTrue result (IsInfeasible node.now.project (node.now.pairs ++ pair ∷ [])) }
    ensures live { OnFalse result (ClosesNone (pair_arc node.now.project pair) matrix.now) }
{
    let duration = node.project().duration(pair.before);
    match matrix.get(pair.after, pair.before) {
        Some(back) => back + duration > 0,
        None => false,
    }
}

/// How long a schedule that keeps the pair lasts at least, by the walks to its first activity and from its second.
/// These are two entries of the node's matrix. It is at most the critical weight with the pair.
fn least_with(node: &OpenNode, matrix: &Matrix, pair: Pair) -> i64
    requires tied { IsTiedTo node.now matrix.now }
    requires named { NameActivities node.now.project (pair ∷ []) }
    ensures { result ≤ℤ critical_weight (rows_over (pair_arc node.now.project pair) matrix.now) }
{
    let end = node.project().activity_count() - 1;
    let head = matrix.get(0, pair.before).unwrap_or(0);
    let rest = matrix.get(pair.after, end).unwrap_or(0);
    head + node.project().duration(pair.before) + rest
}

/// What a pair gives once its forced pairs were added: a child, or nothing if its bound is at least the ceiling.
fn bounded(
    node: &OpenNode,
    matrix: &Matrix,
    bounds: &mut Workspace,
    ceiling: Option<i64>,
    first: Pair,
    forced: Vec<Pair>,
) -> Fate<FoundChild>
    requires bounds { IsWorkspaceFor node.now.project bounds.old }
    requires named { NameActivities node.now.project (first ∷ []) }
    requires matrix { IsForcedMatrix node.now.project (node.now.pairs ++ first ∷ []) forced.items matrix.now }
    ensures bounds { bounds.new ≡ bounds.old }
    ensures branch { IsBranchOf node.now ceiling first result }
{
    // The pair's arc is in the matrix, so that the bound with it is that of the matrix.
    let bound = bounds.bound_under(node.project(), matrix, first, ceiling);
    if !is_below(bound, ceiling) {
        return Fate::Cut { forced };
    }
    Fate::Child(FoundChild { forced, bound })
}

/// What a pair gives by the matrix with its arc. The matrix is left as the last forced pair makes it.
fn branch_at(
    alloc: Global,
    node: &OpenNode,
    matrix: &mut MarkedMatrix,
    bounds: &mut Workspace,
    ceiling: Option<i64>,
    first: Pair,
) -> Result<Fate<FoundChild>, AllocError>
    requires bounds { IsWorkspaceFor node.now.project bounds.old }
    requires named { NameActivities node.now.project (first ∷ []) }
    requires matrix { IsProjectMatrix node.now.project (node.now.pairs ++ first ∷ []) matrix.old.rows }
    ensures marks { matrix.new.marks ≡ matrix.old.marks }
    ensures bounds { bounds.new ≡ bounds.old }
    ensures branch { IfOk result (IsBranchOf node.now ceiling first) }
{
    match force(alloc, node, first, matrix)? {
        Forcing::Infeasible(forced) => Ok(Fate::Infeasible { forced }),
        Forcing::Live(forced) => {
            let matrix = matrix.matrix();
            Ok(bounded(node, matrix, bounds, ceiling, first, forced))
        }
    }
}

/// What a pair gives that forces others. It adds their arcs to the matrix, which then goes back.
fn branch_with_forced(
    alloc: Global,
    node: &OpenNode,
    matrix: &mut MarkedMatrix,
    bounds: &mut Workspace,
    ceiling: Option<i64>,
    first: Pair,
) -> Result<Fate<FoundChild>, AllocError>
    requires tied { IsTiedTo node.now matrix.old.rows }
    requires bounds { IsWorkspaceFor node.now.project bounds.old }
    requires named { NameActivities node.now.project (first ∷ []) }
    ensures unchanged { matrix.new ≡ matrix.old }
    ensures bounds { bounds.new ≡ bounds.old }
    ensures branch { IfOk result (IsBranchOf node.now ceiling first) }
{
    match matrix.insert_under_mark(node.project().pair_arc(first)) {
        Ok(()) => {}
        Err(PathFault::PositiveCycle { .. }) => return Ok(Fate::Infeasible {
            forced: Vec::new(alloc),
        }),
        Err(PathFault::Memory) => return Err(AllocError),
    }
    let branch = branch_at(alloc, node, matrix, bounds, ceiling, first);
    matrix.go_back();
    branch
}

/// What a pair gives under a ceiling. It inserts nothing if the node's own matrix tells it. At any node but the root
/// all pairs that its matrix forces were added, so only ways over the pair's arc can force more.
pub(crate) fn branch_of(
    alloc: Global,
    node: &OpenNode,
    matrix: &mut MarkedMatrix,
    bounds: &mut Workspace,
    ceiling: Option<i64>,
    pair: Pair,
) -> Result<Fate<FoundChild>, AllocError>
    requires tied { IsTiedTo node.now matrix.old.rows }
    requires bounds { IsWorkspaceFor node.now.project bounds.old }
    requires named { NameActivities node.now.project (pair ∷ []) }
    ensures unchanged { matrix.new ≡ matrix.old }
    ensures bounds { bounds.new ≡ bounds.old }
    ensures branch { IfOk result (IsBranchOf node.now ceiling pair) }
{
    let rows = matrix.matrix();
    if is_infeasible_with(node, rows, pair) {
        return Ok(Fate::Infeasible {
            forced: Vec::new(alloc),
        });
    }
    if !is_below(least_with(node, rows, pair), ceiling) {
        return Ok(Fate::Cut {
            forced: Vec::new(alloc),
        });
    }
    if node.pairs().get(0).is_none()
        || forces_some(node.project(), rows, node.base().incompatible(), pair)
    {
        return branch_with_forced(alloc, node, matrix, bounds, ceiling, pair);
    }
    let bound = bounds.bound_under(node.project(), rows, pair, ceiling);
    if !is_below(bound, ceiling) {
        return Ok(Fate::Cut {
            forced: Vec::new(alloc),
        });
    }
    let forced = Vec::new(alloc);
    Ok(Fate::Child(FoundChild { forced, bound }))
}
