//! The buffers in which bounds of one project are computed.

ghost use Rattle.std.specs.Prelude.{◌≡◌, [], ◌∷◌, IfOk};
ghost use Rattle.network.specs.Problem.{NameActivities, pair_arc};
ghost use Rattle.longest_path.specs.Insert.{ClosesNone};
ghost use Rattle.bounds.specs.Bound.{IsMatrixFor, IsBoundWith, IsTrueBoundWith, IsBoundUnder, IsWorkspaceFor};

use crate::resource_buffers::ResourceBuffers;
use crate::with_pair::bound_over;
use longest_path::Matrix;
use network::{Pair, Project};
use std::alloc::{AllocError, Global};
use std::marker::Model;

/// What the bounds of a project's nodes share: the work of its activities, and all memory that they
/// take. Its value is how many activities there are, and the tasks of each resource.
#[derive(Drop, Debug)]
pub struct Workspace {
    heads: Vec<i64>,
    tails: Vec<i64>,
    buffers: ResourceBuffers,
}

impl Model for Workspace {
    ghost use Rattle.std.specs.Prelude.{◌≡◌, length};
    ghost use Rattle.bounds.specs.Bound.{WorkspaceOf};

    ghost Value = { WorkspaceOf };

    ghost view = { λ s. record { activities = length s.heads.items; tasks = s.buffers } };

    ghost invariant = { λ s. length s.tails.items ≡ length s.heads.items };
}

impl Workspace {
    /// A workspace for a project's nodes.
    pub fn new(alloc: Global, project: &Project) -> Result<Workspace, AllocError>
        ensures { IfOk result (IsWorkspaceFor project.now) }
    {
        let heads = vec![in alloc; 0; project.activity_count()]?;
        let tails = vec![in alloc; 0; project.activity_count()]?;
        let buffers = ResourceBuffers::new(alloc, project)?;
        Ok(Workspace {
            heads,
            tails,
            buffers,
        })
    }

    /// [`bound_with`] in periods. If that is at least the ceiling, any true bound between the
    /// ceiling and it: whoever cuts by it needs no more. Takes no memory.
    pub fn bound_under(
        &mut self,
        project: &Project,
        matrix: &Matrix,
        pair: Pair,
        ceiling: Option<i64>,
    ) -> i64
        requires workspace { IsWorkspaceFor project.now self.old }
        requires matrix { IsMatrixFor project.now matrix.now }
        requires named { NameActivities project.now (pair ∷ []) }
        requires lives { ClosesNone (pair_arc project.now pair) matrix.now }
        ensures workspace { self.new ≡ self.old }
        ensures value { IsBoundUnder project.now matrix.now pair ceiling result }
        ensures holds { IsTrueBoundWith project.now matrix.now pair result }
    {
        bound_over(
            project,
            matrix,
            pair,
            ceiling,
            self.heads.as_mut_slice(),
            self.tails.as_mut_slice(),
            &mut self.buffers,
        )
    }
}

/// The bound of the matrix with the pair's arc in periods, by entries of the matrix without it. Where
/// more than one is asked for, [`Workspace::bound_under`] takes its memory only once.
pub fn bound_with(
    alloc: Global,
    project: &Project,
    matrix: &Matrix,
    pair: Pair,
) -> Result<i64, AllocError>
    requires matrix { IsMatrixFor project.now matrix.now }
    requires named { NameActivities project.now (pair ∷ []) }
    requires lives { ClosesNone (pair_arc project.now pair) matrix.now }
    ensures value { IfOk result (λ bound. IsBoundWith project.now matrix.now pair bound) }
    ensures holds { IfOk result (λ bound. IsTrueBoundWith project.now matrix.now pair bound) }
{
    let mut workspace = Workspace::new(alloc, project)?;
    Ok(workspace.bound_under(project, matrix, pair, None))
}
