//! What all nodes of a project share: the project, its matrix and its rivals.

ghost use Rattle.std.specs.Prelude.{◌≡◌, [], IfOk};
ghost use Rattle.std.specs.Arc.{arc_value};
ghost use Rattle.network.specs.Problem.{IsProject};
ghost use Rattle.network.specs.Walk.{IsProjectMatrix};
ghost use Rattle.forbidden_sets.specs.Incompatible.{AreRowsOf};

use forbidden_sets::{Incompatible, incompatible_activities};
use longest_path::Matrix;
use network::Project;
use std::alloc::{AllocError, Global};
use std::marker::Model;
use std::sync::Arc;

/// What all nodes of a search share: the project, its matrix without pairs, and its activities that can't run at the
/// same time.
#[derive(Drop, Debug)]
pub(crate) struct Base {
    project: Arc<Project>,
    matrix: Matrix,
    incompatible: Vec<Incompatible>,
}

impl Model for Base {
    ghost use Rattle.branching.specs.Subproblem.{BaseOf, IsBase};

    ghost Value = { BaseOf };

    ghost use Rattle.branching.specs.BaseView.{base_of};

    ghost view = { base_of };

    ghost invariant = { λ s. IsBase (base_of s) };
}

impl Base {
    /// What the nodes of a project share, whose matrix without pairs this is.
    pub(crate) fn shared(
        alloc: Global,
        project: Arc<Project>,
        matrix: Matrix,
    ) -> Result<Arc<Base>, AllocError>
        requires { IsProjectMatrix (arc_value project) [] matrix }
        ensures project { IfOk result (λ base. (arc_value base).project ≡ arc_value project) }
    {
        let incompatible = incompatible_activities(alloc, &project)?;
        let base = Base {
            project,
            matrix,
            incompatible,
        };
        Ok(Arc::new(alloc, base)?)
    }

    /// The project.
    pub(crate) fn project(&self) -> &Arc<Project>
        ensures project { arc_value result.now ≡ self.now.project }
        ensures limits { IsProject self.now.project }
    {
        &self.project
    }

    /// The matrix of the project without pairs.
    pub(crate) fn matrix(&self) -> &Matrix
        ensures { IsProjectMatrix self.now.project [] result.now }
    {
        &self.matrix
    }

    /// The activities that can't run at the same time as some other, by rising numbers.
    pub(crate) fn incompatible(&self) -> &[Incompatible]
        ensures { AreRowsOf self.now.project result.now }
    {
        self.incompatible.as_slice()
    }
}
