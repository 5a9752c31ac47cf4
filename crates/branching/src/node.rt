//! A node with its matrix.

ghost use Rattle.std.specs.Prelude.{◌≡◌, IfOk};
ghost use Rattle.std.specs.Arc.{arc_value};
ghost use Rattle.branching.specs.Subproblem.{Subproblem, IsNode, IsTiedTo};

use crate::open_node::OpenNode;
use longest_path::Matrix;
use std::alloc::{AllocError, Global};
use std::marker::Model;
use std::sync::Arc;

/// A node, and the matrix of its project and pairs.
#[derive(Drop, Debug)]
pub struct Node {
    open_node: Arc<OpenNode>,
    matrix: Matrix,
}

impl Model for Node {
    ghost use Rattle.std.specs.Arc.{arc_value};
    ghost use Rattle.branching.specs.Subproblem.{Subproblem, IsTiedTo};

    ghost Value = { Subproblem };

    ghost view = { λ n. arc_value n.open_node };

    ghost invariant = { λ n. IsTiedTo (arc_value n.open_node) n.matrix };
}

impl Node {
    /// The node of these parts, to be shared.
    pub(crate) fn shared(
        alloc: Global,
        open_node: Arc<OpenNode>,
        matrix: Matrix,
    ) -> Result<Arc<Node>, AllocError>
        requires { IsTiedTo (arc_value open_node) matrix }
        ensures { IfOk result (λ node. arc_value node ≡ arc_value open_node) }
    {
        Ok(Arc::new(alloc, Node { open_node, matrix })?)
    }

    /// The node without its matrix.
    pub fn open_node(&self) -> &Arc<OpenNode>
        ensures open_node { arc_value result.now ≡ self.now }
        ensures is_node { IsNode self.now }
    {
        &self.open_node
    }

    /// The matrix of the project and the pairs, of which the bound is.
    pub fn matrix(&self) -> &Matrix
        ensures { IsTiedTo self.now result.now }
    {
        &self.matrix
    }
}
