//! The node at which a record stands, with its matrix.

ghost use Rattle.std.specs.Prelude.{◌≡◌, ◌≤◌, ◌↔◌, ◌++◌, ◌∷◌, [], length, take, IsTrue, IfOk, OnOk, OnErr, MatchOption};
ghost use Rattle.network.specs.Problem.{NameActivities};
ghost use Rattle.network.specs.Walk.{IsProjectMatrix};
ghost use Rattle.branching.specs.Path.{Path};
ghost use Rattle.branching.specs.Right.{IsInfeasible};
ghost use Rattle.search_record.specs.TreeNode.{IsRootNode};
ghost use Rattle.search_record.specs.Right.{IsRightLine};

use crate::judge::is_right_by;
use branching::PairMatrix;
use longest_path::{Matrix, PathFault, longest};
use network::{Pair, Project};
use record_text::Line;
use std::alloc::{AllocError, Global};
use std::marker::Model;

/// A node of a record's tree: a project and pairs. It moves from node to node by one matrix, which goes
/// back where pairs are taken away.
#[derive(Drop)]
pub(crate) struct TreeNode<'a> {
    project: &'a Project,
    /// The pairs before the first that closes a walk of positive weight.
    live: PairMatrix,
    /// That pair and those after it.
    dead: Vec<Pair>,
}

impl<'a> Model for TreeNode<'a> {
    ghost use Rattle.std.specs.Prelude.{◌++◌};
    ghost use Rattle.branching.specs.Path.{Path};
    ghost use Rattle.search_record.specs.TreeNode.{IsPathTo};

    ghost Value = { Path };

    ghost view = { λ s. record { project = s.project.now; pairs = s.live.pairs ++ s.dead.items } };

    ghost invariant = { λ s. IsPathTo s.project.now s.live s.dead.items };
}

impl<'a> TreeNode<'a> {
    /// The node without pairs; none where the project itself has a closed walk of positive weight.
    pub(crate) fn root(
        alloc: Global,
        project: &'a Project,
    ) -> Result<Option<TreeNode<'a>>, AllocError>
        ensures { IfOk result (IsRootNode project.now) }
    {
        prove!(project.activity_count() >= 2);
        match longest(alloc, project, &[]) {
            Ok(matrix) => Ok(Some(TreeNode {
                project,
                live: PairMatrix::new(alloc, matrix),
                dead: Vec::new(alloc),
            })),
            Err(PathFault::PositiveCycle { .. }) => Ok(None),
            Err(PathFault::Memory) => Err(AllocError),
        }
    }

    /// How many pairs there are.
    pub(crate) fn depth(&self) -> usize
        ensures { result ≡ length self.now.pairs }
    {
        self.live.pairs().len() + self.dead.len()
    }

    /// The matrix of the project and the pairs; none where these have a closed walk of positive weight.
    fn matrix(&self) -> Option<&Matrix>
        ensures { MatchOption result
            (IsInfeasible self.now.project self.now.pairs)
            (λ matrix. IsProjectMatrix self.now.project self.now.pairs matrix.now) }
    {
        if self.dead.is_empty() {
            return Some(self.live.matrix());
        }
        None
    }

    /// Whether a line is right in this node. No limit stands for a claim that there is no schedule.
    pub(crate) fn is_right(
        &self,
        alloc: Global,
        limit: Option<i64>,
        line: &Line,
    ) -> Result<bool, AllocError>
        ensures { IfOk result (λ yes. IsTrue yes ↔ IsRightLine self.now.project limit self.now.pairs line.now) }
    {
        match self.matrix() {
            Some(matrix) => is_right_by(alloc, self.project, matrix, limit, line),
            None => Ok(matches!(line, Line::Dead)),
        }
    }

    /// Adds a pair. Where memory runs out, nothing changes.
    pub(crate) fn add(&mut self, pair: Pair) -> Result<(), AllocError>
        requires { NameActivities self.old.project (pair ∷ []) }
        ensures added { OnOk result (self.new ≡ record self.old { pairs = self.old.pairs ++ pair ∷ [] }) }
        ensures unchanged { OnErr result (self.new ≡ self.old) }
    {
        self.dead.reserve(1)?;
        if !self.dead.is_empty() {
            self.dead.push_reserved(pair);
            return Ok(());
        }
        match self.live.add(self.project, pair) {
            Ok(()) => {}
            Err(PathFault::PositiveCycle { .. }) => self.dead.push_reserved(pair),
            Err(PathFault::Memory) => return Err(AllocError),
        }
        Ok(())
    }

    /// Keeps the first so many pairs.
    pub(crate) fn keep(&mut self, count: usize)
        requires { count ≤ length self.old.pairs }
        ensures { self.new ≡ record self.old { pairs = take count self.old.pairs } }
    {
        match count.checked_sub(self.live.pairs().len()) {
            Some(dead) => self.dead.truncate(dead),
            None => {
                self.dead.clear();
                self.live.keep(count);
            }
        }
    }
}
