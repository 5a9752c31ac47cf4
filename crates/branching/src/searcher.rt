//! One matrix that moves from node to node.

ghost use Rattle.std.specs.Prelude.{◌≡◌, ◌↔◌, IsTrue, [], slice_get, Some, IfOk, IfErr, OnOk};
ghost use Rattle.std.specs.Arc.{arc_value};
ghost use Rattle.std.specs.Bool.{OnTrue};
ghost use Rattle.network.specs.Problem.{arcs_of, NameActivities};
ghost use Rattle.network.specs.Walk.{HasNoPositiveCycle};
ghost use Rattle.longest_path.specs.Insert.{Explains};
ghost use Rattle.branching.specs.Fair.{IsReportOn, FindsNothingOver, IsRootOf};
ghost use Rattle.branching.specs.Path.{IsAt, IsFrontOf, IsShared};

use crate::branches::Branches;
use crate::expansion::expand_by;
use crate::node::Node;
use crate::open_node::{OpenNode, open_root};
use crate::pair_list::PairList;
use crate::pair_matrix::PairMatrix;
use crate::report::Report;
use crate::workspace::ExpansionWorkspace;
use longest_path::PathFault;
use network::{Pair, Project};
use std::alloc::{AllocError, Global};
use std::marker::Model;
use std::sync::Arc;

/// Whether the pair at a place is this one.
fn has_at(pairs: &[Pair], place: usize, pair: Pair) -> bool
    ensures { OnTrue result (slice_get pairs.now place ≡ Some pair) }
{
    match pairs.get(place) {
        Some(other) => other.before == pair.before && other.after == pair.after,
        None => false,
    }
}

/// With how many pairs both lists begin.
fn shared_count(left: &[Pair], right: &[Pair]) -> usize
    ensures { IsShared result left.now right.now }
{
    for (place, pair) in left.iter().enumerate() {
        if !has_at(right, place, *pair) {
            return place;
        }
    }
    left.len()
}

/// The matrix of a project and the pairs of the node that a search is at. It moves from node to node. It goes back to
/// where the pairs of both part, and then inserts one pair after the other.
#[derive(Drop, Debug)]
pub struct Searcher {
    project: Arc<Project>,
    at: PairMatrix,
    workspace: ExpansionWorkspace,
}

impl Model for Searcher {
    ghost use Rattle.branching.specs.Path.{Path, IsSearcher};

    ghost Value = { Path };

    ghost use Rattle.std.specs.Arc.{arc_value};

    ghost view = { λ s. record { project = arc_value s.project; pairs = s.at.pairs } };

    ghost invariant = { λ s. IsSearcher (arc_value s.project) s.at s.workspace };
}

impl Searcher {
    /// A searcher at the root of a node's project.
    pub fn for_node(alloc: Global, node: &OpenNode) -> Result<Searcher, AllocError>
        ensures { IfOk result (λ searcher. searcher ≡ record { project = node.now.project; pairs = [] }) }
    {
        let base = node.base();
        let matrix = base.matrix().try_copy(alloc)?;
        let project = Arc::try_clone(base.project())?;
        let workspace = ExpansionWorkspace::new(alloc, &project)?;
        Ok(Searcher {
            project,
            at: PairMatrix::new(alloc, matrix),
            workspace,
        })
    }

    /// Whether it can move to this node, which is so where both are of the same project.
    pub fn is_for(&self, node: &OpenNode) -> bool
        ensures { IsTrue result ↔ (node.now.project ≡ self.now.project) }
    {
        node.is_of(&self.project)
    }

    /// Moves to the node of these pairs. Where memory runs out, the searcher has the first so many of them.
    pub fn move_to(&mut self, pairs: &PairList) -> Result<(), AllocError>
        requires named { NameActivities self.old.project pairs.now }
        requires live { HasNoPositiveCycle (arcs_of self.old.project pairs.now) }
        ensures project { self.new.project ≡ self.old.project }
        ensures pairs { OnOk result (self.new.pairs ≡ pairs.now) }
        ensures front { IsFrontOf self.new.pairs pairs.now }
    {
        let shared = shared_count(self.at.pairs(), pairs.before());
        self.at.keep(shared);
        self.at.go_on(&self.project, pairs)
    }

    /// Keeps the memory of a report's lists for the next expansion, which drops what they hold.
    pub fn reuse(&mut self, made: Branches)
        ensures { self.new ≡ self.old }
    {
        self.workspace.made = made;
    }

    /// The node that the searcher is at, with a copy of its matrix.
    pub fn node(&self, alloc: Global, open_node: &Arc<OpenNode>) -> Result<Arc<Node>, AllocError>
        requires { IsAt self.now (arc_value open_node.now) }
        ensures { IfOk result (λ node. arc_value node ≡ arc_value open_node.now) }
    {
        let _is_node = open_node.pairs();
        let matrix = self.at.matrix().try_copy(alloc)?;
        Node::shared(alloc, Arc::try_clone(open_node)?, matrix)
    }

    /// Expands the node that the searcher is at under a ceiling, as [`expand`](crate::expand) does, and stays there.
    pub fn expand_here(
        &mut self,
        alloc: Global,
        node: &Arc<OpenNode>,
        ceiling: Option<i64>,
    ) -> Result<Report, AllocError>
        requires { IsAt self.old (arc_value node.now) }
        ensures stays { self.new ≡ self.old }
        ensures report { IfOk result (IsReportOn (arc_value node.now) ceiling) }
        ensures over { IfOk result (FindsNothingOver (arc_value node.now) ceiling) }
    {
        let _is_node = node.pairs();
        let matrix = &mut self.at.matrix;
        expand_by(alloc, node, matrix, &mut self.workspace, ceiling)
    }

    /// Moves to a node and expands it there. Where memory runs out, the searcher is at the node or on the way.
    pub fn expand(
        &mut self,
        alloc: Global,
        node: &Arc<OpenNode>,
        ceiling: Option<i64>,
    ) -> Result<Report, AllocError>
        requires { self.old.project ≡ (arc_value node.now).project }
        ensures project { self.new.project ≡ self.old.project }
        ensures at { OnOk result (IsAt self.new (arc_value node.now)) }
        ensures front { IsFrontOf self.new.pairs (arc_value node.now).pairs }
        ensures report { IfOk result (IsReportOn (arc_value node.now) ceiling) }
        ensures over { IfOk result (FindsNothingOver (arc_value node.now) ceiling) }
    {
        self.move_to(&node.pairs())?;
        self.expand_here(alloc, node, ceiling)
    }
}

/// The node of the same project, pairs and bound, with its matrix.
pub fn rebuild(alloc: Global, open_node: &Arc<OpenNode>) -> Result<Arc<Node>, AllocError>
    ensures { IfOk result (λ node. arc_value node ≡ arc_value open_node.now) }
{
    let mut searcher = Searcher::for_node(alloc, open_node)?;
    searcher.move_to(&open_node.pairs())?;
    searcher.node(alloc, open_node)
}

/// The root of a project with its matrix. Faults are those of [`open_root`].
pub fn root(alloc: Global, project: Arc<Project>) -> Result<Arc<Node>, PathFault>
    ensures root { IfOk result (λ node. IsRootOf (arc_value project) (arc_value node)) }
    ensures fault { IfErr result (λ fault. Explains (arcs_of (arc_value project) []) fault) }
{
    let open_node = open_root(alloc, project)?;
    Ok(rebuild(alloc, &open_node)?)
}
