//! A node as it waits: its pairs and its bound, without a matrix.

ghost use Rattle.std.specs.Prelude.{◌≡◌, ◌↔◌, [], IsTrue, IfOk, IfErr, IfSome};
ghost use Rattle.std.specs.Arc.{arc_value};
ghost use Rattle.network.specs.Problem.{IsProject, arcs_of};
ghost use Rattle.longest_path.specs.Insert.{Explains};
ghost use Rattle.branching.specs.Subproblem.{IsNode, child_of, root_node};
ghost use Rattle.branching.specs.Parent.{IsParent, node_under};
ghost use Rattle.branching.specs.Fair.{IsRootOf};

use crate::base::Base;
use crate::pair_list::PairList;
use longest_path::{PathFault, longest};
use network::{Pair, Project};
use std::alloc::{AllocError, Global};
use std::marker::Model;
use std::sync::Arc;

/// What the children of a node have of it: what all nodes of the search share, and the node's pairs.
///
/// So workers at different nodes count the owners of different parents. They do not all count at the one thing that all
/// nodes share, which each of them reads all the time.
#[derive(Drop, Debug)]
pub(crate) struct Parent {
    base: Arc<Base>,
    pairs: Vec<Pair>,
}

/// What the children of a node have of it. It is made if it isn't there yet.
pub(crate) fn parent_of(
    alloc: Global,
    node: &OpenNode,
    made: &mut Option<Arc<Parent>>,
) -> Result<Arc<Parent>, AllocError>
    requires { IfSome made.old (λ parent. IsParent node.now (arc_value parent)) }
    ensures made { IfSome made.new (λ parent. IsParent node.now (arc_value parent)) }
    ensures parent { IfOk result (λ parent. IsParent node.now (arc_value parent)) }
{
    if let Some(parent) = made {
        return Arc::try_clone(parent);
    }
    let base = Arc::try_clone(node.base())?;
    let pairs = node.pairs().to_vec(alloc)?;
    let parent = Arc::new(alloc, Parent { base, pairs })?;
    *made = Some(Arc::try_clone(&parent)?);
    Ok(parent)
}

/// A node while it waits: a project, the pairs added to its rules, and a lower bound. It stands for the feasible
/// schedules that keep its pairs.
#[derive(Drop, Debug)]
pub struct OpenNode {
    parent: Arc<Parent>,
    /// The pair that the node has more than its parent. The root has none.
    added: Option<Pair>,
    /// The pairs that this one forced.
    forced: Vec<Pair>,
    bound: i64,
}

impl Model for OpenNode {
    ghost use Rattle.branching.specs.Subproblem.{Subproblem, IsNode};

    ghost Value = { Subproblem };

    ghost use Rattle.branching.specs.Parent.{open_node_of};

    ghost view = { open_node_of };

    ghost invariant = { λ n. IsNode (open_node_of n) };
}

impl OpenNode {
    /// The node with these pairs after its parent's, to be shared.
    fn shared(
        alloc: Global,
        parent: Arc<Parent>,
        added: Option<Pair>,
        forced: Vec<Pair>,
        bound: i64,
    ) -> Result<Arc<OpenNode>, AllocError>
        requires { IsNode (node_under (arc_value parent) added forced.items bound) }
        ensures { IfOk result (λ node. arc_value node ≡ node_under (arc_value parent) added forced.items bound) }
    {
        let node = OpenNode {
            parent,
            added,
            forced,
            bound,
        };
        Ok(Arc::new(alloc, node)?)
    }

    /// The node without pairs, to be shared.
    pub(crate) fn root(
        alloc: Global,
        base: Arc<Base>,
        bound: i64,
    ) -> Result<Arc<OpenNode>, AllocError>
        requires { IsNode (root_node (arc_value base).project bound) }
        ensures { IfOk result (λ node. arc_value node ≡ root_node (arc_value base).project bound) }
    {
        let pairs = Vec::new(alloc);
        let parent = Arc::new(alloc, Parent { base, pairs })?;
        OpenNode::shared(alloc, parent, None, Vec::new(alloc), bound)
    }

    /// The project.
    pub fn project(&self) -> &Arc<Project>
        ensures project { arc_value result.now ≡ self.now.project }
        ensures limits { IsProject self.now.project }
    {
        self.parent.base.project()
    }

    /// Whether the node is one of this project.
    pub fn is_of(&self, project: &Project) -> bool
        ensures { IsTrue result ↔ (self.now.project ≡ project.now) }
    {
        self.project().is_same(project)
    }

    /// The pairs, in the order in which they were added.
    pub fn pairs(&self) -> PairList<'_>
        ensures pairs { result ≡ self.now.pairs }
        ensures is_node { IsNode self.now }
    {
        PairList::of(
            self.parent.pairs.as_slice(),
            self.added,
            self.forced.as_slice(),
        )
    }

    /// A lower bound of the makespans of the schedules that the node stands for, in periods.
    pub fn bound(&self) -> i64
        ensures bound { result ≡ self.now.bound }
        ensures is_node { IsNode self.now }
    {
        self.bound
    }

    /// What all nodes of the search share.
    pub(crate) fn base(&self) -> &Arc<Base>
        ensures { (arc_value result.now).project ≡ self.now.project }
    {
        &self.parent.base
    }

    /// The node with one pair more, pairs that it forced, and this bound. `parent` is what children have of this
    /// node.
    pub(crate) fn with_pairs(
        &self,
        alloc: Global,
        parent: Arc<Parent>,
        first: Pair,
        forced: Vec<Pair>,
        bound: i64,
    ) -> Result<Arc<OpenNode>, AllocError>
        requires parent { IsParent self.now (arc_value parent) }
        requires node { IsNode (child_of self.now first forced.items bound) }
        ensures { IfOk result (λ child. arc_value child ≡ child_of self.now first forced.items bound) }
    {
        OpenNode::shared(alloc, parent, Some(first), forced, bound)
    }
}

/// The root of a project, which has no pairs and stands for all feasible schedules.
///
/// [`PathFault::PositiveCycle`] comes exactly where the project's rules have a closed walk of
/// positive weight, so that there is no schedule.
pub fn open_root(alloc: Global, project: Arc<Project>) -> Result<Arc<OpenNode>, PathFault>
    ensures root { IfOk result (λ root. IsRootOf (arc_value project) (arc_value root)) }
    ensures fault { IfErr result (λ fault. Explains (arcs_of (arc_value project) []) fault) }
{
    prove!(project.activity_count() >= 2);
    let matrix = longest(alloc, &project, &[])?;
    let bound = bounds::bound(alloc, &project, &matrix)?;
    let base = Base::shared(alloc, project, matrix)?;
    let root = OpenNode::root(alloc, base, bound)?;
    Ok(root)
}
