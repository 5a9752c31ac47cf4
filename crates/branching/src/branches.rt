//! The fates of the pairs of a forbidden set, and the children among them.

ghost use Rattle.std.specs.Prelude.{◌≡◌, [], IfOk};
ghost use Rattle.network.specs.Problem.{NameActivities};
ghost use Rattle.bounds.specs.Bound.{IsWorkspaceFor};
ghost use Rattle.branching.specs.Subproblem.{IsTiedTo};
ghost use Rattle.branching.specs.Fates.{AreBranches};

use crate::branch::branch_of;
use crate::fate::Fate;
use crate::open_node::{OpenNode, parent_of};
use bounds::Workspace;
use longest_path::MarkedMatrix;
use network::Pair;
use std::alloc::{AllocError, Global};
use std::sync::Arc;

/// What the ordered pairs of a set give. [`Searcher::reuse`](crate::Searcher::reuse) uses the memory of both lists
/// again.
#[derive(Drop, Debug)]
pub struct Branches {
    /// The children, by rising pairs.
    pub children: Vec<Arc<OpenNode>>,
    /// What became of each pair.
    pub fates: Vec<Fate<()>>,
}

impl Branches {
    /// Nothing, and no memory yet.
    pub(crate) fn new(alloc: Global) -> Branches
        ensures children { result.children.items ≡ [] }
        ensures fates { result.fates.items ≡ [] }
    {
        Branches {
            children: Vec::new(alloc),
            fates: Vec::new(alloc),
        }
    }

    /// The same lists with nothing in them.
    pub(crate) fn emptied(self) -> Branches
        ensures children { result.children.items ≡ [] }
        ensures fates { result.fates.items ≡ [] }
    {
        let Branches {
            mut children,
            mut fates,
        } = self;
        children.clear();
        fates.clear();
        Branches { children, fates }
    }
}

/// What the pairs give under a ceiling, in their order, in the memory of lists whatever those held.
pub(crate) fn branches_of(
    alloc: Global,
    node: &OpenNode,
    matrix: &mut MarkedMatrix,
    bounds: &mut Workspace,
    ceiling: Option<i64>,
    pairs: &[Pair],
    lists: Branches,
) -> Result<Branches, AllocError>
    requires tied { IsTiedTo node.now matrix.old.rows }
    requires bounds { IsWorkspaceFor node.now.project bounds.old }
    requires named { NameActivities node.now.project pairs.now }
    ensures unchanged { matrix.new ≡ matrix.old }
    ensures bounds { bounds.new ≡ bounds.old }
    ensures fates { IfOk result (AreBranches node.now ceiling pairs.now) }
{
    let Branches {
        mut children,
        mut fates,
    } = lists.emptied();
    let mut made = None;
    for pair in pairs {
        let fate = match branch_of(alloc, node, matrix, bounds, ceiling, *pair)? {
            Fate::Child(child) => {
                let parent = parent_of(alloc, node, &mut made)?;
                children.push(node.with_pairs(alloc, parent, *pair, child.forced, child.bound)?)?;
                Fate::Child(())
            }
            Fate::Infeasible { forced } => Fate::Infeasible { forced },
            Fate::Cut { forced } => Fate::Cut { forced },
        };
        fates.push(fate)?;
    }
    Ok(Branches { children, fates })
}
