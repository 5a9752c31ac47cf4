//! The nodes of a record that must still come.

ghost use Rattle.std.specs.Prelude.{◌≡◌, ◌++◌, map, reverse, OnOk, ◌<◌, List, [], ◌∷◌, drop, length, IfOk};
ghost use Rattle.search_record.specs.Due.{StayNested, later_at, IsRootDue, due_forced, due_split, due_after};
ghost use Rattle.network.specs.declared.parts.Pair.{Pair};
ghost use Rattle.network.specs.Problem.{NameActivities};
ghost use Rattle.branching.specs.Path.{Path};

use crate::node::TreeNode;
use branching::ordered_pairs;
use network::{Pair, Project};
use record_text::Line;
use std::alloc::{AllocError, Global};
use std::marker::Model;

/// A node that comes later: how many pairs of the path it keeps, and the one that it adds.
#[derive(Clone, Copy, PartialEq, Eq, Debug)]
pub(crate) struct Later {
    pub(crate) depth: usize,
    pub(crate) pair: Pair,
}

/// Adds a later node for each pair, that of the first pair last.
pub(crate) fn push_later(
    later: &mut Vec<Later>,
    depth: usize,
    mut pairs: Vec<Pair>,
) -> Result<(), AllocError>
    ensures added { OnOk result (reverse later.new.items
        ≡ map (later_at depth) pairs.items ++ reverse later.old.items) }
    ensures nested { StayNested depth pairs.items (reverse later.old.items) (reverse later.new.items) }
{
    while let Some(pair) = pairs.pop() {
        later.push(Later { depth, pair })?;
    }
    Ok(())
}

/// The nodes of a record's tree that are due.
#[derive(Drop)]
pub(crate) struct Due<'a> {
    /// The next one, if it is there.
    node: TreeNode<'a>,
    is_there: bool,
    /// The later ones, the next of them last.
    later: Vec<Later>,
}

impl<'a> Model for Due<'a> {
    ghost use Rattle.std.specs.Prelude.{reverse};
    ghost use Rattle.search_record.specs.Due.{DueNodes, IsDueAlong, nodes_due};

    ghost Value = { DueNodes };

    ghost view = { λ s. record {
      project = s.node.project;
      nodes = nodes_due s.is_there s.node.pairs (reverse s.later.items);
    } };

    ghost invariant = { λ s. IsDueAlong s.is_there s.node (reverse s.later.items) };
}

impl<'a> Due<'a> {
    ghost use Rattle.std.specs.List.{All};
    ghost use Rattle.network.specs.Problem.{activity_count};
    ghost use Rattle.search_record.specs.Right.{NamesActivities};

    /// The node without pairs alone; none where the project itself has a closed walk of positive weight.
    pub(crate) fn root(alloc: Global, project: &'a Project) -> Result<Option<Due<'a>>, AllocError>
        ensures { IfOk result (IsRootDue project.now) }
    {
        match TreeNode::root(alloc, project)? {
            Some(node) => Ok(Some(Due {
                node,
                is_there: true,
                later: Vec::new(alloc),
            })),
            None => Ok(None),
        }
    }

    /// The next node.
    pub(crate) fn next(&self) -> &TreeNode<'a>
        requires { 0 < length self.now.nodes }
        ensures project { result.now.project ≡ self.now.project }
        ensures nodes { (rest : List (List Pair)) × (self.now.nodes ≡ result.now.pairs ∷ rest) }
    {
        &self.node
    }

    /// Adds a pair to the next node.
    fn force(&mut self, pair: Pair) -> Result<(), AllocError>
        requires there { 0 < length self.old.nodes }
        requires named { NameActivities self.old.project (pair ∷ []) }
        ensures project { self.new.project ≡ self.old.project }
        ensures nodes { OnOk result (self.new.nodes ≡ due_forced pair self.old.nodes) }
    {
        self.node.add(pair)
    }

    /// Goes on to the node after the next one.
    fn leave(&mut self) -> Result<(), AllocError>
        requires { 0 < length self.old.nodes }
        ensures project { self.new.project ≡ self.old.project }
        ensures nodes { OnOk result (self.new.nodes ≡ drop 1 self.old.nodes) }
    {
        match self.later.pop() {
            Some(later) => {
                self.node.keep(later.depth);
                self.node.add(later.pair)?;
            }
            None => self.is_there = false,
        }
        Ok(())
    }

    /// Goes on to the nodes below the next one.
    fn split(&mut self, alloc: Global, members: &[usize]) -> Result<(), AllocError>
        requires there { 0 < length self.old.nodes }
        requires named { All (λ i. i < activity_count self.old.project) members.now }
        ensures project { self.new.project ≡ self.old.project }
        ensures nodes { OnOk result (self.new.nodes ≡ due_split members.now self.old.nodes) }
    {
        let pairs = ordered_pairs(alloc, members)?;
        let depth = self.node.depth();
        push_later(&mut self.later, depth, pairs)?;
        self.leave()?;
        Ok(())
    }

    /// Goes on from a line of the next node to what comes after it.
    pub(crate) fn go_on(&mut self, alloc: Global, line: &Line) -> Result<(), AllocError>
        requires there { 0 < length self.old.nodes }
        requires named { NamesActivities self.old.project line.now }
        ensures project { self.new.project ≡ self.old.project }
        ensures nodes { OnOk result (self.new.nodes ≡ due_after line.now self.old.nodes) }
    {
        match line {
            Line::Force(pair) => self.force(*pair)?,
            Line::Solved | Line::Cut | Line::Dead => self.leave()?,
            Line::Split { members, .. } => self.split(alloc, members.as_slice())?,
        }
        Ok(())
    }
}
