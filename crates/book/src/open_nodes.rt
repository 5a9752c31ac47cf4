//! The open nodes, in the order in which they are handed out.

ghost use Rattle.std.specs.Prelude.{◌≡◌, ◌+◌, ◌<◌, ◌^◌, [], ◌∷◌, map, length, IfOk, OnOk, OnErr, IfSome, IfNone};
ghost use Rattle.std.specs.Arc.{arc_value};
ghost use Rattle.std.specs.List.{All, filter};
ghost use Rattle.book.specs.State.{Named, held_node};
ghost use Rattle.branching.specs.Right.{IsLeast};
ghost use Rattle.book.specs.Sound.{AreNamedBelow, bounds_of};
ghost use Rattle.book.specs.Steps.{GoesBefore};
ghost use Rattle.book.specs.OpenNodes.{IsNamedOtherThan, Inserts, InsertsChildren, is_older};

use crate::hands::Held;
use branching::{OpenNode, is_below};
use std::alloc::{AllocError, Global};
use std::cmp::Reverse;
use std::collections::BTreeMap;
use std::marker::Model;
use std::sync::Arc;

/// The place of an open node: the least bound first, among these the greatest name.
#[derive(Clone, Copy, Debug, PartialEq, Eq, PartialOrd, Ord)]
struct Rank {
    bound: i64,
    name: Reverse<u64>,
}

/// An open node. It has two owners, one for the hand and one for the ticket. So to take it needs no memory.
#[derive(Drop, Debug)]
struct NodeOwners {
    node: Arc<OpenNode>,
    twin: Arc<OpenNode>,
}

impl NodeOwners {
    fn into_owners(self) -> (Arc<OpenNode>, Arc<OpenNode>)
        ensures { result ≡ (self.node, self.twin) }
    {
        (self.node, self.twin)
    }
}

/// The open nodes, in the order in which they are taken.
#[derive(Drop, Debug)]
pub(crate) struct OpenNodes {
    nodes: BTreeMap<Rank, NodeOwners>,
}

impl Model for OpenNodes {
    ghost use Rattle.std.specs.Prelude.{List, map};
    ghost use Rattle.std.specs.List.{All};
    ghost use Rattle.book.specs.State.{Named};
    ghost use Rattle.book.specs.OpenNodes.{open_node, IsFiled};

    ghost Value = { List Named };

    ghost view = { λ o. map open_node o.nodes.entries };

    ghost invariant = { λ o. All IsFiled o.nodes.entries };
}

impl OpenNodes {
    /// No node.
    pub(crate) fn new(alloc: Global) -> OpenNodes
        ensures { result ≡ [] }
    {
        OpenNodes {
            nodes: BTreeMap::new(alloc),
        }
    }

    pub(crate) fn len(&self) -> usize
        ensures { result ≡ length self.now }
    {
        self.nodes.len()
    }

    /// The least bound.
    pub(crate) fn least_bound(&self) -> Option<i64>
        ensures { IsLeast (bounds_of self.now) result }
    {
        let (rank, _) = self.nodes.first_key_value()?;
        Some(rank.bound)
    }

    /// Puts a node in under a name of its own. Where memory runs out, nothing changes.
    pub(crate) fn insert(&mut self, name: u64, node: &Arc<OpenNode>) -> Result<(), AllocError>
        requires { All (IsNamedOtherThan name) self.old }
        ensures ok { OnOk result (Inserts name (arc_value node.now) self.old self.new) }
        ensures err { OnErr result (self.new ≡ self.old) }
    {
        let bound = node.bound();
        let opened = NodeOwners {
            node: Arc::try_clone(node)?,
            twin: Arc::try_clone(node)?,
        };
        let name = Reverse(name);
        self.nodes.insert(Rank { bound, name }, opened)?;
        Ok(())
    }

    /// Puts in the children whose bounds are below the limit, in their order, under the names from the first on. Where
    /// memory runs out, nothing changes.
    pub(crate) fn insert_children(
        &mut self,
        children: &[Arc<OpenNode>],
        limit: Option<i64>,
        first: u64,
    ) -> Result<u64, AllocError>
        requires older { AreNamedBelow first self.old }
        requires names { first + length children.now < 2 ^ 64 }
        ensures ok { IfOk result (λ count. InsertsChildren first limit (map arc_value children.now) count self.old self.new) }
        ensures err { OnErr result (self.new ≡ self.old) }
    {
        let mut next = first;
        for child in children {
            if !is_below(child.bound(), limit) {
                continue;
            }
            if self.insert(next, child).is_err() {
                self.keep_older(first);
                return Err(AllocError);
            }
            next += 1;
        }
        Ok(next - first)
    }

    /// Takes out all nodes but those of names below the first.
    pub(crate) fn keep_older(&mut self, first: u64)
        ensures { self.new ≡ filter (is_older first) self.old }
    {
        self.nodes.retain(|rank, _| rank.name.0 < first);
    }

    /// Takes out the first node: once for a hand, and once for a ticket.
    pub(crate) fn pop_first(&mut self) -> Option<(Held, Arc<OpenNode>)>
        ensures popped { IfSome result (λ first. self.old ≡ held_node first.0 ∷ self.new) }
        ensures before { IfSome result (λ first. All (GoesBefore (held_node first.0)) self.new) }
        ensures twin { IfSome result (λ first. arc_value first.1 ≡ arc_value first.0.node) }
        ensures none { IfNone result ((self.old ≡ []) × (self.new ≡ [])) }
    {
        let (rank, opened) = self.nodes.pop_first()?;
        let (node, twin) = opened.into_owners();
        let name = rank.name.0;
        Some((Held { name, node }, twin))
    }

    pub(crate) fn clear(&mut self)
        ensures { self.new ≡ [] }
    {
        self.nodes.clear();
    }
}
