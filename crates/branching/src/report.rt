//! What an expansion reports. Its type keeps that the report is fair.

ghost use Rattle.std.specs.Prelude.{◌≡◌, ◌≤◌, List, map, length, option_map};
ghost use Rattle.std.specs.Arc.{arc_value};
ghost use Rattle.branching.specs.Fates.{fate_value};

use crate::branches::Branches;
use crate::fate::Fate;
use crate::open_node::OpenNode;
use forbidden_sets::ForbiddenSet;
use network::Schedule;
use std::marker::Model;
use std::sync::Arc;

/// How many children a node has at most: an ordered pair of two of 1,000 activities each.
pub const MAX_CHILDREN: usize = 999_000;

/// What the expansion of a node gave: a schedule, or children that stand for all that is left.
///
/// A report is fair. What is found is a schedule that the node stands for. Each child adds a pair that the node's least
/// schedule doesn't keep, and then forced pairs. If a schedule of the node is below the ceiling and shorter than what
/// is found, some child stands for it. There are at most [`MAX_CHILDREN`] children. A report tells how it came about: by the set
/// that was split, and the fate of each ordered pair of its members.
#[derive(Drop, Debug)]
pub struct Report {
    node: Arc<OpenNode>,
    ceiling: Option<i64>,
    found: Option<Schedule>,
    split: Option<ForbiddenSet>,
    fates: Vec<Fate<()>>,
    children: Vec<Arc<OpenNode>>,
}

impl Model for Report {
    ghost use Rattle.branching.specs.Fair.{Expansion, IsReport};

    ghost Value = { Expansion };

    ghost use Rattle.branching.specs.Fair.{expansion_of};

    ghost view = { expansion_of };

    ghost invariant = { λ r. IsReport (expansion_of r) };
}

impl Report {
    ghost use Rattle.branching.specs.Fair.{Expansion, report_of, IsReport};

    /// A report of these parts.
    pub(crate) fn new(
        node: Arc<OpenNode>,
        ceiling: Option<i64>,
        found: Option<Schedule>,
        split: Option<ForbiddenSet>,
        fates: Vec<Fate<()>>,
        children: Vec<Arc<OpenNode>>,
    ) -> Report
        requires { IsReport (report_of (arc_value node) ceiling found split
            (map fate_value fates.items) (map arc_value children.items)) }
        ensures { result ≡ report_of (arc_value node) ceiling found split
            (map fate_value fates.items) (map arc_value children.items) }
    {
        Report {
            node,
            ceiling,
            found,
            split,
            fates,
            children,
        }
    }

    /// The node that was expanded.
    pub fn node(&self) -> &Arc<OpenNode>
        ensures node { arc_value result.now ≡ self.now.node }
        ensures report { IsReport self.now }
    {
        &self.node
    }

    /// The ceiling that the node was expanded under, in periods; none where none was known.
    pub fn ceiling(&self) -> Option<i64>
        ensures ceiling { result ≡ self.now.ceiling }
        ensures report { IsReport self.now }
    {
        self.ceiling
    }

    /// The node's least schedule, where that is feasible.
    pub fn found(&self) -> Option<&Schedule>
        ensures found { option_map (λ schedule. schedule.now) result ≡ self.now.found }
        ensures report { IsReport self.now }
    {
        self.found.as_ref()
    }

    /// The set whose ordered pairs gave the children. If there is none, the node's least schedule is found, or its bound is
    /// at least the ceiling.
    pub fn split(&self) -> Option<&ForbiddenSet>
        ensures split { option_map (λ set. set.now) result ≡ self.now.split }
        ensures report { IsReport self.now }
    {
        self.split.as_ref()
    }

    /// What became of each ordered pair of the split set's members, by rising pairs; empty where no set was
    /// split. Those that are [`Fate::Child`] are the children in their order.
    pub fn fates(&self) -> &[Fate<()>]
        ensures fates { map fate_value result.now ≡ self.now.fates }
        ensures report { IsReport self.now }
    {
        self.fates.as_slice()
    }

    /// The children, by rising pairs; at most [`MAX_CHILDREN`].
    pub fn children(&self) -> &[Arc<OpenNode>]
        ensures children { map arc_value result.now ≡ self.now.children }
        ensures report { IsReport self.now }
    {
        self.children.as_slice()
    }

    /// What was found, and the lists of the children and of the fates.
    pub fn into_parts(self) -> (Option<Schedule>, Branches)
        ensures found { result.0 ≡ self.found }
        ensures children { map arc_value result.1.children.items ≡ self.children }
        ensures fates { map fate_value result.1.fates.items ≡ self.fates }
        ensures report { IsReport self }
    {
        let Report {
            node: _,
            ceiling: _,
            found,
            split: _,
            fates,
            children,
        } = self;
        (found, Branches { children, fates })
    }
}
