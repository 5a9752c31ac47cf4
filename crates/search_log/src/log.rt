//! The trail of a search: what became of each node, for a record.

ghost use Rattle.std.specs.Prelude.{◌≡◌, ◌+◌, ◌^◌, ◌<◌, ◌≤◌, ◌++◌, map, drop, length, replicate, IfOk, OnOk, OnErr};
ghost use Rattle.std.specs.Arc.{arc_value};
ghost use Rattle.branching.specs.Fates.{fate_value};
ghost use Rattle.search_log.specs.RightTrail.{children_below};
ghost use Rattle.search_log.specs.SearchLog.{no_entry, node_ending, trail_entry, trail_for, with_entries};
ghost use Rattle.search_log.specs.Recording.{ended_as, child_entry, child_fate, next_name, fates_under, ending_of, checked_in};

use branching::{Fate, OpenNode, PairList, Report, is_below};
use network::{Pair, Project};
use std::alloc::{AllocError, Global};
use std::marker::Model;
use std::sync::Arc;

/// Where a node came from: the name of the node that was split, and the pair of the split set that gave this one.
#[derive(Clone, Copy, Debug, PartialEq, Eq)]
pub struct Origin {
    pub parent: u64,
    pub pair: Pair,
}

/// How a node ended.
#[derive(Drop, Debug)]
pub enum NodeEnding {
    /// It has not ended.
    Open,
    /// Its bound is at least the best makespan.
    Cut,
    /// Its least schedule is feasible.
    Solved,
    /// These members of a forbidden set can't all run together. Each ordered pair of them has its fate, by the place of
    /// the first and then by that of the second. A child has the name that it was opened under. One that isn't below the
    /// best makespan was cut.
    Split {
        resource: usize,
        members: Vec<usize>,
        fates: Vec<Fate<u64>>,
    },
}

/// What is kept of a node that was opened.
#[derive(Drop, Debug)]
pub struct NodeEntry {
    /// None for the root.
    pub origin: Option<Origin>,
    /// The pairs that the node's own pair forced.
    pub forced: Vec<Pair>,
    pub ending: NodeEnding,
}

/// What a search did: an entry for each node that was opened, by their names from 0 on.
#[derive(Drop, Debug)]
pub struct SearchLog {
    alloc: Global,
    project: Arc<Project>,
    entries: Vec<NodeEntry>,
}

impl Model for SearchLog {
    ghost use Rattle.search_log.specs.SearchLog.{TrailOf};

    ghost Value = { TrailOf };

    ghost use Rattle.search_log.specs.SearchLog.{trail_of};

    ghost view = { trail_of };
}

/// The pairs after the one at a place.
fn pairs_after(alloc: Global, pairs: &PairList, place: usize) -> Result<Vec<Pair>, AllocError>
    ensures { IfOk result (λ rest. rest.items ≡ drop (place + 1) pairs.now) }
{
    let all = pairs.to_vec(alloc)?;
    if place >= all.len() {
        return Ok(Vec::new(alloc));
    }
    Vec::from_slice(alloc, &all.as_slice()[place + 1..])
}

/// The entry of a child, whose parent has this name and so many pairs.
fn entry_of_child(
    alloc: Global,
    parent: u64,
    depth: usize,
    child: &OpenNode,
) -> Result<NodeEntry, AllocError>
    ensures { IfOk result (λ entry. trail_entry entry ≡ child_entry parent depth child.now) }
{
    let origin = match child.pairs().get(depth) {
        Some(pair) => Some(Origin { parent, pair }),
        None => None,
    };
    let forced = pairs_after(alloc, &child.pairs(), depth)?;
    Ok(NodeEntry {
        origin,
        forced,
        ending: NodeEnding::Open,
    })
}

/// The fate of a child's pair: the next name where the child's bound is below the limit.
fn fate_of_child(
    alloc: Global,
    limit: Option<i64>,
    depth: usize,
    next: u64,
    child: &OpenNode,
) -> Result<Fate<u64>, AllocError>
    ensures { IfOk result (λ it. fate_value it ≡ child_fate limit depth next child.now) }
{
    if is_below(child.bound(), limit) {
        return Ok(Fate::Child(next));
    }
    let forced = pairs_after(alloc, &child.pairs(), depth)?;
    Ok(Fate::Cut { forced })
}

/// The name after a child that is opened under the next name where its bound is below the limit.
fn name_after(limit: Option<i64>, next: u64, child: &OpenNode) -> u64
    requires { next + 1 < 2 ^ 64 }
    ensures value { result ≡ next_name limit next child.now }
    ensures few { result ≤ next + 1 }
{
    if is_below(child.bound(), limit) {
        return next + 1;
    }
    next
}

/// The fates of a split's pairs. The children below the limit are opened under the names from the first on.
fn fates_of_pairs(
    alloc: Global,
    limit: Option<i64>,
    depth: usize,
    first: u64,
    fates: &[Fate<()>],
    children: &[Arc<OpenNode>],
) -> Result<Vec<Fate<u64>>, AllocError>
    requires { first + length children.now < 2 ^ 64 }
    ensures { IfOk result (λ all. map fate_value all.items
        ≡ fates_under limit depth first (map fate_value fates.now) (map arc_value children.now)) }
{
    let mut all = Vec::with_capacity(alloc, fates.len())?;
    let mut next = first;
    let mut left = children;
    for fate in fates {
        match fate {
            Fate::Infeasible { forced } => {
                let forced = Vec::from_slice(alloc, forced.as_slice())?;
                all.push(Fate::Infeasible { forced })?;
                continue;
            }
            Fate::Cut { forced } => {
                let forced = Vec::from_slice(alloc, forced.as_slice())?;
                all.push(Fate::Cut { forced })?;
                continue;
            }
            Fate::Child(()) => {}
        }
        let Some((child, others)) = left.split_first() else {
            return Ok(all);
        };
        all.push(fate_of_child(alloc, limit, depth, next, child)?)?;
        next = name_after(limit, next, child);
        left = others;
    }
    Ok(all)
}

/// How the node of a report ended. The children below the limit are opened under the names from the first on.
fn ending_of_report(
    alloc: Global,
    limit: Option<i64>,
    first: u64,
    report: &Report,
) -> Result<NodeEnding, AllocError>
    requires { first + length report.now.children < 2 ^ 64 }
    ensures { IfOk result (λ ending. node_ending ending ≡ ending_of limit first report.now) }
{
    let Some(set) = report.split() else {
        if report.found().is_some() {
            return Ok(NodeEnding::Solved);
        }
        return Ok(NodeEnding::Cut);
    };
    let depth = report.node().pairs().len();
    let members = Vec::from_slice(alloc, set.members())?;
    let fates = fates_of_pairs(
        alloc,
        limit,
        depth,
        first,
        report.fates(),
        report.children(),
    )?;
    Ok(NodeEnding::Split {
        resource: set.resource(),
        members,
        fates,
    })
}

/// The entries of the children below the limit.
fn entries_of_children(
    alloc: Global,
    limit: Option<i64>,
    parent: u64,
    depth: usize,
    children: &[Arc<OpenNode>],
) -> Result<Vec<NodeEntry>, AllocError>
    ensures { IfOk result (λ entries. map trail_entry entries.items
        ≡ map (child_entry parent depth) (children_below limit (map arc_value children.now))) }
{
    let mut entries = Vec::new(alloc);
    for child in children {
        if !is_below(child.bound(), limit) {
            continue;
        }
        entries.push(entry_of_child(alloc, parent, depth, child)?)?;
    }
    Ok(entries)
}

fn set_ending(entry: &mut NodeEntry, ending: NodeEnding)
    ensures { entry.new ≡ record entry.old { ending = ending } }
{
    entry.ending = ending;
}

impl SearchLog {
    ghost use Rattle.search_log.specs.SearchLog.{trail_entry};

    /// The trail of a project before its search: an entry for the root, if that is opened.
    pub fn new(alloc: Global, project: Arc<Project>, roots: usize) -> Result<SearchLog, AllocError>
        ensures { IfOk result (λ trail. trail ≡ trail_for (arc_value project) (replicate roots no_entry)) }
    {
        let mut entries = Vec::with_capacity(alloc, roots)?;
        for _ in 0..roots {
            entries.push(NodeEntry {
                origin: None,
                forced: Vec::new(alloc),
                ending: NodeEnding::Open,
            })?;
        }
        Ok(SearchLog {
            alloc,
            project,
            entries,
        })
    }

    /// The project.
    pub fn project(&self) -> &Arc<Project>
        ensures { arc_value result.now ≡ self.now.project }
    {
        &self.project
    }

    /// What became of each node, by names.
    pub fn entries(&self) -> &[NodeEntry]
        ensures { map trail_entry result.now ≡ self.now.entries }
    {
        self.entries.as_slice()
    }

    /// Ends the node under a name.
    pub fn end(&mut self, name: u64, ending: NodeEnding)
        ensures { self.new ≡ record self.old { entries = ended_as self.old.entries name (node_ending ending) } }
    {
        let place = name as usize;
        if place < self.entries.len() {
            set_ending(&mut self.entries[place], ending);
        }
    }

    /// Adds entries. Where memory runs out, nothing changes.
    fn add(&mut self, more: &mut Vec<NodeEntry>) -> Result<(), AllocError>
        ensures ok { OnOk result (self.new
            ≡ record self.old { entries = self.old.entries ++ map trail_entry more.old.items }) }
        ensures err { OnErr result (self.new ≡ self.old) }
    {
        self.entries.append(more)
    }

    /// Notes a report on the node under a name: how that node ended, and the children below the limit, which are opened.
    /// Where memory runs out, nothing changes.
    pub fn check_in(
        &mut self,
        name: u64,
        limit: Option<i64>,
        report: &Report,
    ) -> Result<(), AllocError>
        requires known { name < length self.old.entries }
        requires names { length self.old.entries + length report.now.children < 2 ^ 64 }
        ensures ok { OnOk result (self.new ≡ with_entries (checked_in limit name report.now) self.old) }
        ensures err { OnErr result (self.new ≡ self.old) }
    {
        let first = self.entries.len() as u64;
        let ending = ending_of_report(self.alloc, limit, first, report)?;
        let depth = report.node().pairs().len();
        let mut more = entries_of_children(self.alloc, limit, name, depth, report.children())?;
        self.add(&mut more)?;
        self.end(name, ending);
        Ok(())
    }
}
