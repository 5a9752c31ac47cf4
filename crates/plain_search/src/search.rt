//! The search by one thread.

ghost use Rattle.std.specs.Prelude.{◌≡◌, ◌<◌, ◌≤◌, ◌⊎◌, [], Some, map, option_map, IfOk, IsTrue, ◌↔◌};
ghost use Rattle.std.specs.Arc.{arc_value};
ghost use Rattle.branching.specs.Fair.{IsRootOf, IsShorterOf, ceiling_of};
ghost use Rattle.branching.specs.Right.{IsLeast};
ghost use Rattle.branching.specs.Subproblem.{Subproblem};
ghost use Rattle.plain_search.specs.Takes.{bounds_of, PopsUnder, IsTake, IsOutcomeOf, StopsOnlyAfter, first_state};
ghost use Rattle.network.specs.Verdicts.{IsTrueOf, StopsBelowBest};

use branching::{OpenNode, Searcher, is_below, lesser, makespan_of, open_root};
use longest_path::PathFault;
use network::{Outcome, Project, Schedule};
use std::alloc::{AllocError, Global};
use std::marker::Model;
use std::sync::Arc;

/// The most nodes that a search may be asked to take.
pub const MAX_EXPANDED: u64 = 1_000_000_000;

/// The best schedule so far, and a stack of nodes that stand for every shorter one.
#[derive(Drop)]
struct Search {
    project: Arc<Project>,
    best: Option<Schedule>,
    stack: Vec<Arc<OpenNode>>,
}

impl Model for Search {
    ghost use Rattle.plain_search.specs.Takes.{SearchState, IsSoundState};

    ghost Value = { SearchState };

    ghost use Rattle.plain_search.specs.Takes.{state_of};

    ghost view = { state_of };

    ghost invariant = { λ s. IsSoundState (state_of s) };
}

/// The shorter of the best and what was found, the best where both are as long.
fn shorter_of(best: Option<Schedule>, found: Option<Schedule>) -> Option<Schedule>
    ensures { IsShorterOf best found result }
{
    match (best, found) {
        (Some(best), Some(found)) => {
            if found.makespan() < best.makespan() {
                Some(found)
            } else {
                Some(best)
            }
        }
        (None, found) => found,
        (best, None) => best,
    }
}

/// Takes the last node below the ceiling off the stack, and drops those after it.
fn next_node(ceiling: Option<i64>, stack: &mut Vec<Arc<OpenNode>>) -> Option<Arc<OpenNode>>
    ensures { PopsUnder ceiling
        (map arc_value stack.old.items) (option_map arc_value result) (map arc_value stack.new.items) }
{
    while let Some(node) = stack.pop() {
        if is_below(node.bound(), ceiling) {
            return Some(node);
        }
    }
    None
}

/// The least bound of the nodes, if there are some.
fn least_bound(nodes: &[Arc<OpenNode>]) -> Option<i64>
    ensures { IsLeast (bounds_of (map arc_value nodes.now)) result }
{
    let mut least = None;
    for node in nodes {
        least = lesser(least, Some(node.bound()));
    }
    least
}

impl Search {
    ghost use Rattle.plain_search.specs.Takes.{SearchState};

    /// A search at its start: no schedule was found, and the root stands for all.
    fn new(alloc: Global, project: Arc<Project>, root: Arc<OpenNode>) -> Result<Search, AllocError>
        requires { IsRootOf (arc_value project) (arc_value root) }
        ensures { IfOk result (λ search. search ≡ first_state (arc_value project) (arc_value root)) }
    {
        let mut stack = Vec::new(alloc);
        stack.push(root)?;
        Ok(Search {
            project,
            best: None,
            stack,
        })
    }

    /// Whether no node is left.
    fn is_done(&self) -> bool
        ensures { IsTrue result ↔ (self.now.nodes ≡ []) }
    {
        self.stack.is_empty()
    }

    /// Takes the last node below the best and puts its children in its place. So the last child comes next. Where no node is
    /// below the best, none is left.
    fn take(self, alloc: Global, searcher: &mut Searcher) -> Result<Search, AllocError>
        requires { searcher.old.project ≡ self.project }
        ensures searcher { searcher.new.project ≡ searcher.old.project }
        ensures project { IfOk result (λ search. search.project ≡ self.project) }
        ensures taken { IfOk result (λ search. (search.nodes ≡ []) ⊎ IsTake self search) }
    {
        let Search {
            project,
            best,
            mut stack,
        } = self;
        let ceiling = makespan_of(&best);
        let node = match next_node(ceiling, &mut stack) {
            Some(node) => node,
            None => {
                return Ok(Search {
                    project,
                    best,
                    stack,
                });
            }
        };
        let report = searcher.expand(alloc, &node, ceiling)?;
        let (found, mut made) = report.into_parts();
        stack.append(&mut made.children)?;
        searcher.reuse(made);
        let best = shorter_of(best, found);
        Ok(Search {
            project,
            best,
            stack,
        })
    }

    /// What is known at the end. If a node below the best is left, the least bound; else the verdict.
    fn into_outcome(self) -> Outcome
        ensures outcome { IsOutcomeOf self result }
        ensures true_of { IsTrueOf self.project result }
    {
        let Search {
            project: _,
            best,
            stack,
        } = self;
        let least = least_bound(stack.as_slice());
        match (best, least) {
            (Some(best), Some(bound)) => {
                if bound < best.makespan() {
                    Outcome::Stopped {
                        best: Some(best),
                        bound,
                    }
                } else {
                    Outcome::Optimal(best)
                }
            }
            (None, Some(bound)) => Outcome::Stopped { best: None, bound },
            (Some(best), None) => Outcome::Optimal(best),
            (None, None) => Outcome::NoSchedule,
        }
    }
}

/// Goes on from the start of a search, as [`search_alone`] does.
fn search_from(
    alloc: Global,
    search: Search,
    searcher: &mut Searcher,
    takes: u64,
) -> Result<Outcome, AllocError>
    requires limit { takes ≤ MAX_EXPANDED }
    requires searcher { searcher.old.project ≡ search.project }
    requires start { (root : Subproblem) × IsRootOf search.project root × (search ≡ first_state search.project root) }
    ensures true_of { IfOk result (IsTrueOf search.project) }
    ensures below_best { IfOk result StopsBelowBest }
    ensures takes { IfOk result (StopsOnlyAfter search.project takes) }
{
    let mut search = search;
    for _ in 0..takes {
        if search.is_done() {
            break;
        }
        search = search.take(alloc, searcher)?;
    }
    Ok(search.into_outcome())
}

/// Searches for a shortest schedule in one thread, depth first, with at most `takes` nodes expanded.
///
/// It takes the last node on a stack. It drops a node whose bound is at least the best makespan, and doesn't count it.
/// It expands any other under the best makespan, and puts the children on in order. [`Outcome::Stopped`] comes only if the
/// takes are used up while a node with a bound below the best makespan is left. Its bound is the least on the stack,
/// and below the best makespan.
pub fn search_alone(
    alloc: Global,
    project: &Arc<Project>,
    takes: u64,
) -> Result<Outcome, AllocError>
    requires some { 0 < takes }
    requires limit { takes ≤ MAX_EXPANDED }
    ensures true_of { IfOk result (IsTrueOf (arc_value project.now)) }
    ensures below_best { IfOk result StopsBelowBest }
    ensures takes { IfOk result (StopsOnlyAfter (arc_value project.now) takes) }
{
    let root = match open_root(alloc, Arc::try_clone(project)?) {
        Ok(root) => root,
        Err(PathFault::PositiveCycle { .. }) => return Ok(Outcome::NoSchedule),
        Err(PathFault::Memory) => return Err(AllocError),
    };
    let project = Arc::try_clone(project)?;
    let mut searcher = Searcher::for_node(alloc, &root)?;
    let search = Search::new(alloc, project, root)?;
    search_from(alloc, search, &mut searcher, takes)
}
