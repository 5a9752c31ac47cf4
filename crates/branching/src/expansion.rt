//! The expansion of a node: a schedule, or its children.

ghost use Rattle.std.specs.Prelude.{◌≡◌, IfOk};
ghost use Rattle.std.specs.Arc.{arc_value};
ghost use Rattle.network.specs.Schedule.{IsWithinCapacities, running};
ghost use Rattle.longest_path.specs.Ends.{AreEarliest};
ghost use Rattle.profile.specs.Overloads.{IsFirstOverload};
ghost use Rattle.branching.specs.Subproblem.{IsNode, IsTiedTo};
ghost use Rattle.branching.specs.Path.{HasRoomFor};
ghost use Rattle.branching.specs.Fair.{IsReportOn, FindsNothingOver};

use crate::branches::{Branches, branches_of};
use crate::ceiling::is_below;
use crate::node::Node;
use crate::open_node::OpenNode;
use crate::pairs::put_ordered_pairs;
use crate::report::Report;
use crate::workspace::ExpansionWorkspace;
use forbidden_sets::shrink_activities;
use longest_path::{MarkedMatrix, least_starts_in};
use network::Schedule;
use profile::Overload;
use std::alloc::{AllocError, Global};
use std::mem;
use std::sync::Arc;

/// The report on a node whose least schedule overloads no resource.
fn report_found(
    alloc: Global,
    node: &Arc<OpenNode>,
    ceiling: Option<i64>,
    starts: Vec<i64>,
) -> Result<Report, AllocError>
    requires is_node { IsNode (arc_value node.now) }
    requires earliest { AreEarliest (arc_value node.now).project (arc_value node.now).pairs starts.items }
    requires within { IsWithinCapacities (arc_value node.now).project starts.items }
    ensures { IfOk result (IsReportOn (arc_value node.now) ceiling) }
{
    let project = Arc::try_clone(node.project())?;
    let node = Arc::try_clone(node)?;
    let schedule = Schedule::of(project, starts);
    let fates = Vec::new(alloc);
    let children = Vec::new(alloc);
    Ok(Report::new(node, ceiling, Some(schedule), None, fates, children))
}

/// The report on a node whose least schedule has this first overload.
fn report_split(
    alloc: Global,
    node: &Arc<OpenNode>,
    matrix: &mut MarkedMatrix,
    workspace: &mut ExpansionWorkspace,
    ceiling: Option<i64>,
    starts: &[i64],
    overload: Overload,
) -> Result<Report, AllocError>
    requires tied { IsTiedTo (arc_value node.now) matrix.old.rows }
    requires room { HasRoomFor (arc_value node.now).project workspace.old }
    requires earliest { AreEarliest (arc_value node.now).project (arc_value node.now).pairs starts.now }
    requires first { IsFirstOverload (arc_value node.now).project starts.now overload.time overload.resource }
    requires running { workspace.old.overloads.running ≡ running (arc_value node.now).project starts.now overload.time }
    ensures unchanged { matrix.new ≡ matrix.old }
    ensures room { HasRoomFor (arc_value node.now).project workspace.new }
    ensures report { IfOk result (IsReportOn (arc_value node.now) ceiling) }
{
    let running = workspace.overloads.running();
    let set = shrink_activities(alloc, node.project(), overload.resource, running)?;
    put_ordered_pairs(&mut workspace.pairs, set.members())?;
    let lists = mem::replace(&mut workspace.made, Branches::new(alloc));
    let bounds = &mut workspace.bounds;
    let pairs = workspace.pairs.as_slice();
    let made = branches_of(alloc, node, matrix, bounds, ceiling, pairs, lists)?;
    let node = Arc::try_clone(node)?;
    Ok(Report::new(node, ceiling, None, Some(set), made.fates, made.children))
}

/// What a node gives below a ceiling, by the matrix of its project and pairs. The matrix stays as it was.
pub(crate) fn expand_by(
    alloc: Global,
    node: &Arc<OpenNode>,
    matrix: &mut MarkedMatrix,
    workspace: &mut ExpansionWorkspace,
    ceiling: Option<i64>,
) -> Result<Report, AllocError>
    requires tied { IsTiedTo (arc_value node.now) matrix.old.rows }
    requires room { HasRoomFor (arc_value node.now).project workspace.old }
    ensures unchanged { matrix.new ≡ matrix.old }
    ensures room { HasRoomFor (arc_value node.now).project workspace.new }
    ensures report { IfOk result (IsReportOn (arc_value node.now) ceiling) }
    ensures over { IfOk result (FindsNothingOver (arc_value node.now) ceiling) }
{
    if !is_below(node.bound(), ceiling) {
        let node = Arc::try_clone(node)?;
        let fates = Vec::new(alloc);
        let children = Vec::new(alloc);
        return Ok(Report::new(node, ceiling, None, None, fates, children));
    }
    let list = mem::replace(&mut workspace.starts, Vec::new(alloc));
    let starts = least_starts_in(list, matrix.matrix())?;
    match workspace.overloads.first(node.project(), starts.as_slice()) {
        Some(overload) => {
            let least = starts.as_slice();
            let report = report_split(alloc, node, matrix, workspace, ceiling, least, overload);
            workspace.starts = starts;
            report
        }
        None => report_found(alloc, node, ceiling, starts),
    }
}

/// What a node gives below a ceiling. The ceiling is a makespan in periods, or none.
///
/// If the node's bound is at least the ceiling: nothing. If the node's least schedule overloads no resource: that
/// schedule. Otherwise a child for each ordered pair of a minimal forbidden set of the activities that run at the first
/// overload. Pairs that no schedule keeps give none, nor do children whose bound is at least the ceiling. In a feasible
/// schedule the members can't all run at the greatest of their starts, so it keeps one of the pairs.
///
/// A child also gets the pairs that immediate selection forces (after Carlier and Pinson 1989). Of two activities that
/// can't run at the same time, one goes first if the other can't. The least such pair, by its first activity and then
/// its second, is added until there is none.
pub fn expand(alloc: Global, node: &Arc<Node>, ceiling: Option<i64>) -> Result<Report, AllocError>
    ensures report { IfOk result (IsReportOn (arc_value node.now) ceiling) }
    ensures over { IfOk result (FindsNothingOver (arc_value node.now) ceiling) }
{
    let matrix = node.matrix().try_copy(alloc)?;
    let mut matrix = MarkedMatrix::new(alloc, matrix);
    let mut workspace = ExpansionWorkspace::new(alloc, node.open_node().project())?;
    expand_by(
        alloc,
        node.open_node(),
        &mut matrix,
        &mut workspace,
        ceiling,
    )
}
