//! What a step does to the open nodes and the trail together.

ghost use Rattle.book.specs.Steps.{IsShorterFound};
ghost use Rattle.std.specs.Prelude.{◌≡◌, ◌+◌, ◌^◌, ◌<◌, [], length, IfOk, OnOk, OnErr, IfSome, option_map};
ghost use Rattle.book.specs.Sound.{AreNamedBelow, note_cut};
ghost use Rattle.book.specs.OpenNodes.{InsertsChildren};
ghost use Rattle.search_log.specs.Recording.{checked_in, MayNote};
ghost use Rattle.search_log.specs.SearchLog.{with_entries};

use crate::open_nodes::OpenNodes;
use branching::{Report, is_below};
use search_log::{NodeEnding, SearchLog};
use std::alloc::AllocError;

/// The makespan of what a report found, where that is below the limit.
pub(crate) fn shorter_found(report: &Report, limit: Option<i64>) -> Option<i64>
    ensures { IsShorterFound report.now.found limit result }
{
    let length = report.found()?.makespan();
    if is_below(length, limit) {
        return Some(length);
    }
    None
}

/// Takes out all nodes, and ends them as cut.
fn cut_all(nodes: &mut OpenNodes, trail: &mut SearchLog)
    ensures nodes { nodes.new ≡ [] }
    ensures trail { trail.new ≡ with_entries (note_cut nodes.old) trail.old }
{
    while let Some((held, _)) = nodes.pop_first() {
        trail.end(held.name, NodeEnding::Cut);
    }
}

/// Takes out all nodes, and ends them as cut where a trail is kept. It takes no memory.
pub(crate) fn clear_open(nodes: &mut OpenNodes, trail: &mut Option<SearchLog>)
    ensures nodes { nodes.new ≡ [] }
    ensures trail { trail.new ≡ option_map (with_entries (note_cut nodes.old)) trail.old }
{
    match trail {
        Some(trail) => cut_all(nodes, trail),
        None => nodes.clear(),
    }
}

/// Notes a report on the node under a name where a trail is kept. Where memory runs out, nothing changes.
pub(crate) fn note_report(
    trail: &mut Option<SearchLog>,
    name: u64,
    limit: Option<i64>,
    report: &Report,
) -> Result<(), AllocError>
    requires known { IfSome trail.old (MayNote name report.now) }
    ensures ok { OnOk result (trail.new ≡ option_map (with_entries (checked_in limit name report.now)) trail.old) }
    ensures err { OnErr result (trail.new ≡ trail.old) }
{
    match trail {
        Some(trail) => trail.check_in(name, limit, report),
        None => Ok(()),
    }
}

/// Opens the children of a report that are below the limit, under the names from the first on, and notes the report. Where
/// memory runs out, nothing changes.
pub(crate) fn open_children(
    nodes: &mut OpenNodes,
    trail: &mut Option<SearchLog>,
    name: u64,
    first: u64,
    limit: Option<i64>,
    report: &Report,
) -> Result<u64, AllocError>
    requires older { AreNamedBelow first nodes.old }
    requires names { first + length report.now.children < 2 ^ 64 }
    requires known { IfSome trail.old (λ trail. (name < length trail.entries) × (length trail.entries ≡ first)) }
    ensures opened { IfOk result (λ count. InsertsChildren first limit report.now.children count nodes.old nodes.new) }
    ensures noted { OnOk result (trail.new ≡ option_map (with_entries (checked_in limit name report.now)) trail.old) }
    ensures err { OnErr result ((nodes.new ≡ nodes.old) × (trail.new ≡ trail.old)) }
{
    let opened = nodes.insert_children(report.children(), limit, first)?;
    if note_report(trail, name, limit, report).is_err() {
        nodes.keep_older(first);
        return Err(AllocError);
    }
    Ok(opened)
}
