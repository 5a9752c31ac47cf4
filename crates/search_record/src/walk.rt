//! Writes the nodes of a trail in the order of a record.

ghost use Rattle.std.specs.Prelude.{◌≡◌, ◌<◌, ◌++◌, map, length, IfOk, OnOk};
ghost use Rattle.branching.specs.Fates.{fate_value};
ghost use Rattle.search_log.specs.SearchLog.{node_ending, trail_entry};
ghost use Rattle.record_text.specs.Tree.{lines_of};
ghost use Rattle.record_text.specs.declared.line.Line.TheVariants as kind;
ghost use Rattle.search_record.specs.TrailTree.{tree_under, ending_line, ending_fates, node_lines, fate_lines, fates_behind, IsNamed, ChildrenAreLater};

use branching::Fate;
use network::Pair;
use record_text::{Line, Members};
use search_log::{NodeEnding, NodeEntry};
use std::alloc::{AllocError, Global};

/// Adds a line for each forced pair.
fn write_forced(lines: &mut Vec<Line>, forced: &[Pair]) -> Result<(), AllocError>
    ensures { OnOk result (lines.new.items ≡ lines.old.items ++ map kind.Force forced.now) }
{
    for pair in forced {
        lines.push(Line::Force(*pair))?;
    }
    Ok(())
}

/// The line that a node ends with.
fn line_of(alloc: Global, ending: &NodeEnding) -> Result<Line, AllocError>
    ensures { IfOk result (λ line. line ≡ ending_line (node_ending ending.now)) }
{
    match ending {
        NodeEnding::Open => Ok(Line::Dead),
        NodeEnding::Cut => Ok(Line::Cut),
        NodeEnding::Solved => Ok(Line::Solved),
        NodeEnding::Split {
            resource,
            members,
            ..
        } => {
            let members = Vec::from_slice(alloc, members.as_slice())?;
            Ok(Line::Split {
                resource: *resource,
                members: Members::new(members),
            })
        }
    }
}

/// The fates of a split's pairs, none of a leaf.
fn fates_of(ending: &NodeEnding) -> &[Fate<u64>]
    ensures { map fate_value result.now ≡ ending_fates (node_ending ending.now) }
{
    match ending {
        NodeEnding::Split { fates, .. } => fates,
        NodeEnding::Open | NodeEnding::Cut | NodeEnding::Solved => &[],
    }
}

/// Adds the lines of a node: its forced pairs, and the line that it ends with.
fn write_node(lines: &mut Vec<Line>, forced: &[Pair], last: Line) -> Result<(), AllocError>
    ensures { OnOk result (lines.new.items ≡ lines.old.items ++ node_lines forced.now last) }
{
    write_forced(lines, forced)?;
    lines.push(last)?;
    Ok(())
}

/// Adds the lines of a pair's own node, and answers the fates of the nodes below it, whose lines come next.
fn write_child<'a>(
    alloc: Global,
    lines: &mut Vec<Line>,
    entries: &'a [NodeEntry],
    child: &Fate<u64>,
) -> Result<&'a [Fate<u64>], AllocError>
    requires { IsNamed (length entries.now) (fate_value child.now) }
    ensures lines { OnOk result (lines.new.items
        ≡ lines.old.items ++ fate_lines (map trail_entry entries.now) (fate_value child.now)) }
    ensures behind { IfOk result (λ fates. map fate_value fates.now
        ≡ fates_behind (map trail_entry entries.now) (fate_value child.now)) }
{
    match child {
        Fate::Child(name) => {
            let entry = &entries[*name as usize];
            let last = line_of(alloc, &entry.ending)?;
            write_node(lines, &entry.forced, last)?;
            Ok(fates_of(&entry.ending))
        }
        Fate::Infeasible { forced } => {
            write_node(lines, forced, Line::Dead)?;
            Ok(&[])
        }
        Fate::Cut { forced } => {
            write_node(lines, forced, Line::Cut)?;
            Ok(&[])
        }
    }
}

/// The lines of the tree under the first name. The stack has the fates that are left of each split. So it looks at no
/// node twice, however deep the tree is.
fn tree_lines(alloc: Global, entries: &[NodeEntry]) -> Result<Vec<Line>, AllocError>
    requires some { 0 < length entries.now }
    requires later { ChildrenAreLater (map trail_entry entries.now) }
    ensures { IfOk result (λ lines. lines.items ≡ lines_of (tree_under (map trail_entry entries.now) 0)) }
{
    let root = [Fate::Child(0)];
    let mut splits = Vec::new(alloc);
    splits.push(root.as_slice())?;
    let mut lines = Vec::new(alloc);
    while let Some(fates) = splits.pop() {
        if let Some((child, others)) = fates.split_first() {
            splits.push(others)?;
            let behind = write_child(alloc, &mut lines, entries, child)?;
            splits.push(behind)?;
        }
    }
    Ok(lines)
}

/// The lines of the tree of a trail: `dead` alone where no node was opened.
pub(crate) fn trail_lines(alloc: Global, entries: &[NodeEntry]) -> Result<Vec<Line>, AllocError>
    requires { ChildrenAreLater (map trail_entry entries.now) }
    ensures { IfOk result (λ lines. lines.items ≡ lines_of (tree_under (map trail_entry entries.now) 0)) }
{
    if entries.is_empty() {
        return Ok(vec![in alloc; Line::Dead]?);
    }
    tree_lines(alloc, entries)
}
