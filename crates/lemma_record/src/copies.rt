//! Copies of lines.

ghost use Rattle.std.specs.Prelude.{◌≡◌, ◌++◌, IfOk, OnOk, slice_get};
ghost use Rattle.std.specs.Option.{option_to_list};
ghost use Rattle.lemma_proof.specs.Lines.{picked};

use lemma_log::Lines;
use lemma_proof::{Intervals, Line, WindowOverload};
use record_text::Members;
use std::alloc::{AllocError, Global};

/// A copy of an overload.
fn over_copy(alloc: Global, over: &WindowOverload) -> Result<WindowOverload, AllocError>
    ensures { IfOk result (λ copy. copy ≡ over.now) }
{
    match over {
        WindowOverload::Load { resource, from, to } => Ok(WindowOverload::Load {
            resource: *resource,
            from: *from,
            to: *to,
        }),
        WindowOverload::Clique { from, to, members } => {
            let members = members.as_slice().to_vec(alloc)?;
            Ok(WindowOverload::Clique {
                from: *from,
                to: *to,
                members: Members::new(members),
            })
        }
        WindowOverload::Tour {
            from,
            to,
            intervals,
        } => {
            let intervals = intervals.as_slice().to_vec(alloc)?;
            Ok(WindowOverload::Tour {
                from: *from,
                to: *to,
                intervals: Intervals::new(intervals),
            })
        }
    }
}

/// A copy of a line.
fn line_copy(alloc: Global, line: &Line) -> Result<Line, AllocError>
    ensures { IfOk result (λ copy. copy ≡ line.now) }
{
    match line {
        Line::Use(slot) => Ok(Line::Use(*slot)),
        Line::Force(pair) => Ok(Line::Force(*pair)),
        Line::Push { arc, over } => {
            let over = over_copy(alloc, over)?;
            Ok(Line::Push { arc: *arc, over })
        }
    }
}

/// Adds a copy of the line of a place, if there is one.
fn put_copy(
    alloc: Global,
    copies: &mut Vec<Line>,
    lines: &[Line],
    place: usize,
) -> Result<(), AllocError>
    ensures { OnOk result (copies.new.items ≡ copies.old.items ++ option_to_list (slice_get lines.now place)) }
{
    let Some(line) = lines.get(place) else {
        return Ok(());
    };
    copies.push(line_copy(alloc, line)?)?;
    Ok(())
}

/// Copies of the lines of these places.
#[tactic(auto, using(crate::proofs::Picking::picked_next))]
pub(crate) fn picked(alloc: Global, lines: &[Line], places: &[usize]) -> Result<Lines, AllocError>
    ensures { IfOk result (λ copies. copies ≡ picked lines.now places.now) }
{
    let mut copies = Vec::with_capacity(alloc, places.len())?;
    for place in places {
        put_copy(alloc, &mut copies, lines, *place)?;
    }
    Ok(Lines::new(copies))
}

/// Copies of all lines.
pub(crate) fn all_copied(alloc: Global, lines: &[Line]) -> Result<Lines, AllocError>
    ensures { IfOk result (λ copies. copies ≡ lines.now) }
{
    let mut copies = Vec::with_capacity(alloc, lines.len())?;
    for line in lines {
        copies.push(line_copy(alloc, line)?)?;
    }
    Ok(Lines::new(copies))
}
