//! The lines of a lemma by other slots.

use lemma_log::Lines;
use lemma_proof::{Intervals, Line, WindowOverload};
use record_text::Members;
use std::alloc::{AllocError, Global};

/// A copy of an overload.
fn over_copy(alloc: Global, over: &WindowOverload) -> Result<WindowOverload, AllocError> {
    Ok(match over {
        WindowOverload::Load { resource, from, to } => WindowOverload::Load {
            resource: *resource,
            from: *from,
            to: *to,
        },
        WindowOverload::Clique { from, to, members } => WindowOverload::Clique {
            from: *from,
            to: *to,
            members: Members::new(members.as_slice().to_vec(alloc)?),
        },
        WindowOverload::Tour {
            from,
            to,
            intervals,
        } => WindowOverload::Tour {
            from: *from,
            to: *to,
            intervals: Intervals::new(intervals.as_slice().to_vec(alloc)?),
        },
    })
}

/// A copy of lines, in which each line `use` has the next of these slots. One that has none goes: it was not looked at.
pub(crate) fn with_slots(
    alloc: Global,
    lines: &Lines,
    slots: &[Option<usize>],
) -> Result<Lines, AllocError> {
    let mut copies = Vec::with_capacity(alloc, lines.as_slice().len())?;
    let mut slots = slots.iter();
    for line in lines.as_slice() {
        match line {
            Line::Use(_) => {
                if let Some(Some(slot)) = slots.next() {
                    copies.push(Line::Use(*slot))?;
                }
            }
            Line::Force(pair) => copies.push(Line::Force(*pair))?,
            Line::Push { arc, over } => {
                let over = over_copy(alloc, over)?;
                copies.push(Line::Push { arc: *arc, over })?;
            }
        }
    }
    Ok(Lines::new(copies))
}
