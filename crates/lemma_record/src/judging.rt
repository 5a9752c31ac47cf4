//! What an event makes of a draft, whether the lines of a lemma are looked at or not.

ghost use Rattle.std.specs.Prelude.{◌≡◌, IfOk};
ghost use Rattle.lemma_log.specs.declared.event.Event.TheVariants as events;
ghost use Rattle.lemma_record.specs.Taking.{Judges};

use lemma_book::Draft;
use lemma_log::Event;
use lemma_proof::{Lags, Line};
use std::alloc::AllocError;

/// Takes a lemma, if it may be taken.
fn judge_lemma(
    draft: &mut Draft<'_>,
    looks: bool,
    slot: usize,
    arcs: Lags,
    lines: &[Line],
) -> Result<bool, AllocError>
    ensures { IfOk result (λ is. Judges looks draft.old (events.Lemma slot arcs lines.now) is draft.new) }
{
    let may = if looks {
        draft.may_take(slot, arcs.as_slice(), lines)?.is_some()
    } else {
        draft.may_keep(slot, arcs.as_slice())
    };
    if may {
        draft.keep(slot, arcs)?;
    }
    Ok(may)
}

/// Takes an event, if it may be taken. Whether it may.
pub(crate) fn judge(draft: &mut Draft<'_>, looks: bool, event: Event) -> Result<bool, AllocError>
    ensures { IfOk result (λ is. Judges looks draft.old event is draft.new) }
{
    match event {
        Event::Lemma { slot, arcs, lines } => {
            judge_lemma(draft, looks, slot, arcs, lines.as_slice())
        }
        Event::Drop { slot } => Ok(draft.let_go(slot)),
        Event::Schedule { starts } => draft.schedule(starts),
        Event::Claim(claim) => Ok(draft.claim() == claim),
    }
}
