//! What an event makes of a ledger.

ghost use Rattle.std.specs.Prelude.{◌≡◌, ◌↔◌, ◌⊎◌, IfOk, OnErr, MatchOption, IsTrue};
ghost use Rattle.lemma_log.specs.Text.{IsWritableBody};
ghost use Rattle.lemma_log.specs.declared.event.Event.TheVariants as events;
ghost use Rattle.lemma_proof.specs.Lines.{picked};
ghost use Rattle.lemma_record.specs.Taking.{IsRefused, IsTaken};

use crate::copies::{all_copied, picked};
use lemma_book::Ledger;
use lemma_log::{Event, is_writable};
use lemma_proof::{Lags, Line};
use network::{Lag, Verdict};
use record_text::Starts;
use std::alloc::{AllocError, Global};

/// What is logged of a lemma: the lines of these places, or all if those are too many for a log.
fn lemma_logged(
    alloc: Global,
    slot: usize,
    arcs: &[Lag],
    lines: &[Line],
    places: &[usize],
) -> Result<Event, AllocError>
    ensures { IfOk result (λ logged. (logged ≡ events.Lemma slot arcs.now lines.now)
        ⊎ ((logged ≡ events.Lemma slot arcs.now (picked lines.now places.now)) × IsWritableBody logged)) }
{
    let some = Event::Lemma {
        slot,
        arcs: Lags::new(arcs.to_vec(alloc)?),
        lines: picked(alloc, lines, places)?,
    };
    if is_writable(&some) {
        return Ok(some);
    }
    Ok(Event::Lemma {
        slot,
        arcs: Lags::new(arcs.to_vec(alloc)?),
        lines: all_copied(alloc, lines)?,
    })
}

/// Takes a lemma, if it may be taken.
fn take_lemma(
    alloc: Global,
    ledger: &mut Ledger<'_>,
    slot: usize,
    arcs: Lags,
    lines: &[Line],
) -> Result<Option<Event>, AllocError>
    ensures taken { IfOk result (λ found. MatchOption found
        (IsRefused ledger.old (events.Lemma slot arcs lines.now) ledger.new)
        (λ logged. IsTaken ledger.old (events.Lemma slot arcs lines.now) logged ledger.new)) }
    ensures unchanged { OnErr result (ledger.new ≡ ledger.old) }
{
    let Some(places) = ledger.may_take(slot, arcs.as_slice(), lines)? else {
        return Ok(None);
    };
    let logged = lemma_logged(alloc, slot, arcs.as_slice(), lines, &places)?;
    ledger.keep(slot, arcs)?;
    Ok(Some(logged))
}

/// Takes a drop, if there is a lemma in the slot.
fn take_drop(ledger: &mut Ledger<'_>, slot: usize) -> Option<Event>
    ensures { MatchOption result (IsRefused ledger.old (events.Drop slot) ledger.new)
        (λ logged. IsTaken ledger.old (events.Drop slot) logged ledger.new) }
{
    if ledger.let_go(slot) {
        Some(Event::Drop { slot })
    } else {
        None
    }
}

/// Takes a schedule, if it may lead.
fn take_schedule(
    alloc: Global,
    ledger: &mut Ledger<'_>,
    starts: Starts,
) -> Result<Option<Event>, AllocError>
    ensures taken { IfOk result (λ found. MatchOption found
        (IsRefused ledger.old (events.Schedule starts) ledger.new)
        (λ logged. IsTaken ledger.old (events.Schedule starts) logged ledger.new)) }
    ensures unchanged { OnErr result (ledger.new ≡ ledger.old) }
{
    let logged = Starts::new(starts.as_slice().to_vec(alloc)?);
    if !ledger.schedule(starts)? {
        return Ok(None);
    }
    Ok(Some(Event::Schedule { starts: logged }))
}

/// Takes a claim, if the ledger claims it.
fn take_claim(ledger: &Ledger<'_>, claim: Verdict) -> Option<Event>
    ensures { MatchOption result (IsRefused ledger.now (events.Claim claim) ledger.now)
        (λ logged. IsTaken ledger.now (events.Claim claim) logged ledger.now) }
{
    if ledger.claim() == claim {
        Some(Event::Claim(claim))
    } else {
        None
    }
}

/// Takes an event, if it may be taken: the event that is to be logged. Of a lemma this has only those lines that show
/// something new, and the ledger as it was takes it as well. None if the event may not be taken. Then, and where memory
/// runs out, the ledger stays as it was.
pub fn take(
    alloc: Global,
    ledger: &mut Ledger<'_>,
    event: Event,
) -> Result<Option<Event>, AllocError>
    ensures taken { IfOk result (λ found. MatchOption found (IsRefused ledger.old event ledger.new)
        (λ logged. IsTaken ledger.old event logged ledger.new)) }
    ensures unchanged { OnErr result (ledger.new ≡ ledger.old) }
{
    match event {
        Event::Lemma { slot, arcs, lines } => {
            take_lemma(alloc, ledger, slot, arcs, lines.as_slice())
        }
        Event::Drop { slot } => Ok(take_drop(ledger, slot)),
        Event::Schedule { starts } => take_schedule(alloc, ledger, starts),
        Event::Claim(claim) => Ok(take_claim(ledger, claim)),
    }
}
