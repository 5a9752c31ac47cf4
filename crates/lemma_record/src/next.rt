//! The events that bytes begin with, read and taken.

ghost use Rattle.std.specs.Prelude.{◌≡◌, ◌≢◌, ◌<◌, ◌≤◌, ◌++◌, [], ℕ, List, length, Err, IfOk, OnOk, IfErr, IfSome, MatchOption};
ghost use Rattle.network.specs.Problem.{Problem};
ghost use Rattle.lemma_log.specs.declared.fault.DecodeFault.TheVariants as read_faults;
ghost use Rattle.lemma_log.specs.Law.{IsFirst};
ghost use Rattle.lemma_log.specs.Reading.{read_in};
ghost use Rattle.lemma_book.specs.Ledger.{LedgerOf};
ghost use Rattle.record_text.specs.declared.event_fault.Wrong.TheVariants.{Memory, Trailing};
ghost use Rattle.lemma_record.specs.Right.{Takes};
ghost use Rattle.lemma_record.specs.Parts.{PartOf, TakesIf, has};
ghost use Rattle.lemma_record.specs.Faults.{IsFirstFault, IsUnread, IsWrongEvent, wrong_of};
ghost use Rattle.lemma_record.specs.Reached.{HasClaimed, HasChecked, IsAt, TakesNext, checker_of, claimed};

use crate::judging::judge;
use crate::part::LogPart;
use lemma_book::Draft;
use lemma_log::{DecodeFault, Event, Read, read_event};
use network::Verdict;
use record_text::{EventFault, Wrong};
use std::alloc::Global;

/// Want of memory.
pub(crate) const NO_MEMORY: EventFault = EventFault {
    event: 0,
    wrong: Wrong::Memory,
};

/// What is wrong with an event that is not taken.
fn wrong_of(event: &Event) -> Wrong
    ensures { result ≡ wrong_of event.now }
{
    match event {
        Event::Lemma { .. } => Wrong::Lemma,
        Event::Drop { .. } => Wrong::Drop,
        Event::Schedule { .. } => Wrong::Schedule,
        Event::Claim(_) => Wrong::Claim,
    }
}

/// What an event claims.
fn claimed(event: &Event) -> Option<Verdict>
    ensures { result ≡ claimed event.now }
{
    match event {
        Event::Lemma { .. } => None,
        Event::Drop { .. } => None,
        Event::Schedule { .. } => None,
        Event::Claim(claim) => Some(*claim),
    }
}

/// Reads the event that bytes begin with, which has this number. None if they end before it does.
fn read_next(alloc: Global, bytes: &[u8], due: u64) -> Result<Option<Read>, EventFault>
    ensures found { IfOk result (λ found. MatchOption found (read_in bytes.now ≡ Err read_faults.Short) (IsFirst bytes.now)) }
    ensures some { IfOk result (λ found. IfSome found (λ read. 0 < read.count)) }
    ensures within { IfOk result (λ found. IfSome found (λ read. read.count ≤ length bytes.now)) }
    ensures fault { IfErr result (λ fault. fault.wrong ≢ Memory → (fault.event ≡ due) × IsUnread bytes.now fault.wrong) }
{
    match read_event(alloc, bytes) {
        Ok(read) => Ok(Some(read)),
        Err(DecodeFault::Short) => Ok(None),
        Err(DecodeFault::Form) => Err(EventFault {
            event: due,
            wrong: Wrong::Form,
        }),
        Err(DecodeFault::Long) => Err(EventFault {
            event: due,
            wrong: Wrong::Long,
        }),
        Err(DecodeFault::Memory) => Err(NO_MEMORY),
    }
}

/// Takes an event, which has this number: what it claims.
fn take_read(
    draft: &mut Draft<'_>,
    looks: bool,
    event: Event,
    due: u64,
) -> Result<Option<Verdict>, EventFault>
    ensures taken { IfOk result (λ claim. TakesIf looks draft.old event draft.new × (claim ≡ claimed event)) }
    ensures refused { IfErr result (λ fault. fault.wrong ≢ Memory
        → (fault ≡ record { event = due; wrong = wrong_of event }) × ((after : LedgerOf) → ¬ Takes draft.old event after)) }
{
    let wrong = wrong_of(&event);
    let claim = claimed(&event);
    if judge(draft, looks, event)? {
        Ok(claim)
    } else {
        Err(EventFault { event: due, wrong })
    }
}

/// Reads and takes the event that bytes begin with, which has this number: what it claims, and what follows it. None if
/// they end before it does.
fn take_next<'t>(
    alloc: Global,
    draft: &mut Draft<'_>,
    part: &LogPart,
    bytes: &'t [u8],
    due: u64,
) -> Result<Option<(Option<Verdict>, &'t [u8])>, EventFault>
    ensures taken { IfOk result (λ found. MatchOption found
        ((read_in bytes.now ≡ Err read_faults.Short) × (draft.new ≡ draft.old))
        (λ r. TakesNext (has part.now due) draft.old bytes.now r.0 r.1.now draft.new)) }
    ensures shorter { IfOk result (λ found. IfSome found (λ r. length r.1.now < length bytes.now)) }
    ensures wrong { IfErr result (λ fault. fault.wrong ≢ Memory
        → (fault.event ≡ due) × IsWrongEvent draft.old bytes.now fault.wrong) }
{
    let Some(read) = read_next(alloc, bytes, due)? else {
        return Ok(None);
    };
    let count = read.count;
    let claim = take_read(draft, part.has(due), read.event, due)?;
    Ok(Some((claim, &bytes[count..])))
}

/// That nothing comes after the claim, where this number is due.
pub(crate) fn nothing_after(bytes: &[u8], due: u64) -> Result<(), EventFault>
    ensures none { OnOk result (bytes.now ≡ []) }
    ensures fault { IfErr result (λ fault. (bytes.now ≢ []) × (fault ≡ record { event = due; wrong = Trailing })) }
{
    if bytes.is_empty() {
        Ok(())
    } else {
        Err(EventFault {
            event: due,
            wrong: Wrong::Trailing,
        })
    }
}

/// Where the reading of events ended.
#[derive(Drop)]
pub(crate) struct ReadEnd<'t> {
    /// The bytes that are left.
    pub(crate) left: &'t [u8],
    /// The number of the event that would be next.
    pub(crate) due: u64,
    /// What was claimed, if a claim came.
    pub(crate) proved: Option<Verdict>,
}

/// That a claim, after which this number is due, is the end of the bytes.
fn ended<'t>(left: &'t [u8], due: u64, proved: Verdict) -> Result<ReadEnd<'t>, EventFault>
    ensures read { IfOk result (λ stop. (part : PartOf) (p : Problem) (text : List ℕ) (l : LedgerOf)
        → HasClaimed part p text left.now proved due
        → HasChecked p text (checker_of part l stop.left.now stop.due stop.proved)) }
    ensures fault { IfErr result (λ fault. (part : PartOf) (p : Problem) (text more : List ℕ)
        → HasClaimed part p text left.now proved due → IsFirstFault part p (text ++ more) fault) }
{
    nothing_after(left, due)?;
    Ok(ReadEnd {
        left,
        due,
        proved: Some(proved),
    })
}

/// Reads and takes events, of which the first has this number, up to a claim or as far as they are whole.
pub(crate) fn take_whole<'t>(
    alloc: Global,
    draft: &mut Draft<'_>,
    part: &LogPart,
    bytes: &'t [u8],
    due: u64,
) -> Result<ReadEnd<'t>, EventFault>
    ensures read { IfOk result (λ stop. (p : Problem) (text : List ℕ) → IsAt part.now p text draft.old bytes.now due
        → HasChecked p text (checker_of part.now draft.new stop.left.now stop.due stop.proved)) }
    ensures fault { IfErr result (λ fault. fault.wrong ≢ Memory → (p : Problem) (text more : List ℕ)
        → IsAt part.now p text draft.old bytes.now due → IsFirstFault part.now p (text ++ more) fault) }
{
    let mut left = bytes;
    let mut next = due;
    while let Some((claim, rest)) = take_next(alloc, draft, part, left, next)? {
        left = rest;
        next = next.saturating_add(1);
        if let Some(proved) = claim {
            return ended(left, next, proved);
        }
    }
    Ok(ReadEnd {
        left,
        due: next,
        proved: None,
    })
}
