//! Reads an event whose bytes are known to be all there.

ghost use Rattle.std.specs.Prelude.{◌≡◌, ◌≢◌, Some, None, IfOk, OnErr, IfErr};
ghost use Rattle.lemma_log.specs.declared.fault.DecodeFault.TheVariants.{Memory};
ghost use Rattle.lemma_log.specs.Reading.{last, lemma_lines, lemma_of, schedule_of, optimal_of, bound_of, claim_of, event_of, is_long, event_in};

use crate::event::Event;
use crate::fault::DecodeFault;
use crate::line::lines;
use crate::lists::{arcs, starts};
use crate::number::number;
use crate::signed::signed;
use crate::writable::{MAX_ARCS, MAX_BYTES};
use lemma_proof::Lags;
use network::Verdict;
use std::alloc::Global;

/// An event, where nothing is left after it.
fn last(event: Event, bytes: &[u8]) -> Result<Event, DecodeFault>
    ensures found { IfOk result (λ e. last event bytes.now ≡ Some e) }
    ensures fault { OnErr result (last event bytes.now ≡ None) }
{
    if bytes.is_empty() {
        Ok(event)
    } else {
        Err(DecodeFault::Form)
    }
}

/// The lemma of a slot and of arcs whose lines bytes are.
fn lemma_lines(alloc: Global, slot: usize, arcs: Lags, bytes: &[u8]) -> Result<Event, DecodeFault>
    ensures found { IfOk result (λ e. lemma_lines slot arcs bytes.now ≡ Some e) }
    ensures fault { IfErr result (λ fault. fault ≢ Memory → lemma_lines slot arcs bytes.now ≡ None) }
{
    let lines = lines(alloc, bytes)?;
    Ok(Event::Lemma { slot, arcs, lines })
}

/// The lemma of a slot whose arcs and lines bytes are.
fn lemma_of(alloc: Global, slot: usize, bytes: &[u8]) -> Result<Event, DecodeFault>
    ensures found { IfOk result (λ e. lemma_of slot bytes.now ≡ Some e) }
    ensures fault { IfErr result (λ fault. fault ≢ Memory → lemma_of slot bytes.now ≡ None) }
{
    let (count, rest) = number(bytes)?;
    let (arcs, rest) = arcs(alloc, count, rest)?;
    lemma_lines(alloc, slot, arcs, rest)
}

/// The schedule whose starts bytes are.
fn schedule_of(alloc: Global, count: usize, bytes: &[u8]) -> Result<Event, DecodeFault>
    ensures found { IfOk result (λ e. schedule_of count bytes.now ≡ Some e) }
    ensures fault { IfErr result (λ fault. fault ≢ Memory → schedule_of count bytes.now ≡ None) }
{
    let (starts, rest) = starts(alloc, count, bytes)?;
    last(Event::Schedule { starts }, rest)
}

/// The claim of a makespan that bytes are.
fn optimal_of(bytes: &[u8]) -> Result<Event, DecodeFault>
    ensures found { IfOk result (λ e. optimal_of bytes.now ≡ Some e) }
    ensures fault { OnErr result (optimal_of bytes.now ≡ None) }
{
    let (makespan, rest) = signed(bytes)?;
    last(Event::Claim(Verdict::Optimal { makespan }), rest)
}

/// The claim of a bound that bytes are.
fn bound_of(bytes: &[u8]) -> Result<Event, DecodeFault>
    ensures found { IfOk result (λ e. bound_of bytes.now ≡ Some e) }
    ensures fault { OnErr result (bound_of bytes.now ≡ None) }
{
    let (bound, rest) = signed(bytes)?;
    last(Event::Claim(Verdict::Bound { bound }), rest)
}

/// The claim of a number, and of the bytes after it.
fn claim_of(at: usize, bytes: &[u8]) -> Result<Event, DecodeFault>
    ensures found { IfOk result (λ e. claim_of at bytes.now ≡ Some e) }
    ensures fault { OnErr result (claim_of at bytes.now ≡ None) }
{
    match at {
        0 => optimal_of(bytes),
        1 => bound_of(bytes),
        2 => last(Event::Claim(Verdict::NoSchedule), bytes),
        _ => Err(DecodeFault::Form),
    }
}

/// The event of a kind, of the number that has it, and of the bytes after it.
fn event_of(alloc: Global, kind: usize, at: usize, bytes: &[u8]) -> Result<Event, DecodeFault>
    ensures found { IfOk result (λ e. event_of kind at bytes.now ≡ Some e) }
    ensures fault { IfErr result (λ fault. fault ≢ Memory → event_of kind at bytes.now ≡ None) }
{
    match kind {
        0 => lemma_of(alloc, at, bytes),
        1 => last(Event::Drop { slot: at }, bytes),
        2 => schedule_of(alloc, at, bytes),
        _ => claim_of(at, bytes),
    }
}

/// Whether these bytes of an event, without the number of them, are those of a lemma, and more than it may have, or say
/// that it has more arcs than it may have. Neither these nor its lines are read for that.
#[tactic(auto, unfolding(crate::specs::Reading::is_long))]
pub(crate) fn is_long(bytes: &[u8]) -> bool
    ensures { result ≡ is_long bytes.now }
{
    let Ok((first, rest)) = number(bytes) else {
        return false;
    };
    if first % 4 != 0 {
        return false;
    }
    if MAX_BYTES < bytes.len() {
        return true;
    }
    match number(rest) {
        Ok((count, _)) => MAX_ARCS < count,
        Err(_) => false,
    }
}

/// The event whose bytes these are, without the number of them.
#[tactic(auto, unfolding(crate::specs::Reading::event_in))]
pub(crate) fn event_in(alloc: Global, bytes: &[u8]) -> Result<Event, DecodeFault>
    ensures found { IfOk result (λ e. event_in bytes.now ≡ Some e) }
    ensures fault { IfErr result (λ fault. fault ≢ Memory → event_in bytes.now ≡ None) }
{
    let (first, rest) = number(bytes)?;
    event_of(alloc, first % 4, first / 4, rest)
}
