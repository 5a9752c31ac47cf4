//! Reads events.

ghost use Rattle.std.specs.Prelude.{◌≡◌, ◌≢◌, ◌<◌, ◌≤◌, ◌↔◌, length, Ok, Err, IfOk, IfErr, IsTrue};
ghost use Rattle.lemma_log.specs.declared.fault.DecodeFault.TheVariants.{Memory, Short};
ghost use Rattle.lemma_log.specs.Reading.{frame_in, whole_in, read_in};
ghost use Rattle.lemma_log.specs.Law.{IsFirst, ReadsBack};

use crate::body::{event_in, is_long};
use crate::event::Event;
use crate::fault::DecodeFault;
use crate::number::{MAX_DIGITS, digits_in};
use std::alloc::Global;

/// An event that was read, and how many bytes it has.
#[derive(Drop, Debug)]
pub struct Read {
    pub event: Event,
    pub count: usize,
}

/// The bytes of the event that bytes begin with, without the number of them, and what follows.
#[tactic(auto, unfolding(crate::specs::Reading::frame_in))]
fn frame(bytes: &[u8]) -> Result<(&[u8], &[u8]), DecodeFault>
    ensures found { IfOk result (λ r. frame_in bytes.now ≡ Ok (record { value = r.0.now; left = r.1.now })) }
    ensures shorter { IfOk result (λ r. length r.1.now < length bytes.now) }
    ensures fault { IfErr result (λ fault. frame_in bytes.now ≡ Err fault) }
{
    let (size, rest) = digits_in(bytes, MAX_DIGITS)?;
    if rest.len() < size {
        return Err(DecodeFault::Short);
    }
    Ok(rest.split_at(size))
}

/// The event whose bytes these all are, without the number of them.
fn whole(alloc: Global, body: &[u8]) -> Result<Event, DecodeFault>
    ensures found { IfOk result (λ e. whole_in body.now ≡ Ok e) }
    ensures fault { IfErr result (λ fault. fault ≢ Memory → whole_in body.now ≡ Err fault) }
{
    if is_long(body) {
        return Err(DecodeFault::Long);
    }
    match event_in(alloc, body) {
        Ok(event) => Ok(event),
        Err(DecodeFault::Memory) => Err(DecodeFault::Memory),
        Err(_) => Err(DecodeFault::Form),
    }
}

/// The event that bytes begin with, and what follows it.
fn event(alloc: Global, bytes: &[u8]) -> Result<(Event, &[u8]), DecodeFault>
    ensures found { IfOk result (λ r. read_in bytes.now ≡ Ok (record { value = r.0; left = r.1.now })) }
    ensures shorter { IfOk result (λ r. length r.1.now < length bytes.now) }
    ensures fault { IfErr result (λ fault. fault ≢ Memory → read_in bytes.now ≡ Err fault) }
{
    let (body, rest) = frame(bytes)?;
    let event = whole(alloc, body)?;
    Ok((event, rest))
}

/// Whether bytes end before the event does that they begin with. The event is not read for that.
pub fn is_cut_off(bytes: &[u8]) -> bool
    ensures { IsTrue result ↔ (read_in bytes.now ≡ Err Short) }
{
    matches!(frame(bytes), Err(DecodeFault::Short))
}

/// The event that bytes begin with, and how many bytes it has.
pub fn read_event(alloc: Global, bytes: &[u8]) -> Result<Read, DecodeFault>
    ensures back { ReadsBack bytes.now result }
    ensures first { IfOk result (IsFirst bytes.now) }
    ensures some { IfOk result (λ read. 0 < read.count) }
    ensures within { IfOk result (λ read. read.count ≤ length bytes.now) }
    ensures fault { IfErr result (λ fault. fault ≢ Memory → read_in bytes.now ≡ Err fault) }
{
    let (event, rest) = event(alloc, bytes)?;
    let count = bytes.len() - rest.len();
    Ok(Read { event, count })
}
