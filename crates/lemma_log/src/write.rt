//! Writes events.

ghost use Rattle.std.specs.Prelude.{◌≡◌, ◌<◌, ◌^◌, ◌++◌, length, IfOk, OnOk, OnErr};
ghost use Rattle.lemma_log.specs.Text.{claim_text, body_text, event_text};

use crate::event::Event;
use crate::line::put_lines;
use crate::lists::{put_arcs, put_starts};
use crate::number::put_number;
use crate::signed::put_signed;
use network::Verdict;
use std::alloc::{AllocError, Global};

/// Writes what is proved.
fn put_claim(bytes: &mut Vec<u8>, claim: &Verdict) -> Result<(), AllocError>
    ensures { OnOk result (bytes.new.items ≡ bytes.old.items ++ claim_text claim.now) }
{
    match claim {
        Verdict::Optimal { makespan } => {
            put_number(bytes, 3)?;
            put_signed(bytes, *makespan as i128)
        }
        Verdict::Bound { bound } => {
            put_number(bytes, 7)?;
            put_signed(bytes, *bound as i128)
        }
        Verdict::NoSchedule => put_number(bytes, 11),
    }
}

/// Writes an event without the number of its bytes.
fn put_body(bytes: &mut Vec<u8>, event: &Event) -> Result<(), AllocError>
    ensures { OnOk result (bytes.new.items ≡ bytes.old.items ++ body_text event.now) }
{
    match event {
        Event::Lemma { slot, arcs, lines } => {
            let arcs = arcs.as_slice();
            put_number(bytes, 4 * *slot as u128)?;
            put_number(bytes, arcs.len() as u128)?;
            put_arcs(bytes, arcs)?;
            put_lines(bytes, lines.as_slice())
        }
        Event::Drop { slot } => put_number(bytes, 4 * *slot as u128 + 1),
        Event::Schedule { starts } => {
            let starts = starts.as_slice();
            put_number(bytes, 4 * starts.len() as u128 + 2)?;
            put_starts(bytes, starts)
        }
        Event::Claim(claim) => put_claim(bytes, claim),
    }
}

/// The bytes of an event.
fn frame(alloc: Global, event: &Event) -> Result<Vec<u8>, AllocError>
    ensures frame { IfOk result (λ frame. frame.items ≡ event_text event.now) }
    ensures size { OnOk result (length (body_text event.now) < 2 ^ 63) }
{
    let mut body = Vec::with_capacity(alloc, 256)?;
    put_body(&mut body, event)?;
    let mut frame = Vec::with_capacity(alloc, 256)?;
    put_number(&mut frame, body.len() as u128)?;
    frame.extend_from_slice(&body)?;
    Ok(frame)
}

/// Writes an event, whatever its numbers are. Where it is writable, it is read back.
pub fn put_event(bytes: &mut Vec<u8>, event: &Event) -> Result<(), AllocError>
    ensures ok { OnOk result (bytes.new.items ≡ bytes.old.items ++ event_text event.now) }
    ensures size { OnOk result (length (body_text event.now) < 2 ^ 63) }
    ensures err { OnErr result (bytes.new.items ≡ bytes.old.items) }
{
    let frame = frame(*bytes.allocator(), event)?;
    bytes.extend_from_slice(&frame)
}
