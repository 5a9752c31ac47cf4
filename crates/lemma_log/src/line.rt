//! Lines as bytes.

ghost use Rattle.std.specs.Prelude.{◌≡◌, ◌≢◌, ◌≤◌, ◌<◌, ◌++◌, length, Some, None, IfOk, OnOk, OnErr, IfErr};
ghost use Rattle.std.specs.List.{flat_map};
ghost use Rattle.lemma_log.specs.declared.fault.DecodeFault.TheVariants.{Memory};
ghost use Rattle.lemma_log.specs.Text.{line_text};
ghost use Rattle.lemma_log.specs.Reading.{force_of, pushed, push_of, flagged, tour_of, line_of, line_in, lines_in};

use crate::arc::{arc, put_arc};
use crate::event::Lines;
use crate::fault::DecodeFault;
use crate::number::{number, put_number};
use crate::overload::{flagged_tour, overload_of, put_overload};
use lemma_proof::{Line, WindowOverload};
use network::{Lag, Pair};
use std::alloc::{AllocError, Global};

/// Writes the line of an overload.
fn put_push(bytes: &mut Vec<u8>, arc: &Option<Lag>, over: &WindowOverload) -> Result<(), AllocError>
    ensures { OnOk result (bytes.new.items ≡ bytes.old.items ++ line_text (Line.Push arc.now over.now)) }
{
    match arc {
        None => put_overload(bytes, false, over),
        Some(arc) => {
            put_overload(bytes, true, over)?;
            put_arc(bytes, *arc)
        }
    }
}

/// Writes a line.
fn put_line(bytes: &mut Vec<u8>, line: &Line) -> Result<(), AllocError>
    ensures { OnOk result (bytes.new.items ≡ bytes.old.items ++ line_text line.now) }
{
    match line {
        Line::Use(slot) => put_number(bytes, 8 * *slot as u128),
        Line::Force(pair) => {
            put_number(bytes, 8 * pair.before as u128 + 1)?;
            put_number(bytes, pair.after as u128)
        }
        Line::Push { arc, over } => put_push(bytes, arc, over),
    }
}

/// Writes lines.
pub(crate) fn put_lines(bytes: &mut Vec<u8>, lines: &[Line]) -> Result<(), AllocError>
    ensures { OnOk result (bytes.new.items ≡ bytes.old.items ++ flat_map line_text lines.now) }
{
    for line in lines {
        put_line(bytes, line)?;
    }
    Ok(())
}

/// The line of a forced pair whose second bytes begin with, and what follows it.
fn force_of(before: usize, bytes: &[u8]) -> Result<(Line, &[u8]), DecodeFault>
    ensures found { IfOk result (λ r. force_of before bytes.now ≡ Some (record { value = r.0; left = r.1.now })) }
    ensures shorter { IfOk result (λ r. length r.1.now < length bytes.now) }
    ensures fault { OnErr result (force_of before bytes.now ≡ None) }
{
    let (after, rest) = number(bytes)?;
    Ok((Line::Force(Pair { before, after }), rest))
}

/// The line of an overload, with the arc that bytes begin with where the kind has one, and what follows it.
fn pushed(kind: usize, over: WindowOverload, bytes: &[u8]) -> Result<(Line, &[u8]), DecodeFault>
    ensures found { IfOk result (λ r. pushed kind over bytes.now ≡ Some (record { value = r.0; left = r.1.now })) }
    ensures shorter { IfOk result (λ r. length r.1.now ≤ length bytes.now) }
    ensures fault { OnErr result (pushed kind over bytes.now ≡ None) }
{
    if kind == 2 || kind == 5 {
        return Ok((Line::Push { arc: None, over }, bytes));
    }
    let (arc, rest) = arc(bytes)?;
    let line = Line::Push {
        arc: Some(arc),
        over,
    };
    Ok((line, rest))
}

/// The line of an overload of a kind, and of the number that has it, and what follows it.
fn push_of(
    alloc: Global,
    kind: usize,
    at: usize,
    bytes: &[u8],
) -> Result<(Line, &[u8]), DecodeFault>
    ensures found { IfOk result (λ r. push_of kind at bytes.now ≡ Some (record { value = r.0; left = r.1.now })) }
    ensures shorter { IfOk result (λ r. length r.1.now < length bytes.now) }
    ensures fault { IfErr result (λ fault. fault ≢ Memory → push_of kind at bytes.now ≡ None) }
{
    let (over, rest) = overload_of(alloc, kind, at, bytes)?;
    pushed(kind, over, rest)
}

/// The line of a tour, with the arc that bytes begin with where the flag says that it shows one, and what follows it.
fn flagged(flag: usize, tour: WindowOverload, bytes: &[u8]) -> Result<(Line, &[u8]), DecodeFault>
    ensures found { IfOk result (λ r. flagged flag tour bytes.now ≡ Some (record { value = r.0; left = r.1.now })) }
    ensures shorter { IfOk result (λ r. length r.1.now ≤ length bytes.now) }
    ensures fault { OnErr result (flagged flag tour bytes.now ≡ None) }
{
    match flag {
        0 => pushed(5, tour, bytes),
        1 => pushed(6, tour, bytes),
        _ => Err(DecodeFault::Form),
    }
}

/// The line of a tour of so many intervals, and what follows it.
fn tour_of(alloc: Global, count: usize, bytes: &[u8]) -> Result<(Line, &[u8]), DecodeFault>
    ensures found { IfOk result (λ r. tour_of count bytes.now ≡ Some (record { value = r.0; left = r.1.now })) }
    ensures shorter { IfOk result (λ r. length r.1.now < length bytes.now) }
    ensures fault { IfErr result (λ fault. fault ≢ Memory → tour_of count bytes.now ≡ None) }
{
    let (flag, tour, rest) = flagged_tour(alloc, count, bytes)?;
    flagged(flag, tour, rest)
}

/// The line of a kind, and of the number that has it, and what follows it.
fn line_of(
    alloc: Global,
    kind: usize,
    at: usize,
    bytes: &[u8],
) -> Result<(Line, &[u8]), DecodeFault>
    ensures found { IfOk result (λ r. line_of kind at bytes.now ≡ Some (record { value = r.0; left = r.1.now })) }
    ensures shorter { IfOk result (λ r. length r.1.now ≤ length bytes.now) }
    ensures fault { IfErr result (λ fault. fault ≢ Memory → line_of kind at bytes.now ≡ None) }
{
    match kind {
        0 => Ok((Line::Use(at), bytes)),
        1 => force_of(at, bytes),
        7 => tour_of(alloc, at, bytes),
        _ => push_of(alloc, kind, at, bytes),
    }
}

/// The line that bytes begin with, and what follows it.
#[tactic(auto, unfolding(crate::specs::Reading::line_in))]
fn line(alloc: Global, bytes: &[u8]) -> Result<(Line, &[u8]), DecodeFault>
    ensures found { IfOk result (λ r. line_in bytes.now ≡ Some (record { value = r.0; left = r.1.now })) }
    ensures shorter { IfOk result (λ r. length r.1.now < length bytes.now) }
    ensures fault { IfErr result (λ fault. fault ≢ Memory → line_in bytes.now ≡ None) }
{
    let (first, rest) = number(bytes)?;
    line_of(alloc, first % 8, first / 8, rest)
}

/// The lines that bytes are.
pub(crate) fn lines(alloc: Global, bytes: &[u8]) -> Result<Lines, DecodeFault>
    ensures found { IfOk result (λ lines. lines_in (length bytes.now) bytes.now ≡ Some lines) }
    ensures fault { IfErr result (λ fault. fault ≢ Memory → lines_in (length bytes.now) bytes.now ≡ None) }
{
    let mut found = Vec::new(alloc);
    let mut left = bytes;
    while !left.is_empty() {
        let (line, rest) = line(alloc, left)?;
        found.push(line)?;
        left = rest;
    }
    Ok(Lines::new(found))
}
