//! Arcs as bytes.

ghost use Rattle.std.specs.Prelude.{◌≡◌, ◌<◌, ◌++◌, length, Some, None, IfOk, OnOk, OnErr};
ghost use Rattle.lemma_log.specs.Text.{arc_text};
ghost use Rattle.lemma_log.specs.Reading.{weighted, arc_back, arc_between, arc_of, arc_in};

use crate::fault::DecodeFault;
use crate::number::{number, put_number};
use crate::signed::{put_signed, signed};
use network::Lag;
use std::alloc::AllocError;

/// Writes an arc.
pub(crate) fn put_arc(bytes: &mut Vec<u8>, arc: Lag) -> Result<(), AllocError>
    ensures { OnOk result (bytes.new.items ≡ bytes.old.items ++ arc_text arc) }
{
    if arc.from == 0 {
        put_number(bytes, 3 * arc.to as u128)?;
        return put_signed(bytes, arc.weight as i128);
    }
    if arc.to == 0 {
        put_number(bytes, 3 * arc.from as u128 + 1)?;
        return put_signed(bytes, -(arc.weight as i128));
    }
    put_number(bytes, 3 * arc.from as u128 + 2)?;
    put_number(bytes, arc.to as u128)?;
    put_signed(bytes, arc.weight as i128)
}

/// The arc between these whose weight bytes begin with, and what follows it.
fn weighted(from: usize, to: usize, bytes: &[u8]) -> Result<(Lag, &[u8]), DecodeFault>
    ensures found { IfOk result (λ r. weighted from to bytes.now ≡ Some (record { value = r.0; left = r.1.now })) }
    ensures shorter { IfOk result (λ r. length r.1.now < length bytes.now) }
    ensures fault { OnErr result (weighted from to bytes.now ≡ None) }
{
    let (weight, rest) = signed(bytes)?;
    Ok((Lag { from, to, weight }, rest))
}

/// The arc to activity 0 whose weight bytes begin with, its sign turned, and what follows it.
fn arc_back(from: usize, bytes: &[u8]) -> Result<(Lag, &[u8]), DecodeFault>
    ensures found { IfOk result (λ r. arc_back from bytes.now ≡ Some (record { value = r.0; left = r.1.now })) }
    ensures shorter { IfOk result (λ r. length r.1.now < length bytes.now) }
    ensures fault { OnErr result (arc_back from bytes.now ≡ None) }
{
    let (weight, rest) = signed(bytes)?;
    let arc = Lag {
        from,
        to: 0,
        weight: -weight,
    };
    Ok((arc, rest))
}

/// The arc from an activity whose end and weight bytes begin with, and what follows it.
fn arc_between(from: usize, bytes: &[u8]) -> Result<(Lag, &[u8]), DecodeFault>
    ensures found { IfOk result (λ r. arc_between from bytes.now ≡ Some (record { value = r.0; left = r.1.now })) }
    ensures shorter { IfOk result (λ r. length r.1.now < length bytes.now) }
    ensures fault { OnErr result (arc_between from bytes.now ≡ None) }
{
    let (to, rest) = number(bytes)?;
    weighted(from, to, rest)
}

/// The arc of a kind, and of the number that has it, and what follows it.
fn arc_of(kind: usize, at: usize, bytes: &[u8]) -> Result<(Lag, &[u8]), DecodeFault>
    ensures found { IfOk result (λ r. arc_of kind at bytes.now ≡ Some (record { value = r.0; left = r.1.now })) }
    ensures shorter { IfOk result (λ r. length r.1.now < length bytes.now) }
    ensures fault { OnErr result (arc_of kind at bytes.now ≡ None) }
{
    match kind {
        0 => weighted(0, at, bytes),
        1 => arc_back(at, bytes),
        _ => arc_between(at, bytes),
    }
}

/// The arc that bytes begin with, and what follows it.
#[tactic(auto, unfolding(crate::specs::Reading::arc_in))]
pub(crate) fn arc(bytes: &[u8]) -> Result<(Lag, &[u8]), DecodeFault>
    ensures found { IfOk result (λ r. arc_in bytes.now ≡ Some (record { value = r.0; left = r.1.now })) }
    ensures shorter { IfOk result (λ r. length r.1.now < length bytes.now) }
    ensures fault { OnErr result (arc_in bytes.now ≡ None) }
{
    let (first, rest) = number(bytes)?;
    arc_of(first % 3, first / 3, rest)
}
