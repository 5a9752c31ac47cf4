//! Whole numbers as bytes: 0, -1, 1, -2 .. are numbered in this order.

ghost use Rattle.std.specs.Prelude.{◌≡◌, ◌<◌, ◌^◌, ◌++◌, length, Some, None, IfOk, OnOk, OnErr};
ghost use Rattle.lemma_log.specs.Numbers.{zigzag, signed_text};
ghost use Rattle.lemma_log.specs.Reading.{IsAddend, unzigzag, signed_in};

use crate::fault::DecodeFault;
use crate::number::{number, put_number};
use std::alloc::AllocError;

/// The place of a whole number in the order.
fn zigzag(number: i128) -> u128
    ensures { result ≡ zigzag number }
{
    if number >= 0 {
        number as u128 * 2
    } else {
        (-1 - number) as u128 * 2 + 1
    }
}

/// Writes a whole number.
pub(crate) fn put_signed(bytes: &mut Vec<u8>, number: i128) -> Result<(), AllocError>
    ensures { OnOk result (bytes.new.items ≡ bytes.old.items ++ signed_text number) }
{
    put_number(bytes, zigzag(number))
}

/// The whole number at a place of the order.
fn unzigzag(place: usize) -> i64
    requires { place < 2 ^ 63 }
    ensures value { result ≡ unzigzag place }
    ensures small { IsAddend result }
{
    let half = (place / 2) as i64;
    if place % 2 == 0 { half } else { -1 - half }
}

/// The whole number that bytes begin with, and what follows it.
#[tactic(auto, unfolding(crate::specs::Reading::signed_in))]
pub(crate) fn signed(bytes: &[u8]) -> Result<(i64, &[u8]), DecodeFault>
    ensures found { IfOk result (λ r. signed_in bytes.now ≡ Some (record { value = r.0; left = r.1.now })) }
    ensures small { IfOk result (λ r. IsAddend r.0) }
    ensures shorter { IfOk result (λ r. length r.1.now < length bytes.now) }
    ensures fault { OnErr result (signed_in bytes.now ≡ None) }
{
    let (place, rest) = number(bytes)?;
    Ok((unzigzag(place), rest))
}
