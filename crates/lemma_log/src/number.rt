//! Numbers as bytes: 7 bits a byte, lowest first, of which the top bit says that more follow.

ghost use Rattle.std.specs.Prelude.{◌≡◌, ◌≤◌, ◌<◌, ◌^◌, ◌++◌, length, Ok, Err, IfOk, OnOk, OnErr, Some, None, IfErr, IfSome, MatchOption, ◌∷◌, []};
ghost use Rattle.lemma_log.specs.Numbers.{number_text, digits_in};
ghost use Rattle.lemma_log.specs.Reading.{number_in};

use crate::fault::DecodeFault;
use std::alloc::AllocError;

/// The most bytes of a number that is read.
pub(crate) const MAX_DIGITS: usize = 9;

/// Writes a number.
#[tactic(auto, using(crate::proofs::Digits::writing))]
pub(crate) fn put_number(bytes: &mut Vec<u8>, number: u128) -> Result<(), AllocError>
    ensures { OnOk result (bytes.new.items ≡ bytes.old.items ++ number_text number) }
{
    let mut left = number;
    while left >= 128 {
        bytes.push((left % 128 + 128) as u8)?;
        left /= 128;
    }
    bytes.push(left as u8)?;
    Ok(())
}

/// The first byte, and those after it.
fn split_byte(bytes: &[u8]) -> Option<(u8, &[u8])>
    ensures parts { MatchOption result (bytes.now ≡ []) (λ r. bytes.now ≡ r.0 ∷ r.1.now) }
    ensures byte { IfSome result (λ r. r.0 < 256) }
{
    let (first, rest) = bytes.split_first()?;
    Some((*first, rest))
}

/// The number that bytes begin with, where it has so many digits at most, and what follows it.
#[tactic(auto, using(crate::proofs::Digits::reading))]
pub(crate) fn digits_in(bytes: &[u8], most: usize) -> Result<(usize, &[u8]), DecodeFault>
    requires { most ≤ MAX_DIGITS }
    ensures found { IfOk result (λ r. digits_in most bytes.now ≡ Ok (record { value = r.0; left = r.1.now })) }
    ensures small { IfOk result (λ r. r.0 < 128 ^ most) }
    ensures shorter { IfOk result (λ r. length r.1.now < length bytes.now) }
    ensures fault { IfErr result (λ fault. digits_in most bytes.now ≡ Err fault) }
{
    if most == 0 {
        return Err(DecodeFault::Form);
    }
    let Some((byte, rest)) = split_byte(bytes) else {
        return Err(DecodeFault::Short);
    };
    let low = byte as usize;
    if low < 128 {
        return Ok((low, rest));
    }
    let (high, rest) = digits_in(rest, most - 1)?;
    Ok((low - 128 + 128 * high, rest))
}

/// The number that bytes begin with, and what follows it.
#[tactic(auto, unfolding(crate::specs::Reading::number_in))]
pub(crate) fn number(bytes: &[u8]) -> Result<(usize, &[u8]), DecodeFault>
    ensures found { IfOk result (λ r. number_in bytes.now ≡ Some (record { value = r.0; left = r.1.now })) }
    ensures small { IfOk result (λ r. r.0 < 2 ^ 63) }
    ensures shorter { IfOk result (λ r. length r.1.now < length bytes.now) }
    ensures fault { OnErr result (number_in bytes.now ≡ None) }
{
    digits_in(bytes, MAX_DIGITS)
}
