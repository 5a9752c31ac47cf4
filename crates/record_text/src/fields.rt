//! The fields of a line.

ghost use Rattle.std.specs.Prelude.{◌≡◌, IfSome, ◌<◌, length, IfOk, ◌∷◌, option_map};
ghost use Rattle.record_text.specs.Text.{IsNumber};
ghost use Rattle.record_text.specs.Reading.{has_leading_zero, number, fields, fields_left, numbers, numbers_after};
ghost use Rattle.std.specs.List.{All};

use std::alloc::{AllocError, Global};
use words::{natural, split_once};

/// The most digits of a number in the text of a record.
pub const MAX_NUMBER_DIGITS: usize = 10;

/// Whether there are several digits of which the first is 0.
fn has_leading_zero(word: &[u8]) -> bool
    ensures { result ≡ has_leading_zero word.now }
{
    word.len() > 1 && word[0] == b'0'
}

/// The number that 1 to 10 digits without a leading zero spell.
#[tactic(auto, unfolding(crate::specs::Reading::number))]
pub fn number(word: &[u8]) -> Option<usize>
    ensures value { result ≡ number word.now }
    ensures small { IfSome result IsNumber }
{
    if has_leading_zero(word) {
        return None;
    }
    let n = natural(word, MAX_NUMBER_DIGITS)?;
    Some(n as usize)
}

/// The first field of a row, and what follows the space after it, if one does.
pub fn split_field(row: &[u8]) -> (&[u8], Option<&[u8]>)
    ensures fields { fields row.now ≡ result.0.now ∷ fields_left (option_map (λ rest. rest.now) result.1) }
    ensures shorter { IfSome result.1 (λ rest. length rest.now < length row.now) }
{
    match split_once(row, b' ') {
        Some((field, rest)) => (field, Some(rest)),
        None => (row, None),
    }
}

/// The numbers that the fields of a row's rest spell, where each spells one.
pub fn numbers(alloc: Global, rest: Option<&[u8]>) -> Result<Option<Vec<usize>>, AllocError>
    ensures found { IfOk result (λ found. option_map (λ ns. ns.items) found
        ≡ numbers (fields_left (option_map (λ r. r.now) rest.entry))) }
    ensures small { IfOk result (λ found. IfSome found (λ ns. All IsNumber ns.items)) }
{
    let mut found = Vec::new(alloc);
    let mut left = rest;
    while let Some(row) = left {
        let (field, more) = split_field(row);
        let Some(n) = number(field) else {
            return Ok(None);
        };
        found.push(n)?;
        left = more;
    }
    Ok(Some(found))
}

/// The numbers after this word, where the row is the word and numbers.
pub fn numbers_after(
    alloc: Global,
    word: &[u8],
    row: &[u8],
) -> Result<Option<Vec<usize>>, AllocError>
    ensures found { IfOk result (λ found. option_map (λ ns. ns.items) found ≡ numbers_after word.now row.now) }
    ensures small { IfOk result (λ found. IfSome found (λ ns. All IsNumber ns.items)) }
{
    let (first, rest) = split_field(row);
    let found = numbers(alloc, rest)?;
    if first != word {
        return Ok(None);
    }
    Ok(found)
}
