//! Reads one line of a record.

ghost use Rattle.std.specs.Prelude.{◌≡◌, IfOk};
ghost use Rattle.record_text.specs.Reading.{leaf, force_of, split_of, line_from, line_of};

use crate::fields::{numbers, split_field};
use crate::line::Line;
use crate::listed::Members;
use network::Pair;
use std::alloc::{AllocError, Global};

/// The line of a split of these numbers: its resource, then its members.
fn split_of(mut numbers: Vec<usize>) -> Option<Line>
    ensures { result ≡ split_of numbers.items }
{
    if numbers.len() < 2 {
        return None;
    }
    let resource = numbers.remove(0);
    Some(Line::Split {
        resource,
        members: Members::new(numbers),
    })
}

/// The line of a forced pair of these numbers.
fn force_of(numbers: &[usize]) -> Option<Line>
    ensures { result ≡ force_of numbers.now }
{
    match numbers {
        [before, after] => Some(Line::Force(Pair {
            before: *before,
            after: *after,
        })),
        _ => None,
    }
}

/// A line without numbers.
fn leaf(line: Line, numbers: &[usize]) -> Option<Line>
    ensures { result ≡ leaf line numbers.now }
{
    if numbers.is_empty() { Some(line) } else { None }
}

/// The line of this word and these numbers.
fn line_from(word: &[u8], numbers: Vec<usize>) -> Option<Line>
    ensures { result ≡ line_from word.now numbers.items }
{
    if word == b"force".as_slice() {
        force_of(&numbers)
    } else if word == b"split".as_slice() {
        split_of(numbers)
    } else if word == b"solved".as_slice() {
        leaf(Line::Solved, &numbers)
    } else if word == b"cut".as_slice() {
        leaf(Line::Cut, &numbers)
    } else if word == b"dead".as_slice() {
        leaf(Line::Dead, &numbers)
    } else {
        None
    }
}

/// The line of the tree that a row is.
pub(crate) fn line_of(alloc: Global, row: &[u8]) -> Result<Option<Line>, AllocError>
    ensures { IfOk result (λ found. found ≡ line_of row.now) }
{
    let (word, rest) = split_field(row);
    let Some(numbers) = numbers(alloc, rest)? else {
        return Ok(None);
    };
    Ok(line_from(word, numbers))
}
