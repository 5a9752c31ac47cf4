//! The starts in a record.

ghost use Rattle.std.specs.Prelude.{◌≡◌, map, pos, IfOk};
ghost use Rattle.std.specs.List.{All};
ghost use Rattle.record_text.specs.Text.{IsNumber};
ghost use Rattle.record_text.specs.Reading.{starts_in};

use crate::fields::numbers_after;
use crate::listed::Starts;
use std::alloc::{AllocError, Global};

/// Numbers as times.
fn times(alloc: Global, numbers: &[usize]) -> Result<Vec<i64>, AllocError>
    requires { All IsNumber numbers.now }
    ensures { IfOk result (λ times. times.items ≡ map pos numbers.now) }
{
    let mut times = Vec::with_capacity(alloc, numbers.len())?;
    for number in numbers {
        times.push(*number as i64)?;
    }
    Ok(times)
}

/// The starts of a row that is the word `starts` and a number or more.
pub fn read_starts(alloc: Global, row: &[u8]) -> Result<Option<Starts>, AllocError>
    ensures { IfOk result (λ found. found ≡ starts_in row.now) }
{
    let Some(numbers) = numbers_after(alloc, b"starts".as_slice(), row)? else {
        return Ok(None);
    };
    if numbers.is_empty() {
        return Ok(None);
    }
    let starts = times(alloc, &numbers)?;
    Ok(Some(Starts::new(starts)))
}
