//! The rows of a text, one after another.

ghost use Rattle.std.specs.Prelude.{◌≡◌, ◌≤◌, ◌+◌, ◌∷◌, length, nat_lt, IfOk, OnOk, IfErr};
ghost use Rattle.record_text.specs.Rows.{line_pieces, missing};
ghost use Rattle.record_text.specs.TextFaults.{why_of, IsMissing, IsTitleFault};

use crate::MAX_RECORD_BYTES;
use crate::fault::{RecordFault, RecordFaultKind};
use words::split_once;

/// What is wrong where a row must come and none ends.
fn missing(text: &[u8]) -> RecordFaultKind
    ensures { result ≡ why_of (missing text.now) }
{
    match text {
        [] => RecordFaultKind::Short,
        _ => RecordFaultKind::Form,
    }
}

/// The row that must come at a line, and what follows its LF.
pub fn next_row(text: &[u8], line: usize) -> Result<(&[u8], &[u8]), RecordFault>
    ensures row { IfOk result (λ r. line_pieces text.now ≡ r.0.now ∷ line_pieces r.1.now) }
    ensures shorter { IfOk result (λ r. length r.0.now + 1 + length r.1.now ≡ length text.now) }
    ensures fault { IfErr result (IsMissing text.now line) }
{
    match split_once(text, b'\n') {
        Some((row, rest)) => Ok((row, rest)),
        None => Err(RecordFault {
            line,
            kind: missing(text),
        }),
    }
}

/// Whether a text has more bytes than are read.
fn is_too_long(text: &[u8]) -> bool
    ensures { result ≡ nat_lt MAX_RECORD_BYTES (length text.now) }
{
    text.len() > MAX_RECORD_BYTES
}

/// What follows the first row of a record's text, which must be this.
pub fn after_title<'a>(text: &'a [u8], title: &[u8]) -> Result<&'a [u8], RecordFault>
    ensures size { OnOk result (length text.now ≤ MAX_RECORD_BYTES) }
    ensures rows { IfOk result (λ rest. line_pieces text.now ≡ title.now ∷ line_pieces rest.now) }
    ensures shorter { IfOk result (λ rest. length rest.now ≤ length text.now) }
    ensures fault { IfErr result (IsTitleFault title.now text.now) }
{
    if is_too_long(text) {
        return Err(RecordFault {
            line: 0,
            kind: RecordFaultKind::TooLong,
        });
    }
    let (row, rest) = next_row(text, 1)?;
    if row != title {
        return Err(RecordFault::form(1));
    }
    Ok(rest)
}
