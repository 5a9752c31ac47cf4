//! Reads the lines of a record from a text.

ghost use Rattle.std.specs.Prelude.{◌≡◌, ◌≢◌, ◌≤◌, ◌∷◌, [], ◌++◌, length, map, Some, IfOk, IfErr};
ghost use Rattle.record_text.specs.Kinds.{head_rows, IsRecord};
ghost use Rattle.record_text.specs.Rows.{line_pieces};
ghost use Rattle.record_text.specs.TextFaults.{IsFormFault, HasFault};
ghost use Rattle.record_text.specs.declared.fault.RecordFaultKind.TheVariants.{Memory};

use crate::MAX_RECORD_BYTES;
use crate::fault::{RecordFault, RecordFaultKind};
use crate::kind::RecordLine;
use crate::text_rows::next_row;
use std::alloc::Global;

/// The line that a row, of this number, is where so much is due.
fn next_line<C, L: RecordLine<C>>(
    alloc: Global,
    row: &[u8],
    due: usize,
    line: usize,
) -> Result<L, RecordFault>
    ensures found { IfOk result (λ found. L.rules.read due row.now ≡ Some found) }
    ensures fault { IfErr result (IsFormFault (L.rules.read due row.now) line) }
{
    match L::of_row(alloc, row, due)? {
        Some(found) => Ok(found),
        None => Err(RecordFault::form(line)),
    }
}

/// The lines of a record, to the end of the text.
pub(crate) fn read_lines<C, L: RecordLine<C>>(
    alloc: Global,
    claim: &C,
    text: &[u8],
) -> Result<Vec<L>, RecordFault>
    requires size { length text.now ≤ MAX_RECORD_BYTES }
    requires claim { L.kind.IsClaim claim.now }
    ensures rows { IfOk result (λ lines. line_pieces text.now ≡ map L.kind.row_of lines.items ++ [] ∷ []) }
    ensures record { IfOk result (λ lines. IsRecord L.kind (record { claim = claim.now; lines = lines.items })) }
    ensures fault { IfErr result (λ fault.
        fault.kind ≢ Memory → HasFault L.kind (head_rows L.kind claim.now ++ line_pieces text.now) fault) }
{
    L::known();
    let mut lines: Vec<L> = Vec::new(alloc);
    let mut rest = text;
    let mut line = L::first_line(claim);
    let mut due = 1;
    while due > 0 {
        let (row, more) = next_row(rest, line)?;
        let found: L = next_line(alloc, row, due, line)?;
        due = found.still_due(due);
        lines.push(found)?;
        rest = more;
        line += 1;
    }
    if !rest.is_empty() {
        return Err(RecordFault {
            line,
            kind: RecordFaultKind::Trailing,
        });
    }
    lines.shrink_to_fit();
    Ok(lines)
}
