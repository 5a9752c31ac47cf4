//! Reads the starts of all activities from a text.

ghost use Rattle.std.specs.Prelude.{◌≡◌, ◌≢◌, ◌+◌, ◌<◌, ◌≤◌, ◌^◌, length, [], None, Some, OnOk, IfOk, IfErr};
ghost use Rattle.std.specs.List.{All};
ghost use Rattle.std.specs.Result.{result_err};
ghost use Rattle.std.specs.Str.Lines.{lines};
ghost use Rattle.network.specs.Problem.{IsTime};
ghost use Rattle.schedule_check.specs.Starts.{entries, line_entries, line_fault, starts_fault, starts_given, starts_of, IsStartsText, first_fault, with_entries, SaysTheSame};
ghost use Rattle.schedule_check.specs.declared.fault.StartsFault.TheVariants.{Memory};

use crate::entry::{entry_of, is_answer};
use crate::fault::StartsFault;
use crate::line::split_line;
use crate::table::{all_starts, put_entry};
use std::alloc::{AllocError, Global};
use words::MAX_TEXT_BYTES;

/// What is left of a text without the first line of an answer, and the number of its first line.
fn skip_answer(text: &[u8]) -> (&[u8], usize)
    ensures same { SaysTheSame text.now result.0.now result.1 }
    ensures room { result.1 + length result.0.now ≤ length text.now + 1 }
{
    if is_answer(text) {
        if let Some((_, rest)) = split_line(text) {
            return (rest, 2);
        }
    }
    (text, 1)
}

/// Puts what the lines of a text say into the table. The first of them has the given number.
fn put_lines(found: &mut [Option<i64>], text: &[u8], first: usize) -> Result<(), StartsFault>
    requires { first + length text.now < 2 ^ 64 }
    ensures fault { result_err result ≡ first_fault found.old first (line_entries (lines text.now)) }
    ensures put { OnOk result (found.new ≡ with_entries found.old (line_entries (lines text.now))) }
{
    let mut rest = text;
    let mut line = first;
    while let Some((bytes, more)) = split_line(rest) {
        put_entry(found, line, entry_of(bytes))?;
        rest = more;
        line += 1;
    }
    Ok(())
}

/// A table without any start.
fn empty_table(alloc: Global, activities: usize) -> Result<Vec<Option<i64>>, AllocError>
    ensures { IfOk result (λ table. table.items ≡ starts_given activities []) }
{
    vec![in alloc; None; activities]
}

/// The table of the starts that the lines of a text give.
fn read_lines(
    alloc: Global,
    text: &[u8],
    activities: usize,
) -> Result<Vec<Option<i64>>, StartsFault>
    requires { length text.now ≤ MAX_TEXT_BYTES }
    ensures fine { OnOk result (line_fault activities [] 1 (entries text.now) ≡ None) }
    ensures table { IfOk result (λ table. table.items ≡ starts_given activities (entries text.now)) }
    ensures fault { IfErr result (λ fault.
        fault ≢ Memory → line_fault activities [] 1 (entries text.now) ≡ Some fault) }
{
    let mut table = empty_table(alloc, activities)?;
    let (rest, first) = skip_answer(text);
    put_lines(table.as_mut_slice(), rest, first)?;
    Ok(table)
}

/// Reads a text that gives each of so many activities a start. Its lines are an activity, spaces or tabs, and its start
/// in periods, in any order, ended by LF or CRLF. It skips lines of spaces and tabs alone. It also skips the first line
/// of an answer of the program, which begins with `optimal `, `feasible ` or `earliest `.
///
/// Besides what it hands out it takes 16 bytes for each activity, whatever the text holds.
pub fn read_starts(alloc: Global, text: &[u8], activities: usize) -> Result<Vec<i64>, StartsFault>
    ensures accepted { OnOk result (starts_fault activities text.now ≡ None) }
    ensures text { OnOk result (IsStartsText activities text.now) }
    ensures starts { IfOk result (λ starts. starts.items ≡ starts_of activities text.now) }
    ensures count { IfOk result (λ starts. length starts.items ≡ activities) }
    ensures within { IfOk result (λ starts. All IsTime starts.items) }
    ensures fault { IfErr result (λ fault. fault ≢ Memory → starts_fault activities text.now ≡ Some fault) }
    ensures refused { IfErr result (λ fault. fault ≢ Memory → ¬ (IsStartsText activities text.now)) }
{
    if text.len() > MAX_TEXT_BYTES {
        return Err(StartsFault::TooLong);
    }
    let table = read_lines(alloc, text, activities)?;
    all_starts(alloc, &table)
}
