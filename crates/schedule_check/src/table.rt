//! The starts that were read so far.

ghost use Rattle.std.specs.Prelude.{◌≡◌, ◌≢◌, length, map, None, Some, OnOk, IfOk, IfErr, unwrap_or, pos};
ghost use Rattle.std.specs.Result.{result_err};
ghost use Rattle.schedule_check.specs.Starts.{missing_fault, table_fault, with_entry};
ghost use Rattle.schedule_check.specs.declared.fault.StartsFault.TheVariants.{Memory};

use crate::entry::Entry;
use crate::fault::StartsFault;
use std::alloc::Global;

/// Puts what a line says into the table of starts, which has a place for each activity.
pub(crate) fn put_entry(
    found: &mut [Option<i64>],
    line: usize,
    entry: Entry,
) -> Result<(), StartsFault>
    ensures fault { result_err result ≡ table_fault found.old line entry }
    ensures put { OnOk result (found.new ≡ with_entry found.old entry) }
{
    match entry {
        Entry::Nothing => Ok(()),
        Entry::Wrong => Err(StartsFault::Token { line }),
        Entry::Gives { activity, start } => {
            if activity >= found.len() {
                return Err(StartsFault::Activity { line });
            }
            if found[activity].is_some() {
                return Err(StartsFault::Repeated { line });
            }
            found[activity] = Some(start);
            Ok(())
        }
    }
}

/// The starts of all activities, where each has one.
pub(crate) fn all_starts(alloc: Global, found: &[Option<i64>]) -> Result<Vec<i64>, StartsFault>
    ensures all { OnOk result (missing_fault found.now ≡ None) }
    ensures starts { IfOk result (λ starts. starts.items ≡ map (λ start. unwrap_or start (pos 0)) found.now) }
    ensures fault { IfErr result (λ fault. fault ≢ Memory → missing_fault found.now ≡ Some fault) }
{
    let mut starts = Vec::with_capacity(alloc, found.len())?;
    for (activity, start) in found.iter().enumerate() {
        match start {
            Some(start) => starts.push(*start)?,
            None => return Err(StartsFault::Missing { activity }),
        }
    }
    Ok(starts)
}
