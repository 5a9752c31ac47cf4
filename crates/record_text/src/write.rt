//! Writes numbers, times and a claim.

ghost use Rattle.std.specs.Prelude.{◌≡◌, ◌++◌, OnOk, string_bytes};
ghost use Rattle.std.specs.List.{flat_map};
ghost use Rattle.record_text.specs.Kinds.{ended};
ghost use Rattle.record_text.specs.Text.{spaced, spaced_times, optimal_rows};

use crate::listed::Starts;
use std::alloc::AllocError;

/// Writes each time with a space before it.
fn put_times(out: &mut String, times: &[i64]) -> Result<(), AllocError>
    ensures { OnOk result (string_bytes out.new ≡ string_bytes out.old ++ spaced_times times.now) }
{
    for time in times {
        write!(out, " {time}")?;
    }
    Ok(())
}

/// Writes the rows that say that a schedule of these starts has this makespan, and none is shorter.
pub fn put_optimal(out: &mut String, makespan: i64, starts: &Starts) -> Result<(), AllocError>
    ensures { OnOk result (string_bytes out.new ≡ string_bytes out.old ++ flat_map ended (optimal_rows makespan starts.now)) }
{
    write!(out, "optimal {makespan}\nstarts")?;
    put_times(out, starts.as_slice())?;
    out.push_str("\n")
}

/// Writes each number with a space before it.
pub fn put_numbers(out: &mut String, numbers: &[usize]) -> Result<(), AllocError>
    ensures { OnOk result (string_bytes out.new ≡ string_bytes out.old ++ spaced numbers.now) }
{
    for number in numbers {
        write!(out, " {number}")?;
    }
    Ok(())
}
